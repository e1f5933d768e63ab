// Division by a monic polynomial: the tests of `slots` and that the divisor is monic; the remainder replaces a, the quotient goes into q, and the work
// words that it needs are cleared.
ghost use Rattle.std.specs.Prelude.{◌≡◌, true, ◌&&◌, leb, length};
ghost use Rattle.tower.specs.Form.{slot_form, same, seg, one_words};
ghost use Rattle.tower.specs.Limits.{slot_length, slot_count};
ghost use Rattle.kernel.specs.Answers.{answer_of};
ghost use Rattle.kernel.specs.Divisions.{division_number, monic_words};
ghost use Rattle.kernel.specs.Promises.{DivisionGiven};
ghost use Rattle.kernel.specs.Shape.{Known, Checked};

use super::Answer;
use super::refusals::Refusal;
use super::shape::Shape;
use super::slots::slots_checked;
use super::towers::Tower;
use polynomials::slots::divide;
use tower::form::{coefficient_at, one_at};
use tower::store::clear;
use tower::words::count_at;
use tower::work::product_work;

// A slot in form is not zero, and its leading coefficient is 1.
pub fn monic(s: Shape, p: u64, b: &[i64]) -> bool
    requires { Known s × (slot_length s.size (length b.now) ≡ true)
        × (slot_form p s.degrees s.levels (slot_count s.size (length b.now)) b.now ≡ true) }
    ensures { result ≡ monic_words s.degrees s.levels s.size b.now }
{
    let c = count_at(b, 0);
    c != 0 && one_at(s.levels, b, coefficient_at(0, c - 1, s.size))
}

// The shape, where b is monic too. Refuses 1 to 8.
pub fn division_checked(
    tower: Tower<'_>,
    a: &[i64],
    b: &[i64],
    q: &[i64],
    v: &[i64],
) -> Result<Shape, Refusal>
    ensures { let x = tower.entry in Checked (division_number x.p x.n x.e x.t.now a.now b.now q.now v.now) x.n x.e result }
{
    let s = slots_checked(true, tower, a, b, q, v)?;
    if !monic(s, tower.modulus(), b) {
        return Err(Refusal::NotMonic);
    }
    Ok(s)
}

// The remainder of a by b in a's own slot, and the quotient in q.
pub fn parted(
    tower: Tower<'_>,
    a: &mut [i64],
    b: &[i64],
    q: &mut [i64],
    v: &mut [i64],
) -> Result<Answer, Refusal>
    ensures { let x = tower.entry in DivisionGiven x.p x.n x.e x.t.now a.old b.now q.old v.old (answer_of result) a.new q.new v.new }
{
    let s = division_checked(tower, a, b, q, v)?;
    let p = tower.modulus();
    let k = s.coefficients(a);
    let l = s.coefficients(q);
    if s.levels == 0 {
        // level 0 needs one word to work in, and no work words
        let mut word = [0i64; 1];
        divide(0, k, l, s.degrees, s.sizes, p, tower.t, a, b, q, &mut word);
        return Ok(Answer::Done);
    }
    divide(s.levels, k, l, s.degrees, s.sizes, p, tower.t, a, b, q, v);
    clear(v, 0, product_work(s.levels, s.degrees));
    Ok(Answer::Done)
}
