// Product: its tests are those of `slots`; the answer goes into c, and the work words that it needs are cleared.
ghost use Rattle.kernel.specs.Answers.{answer_of};
ghost use Rattle.kernel.specs.Promises.{ProductGiven};

use super::Answer;
use super::refusals::Refusal;
use super::slots::slots_checked;
use super::towers::Tower;
use polynomials::slots::multiply;
use tower::store::clear;
use tower::work::product_work;

// a times b into c.
pub fn multiplied(
    tower: Tower<'_>,
    a: &[i64],
    b: &[i64],
    c: &mut [i64],
    v: &mut [i64],
) -> Result<Answer, Refusal>
    ensures { let x = tower.entry in ProductGiven x.p x.n x.e x.t.now a.now b.now c.old v.old (answer_of result) c.new v.new }
{
    let s = slots_checked(false, tower, a, b, c, v)?;
    let q = tower.modulus();
    let k = s.coefficients(c);
    if s.levels == 0 {
        // level 0 needs one word to work in, and no work words
        let mut word = [0i64; 1];
        multiply(0, k, s.degrees, s.sizes, q, tower.t, a, b, c, &mut word);
        return Ok(Answer::Done);
    }
    multiply(s.levels, k, s.degrees, s.sizes, q, tower.t, a, b, c, v);
    clear(v, 0, product_work(s.levels, s.degrees));
    Ok(Answer::Done)
}
