// Sum and difference: their tests, of which the first are those of the leading view, and the sum in a's own slot.
ghost use Rattle.std.specs.Prelude.{◌≡◌, ◌&&◌, ◌<◌, leb, length};
ghost use Rattle.tower.specs.Limits.{slot_length};
ghost use Rattle.kernel.specs.Answers.{answer_of};
ghost use Rattle.kernel.specs.Promises.{SumGiven};
ghost use Rattle.kernel.specs.Shape.{Checked};
ghost use Rattle.kernel.specs.Slots.{degree_count};
ghost use Rattle.kernel.specs.Sums.{sum_number};
ghost use Rattle.kernel.specs.Views.{view_number};

use super::Answer;
use super::refusals::Refusal;
use super::shape::Shape;
use super::towers::Tower;
use arithmetic::sum::gain_row;
use tower::limits::slot_length;
use tower::words::count_at;

// Both lengths are those of slots over elements of s words.
pub fn lengths_ok(s: usize, k: usize, l: usize) -> bool
    requires { 0 < s }
    ensures { result ≡ (slot_length s k && slot_length s l) }
{
    slot_length(s, k) && slot_length(s, l)
}

// k coefficients have room for both.
pub fn room_ok(k: usize, a: &[i64], b: &[i64]) -> bool
    requires { (0 < length a.now) × (0 < length b.now) }
    ensures { result ≡ (leb (degree_count a.now) k && leb (degree_count b.now) k) }
{
    count_at(a, 0) <= k && count_at(b, 0) <= k
}

// The shape, where a and b are slots over the tower. Refuses 1 to 5.
pub fn view_checked(tower: Tower<'_>, a: &[i64], b: &[i64]) -> Result<Shape, Refusal>
    ensures { let x = tower.entry in Checked (view_number x.p x.n x.e x.t.now a.now b.now) x.n x.e result }
{
    let s = tower.checked()?;
    if !lengths_ok(s.size, a.len(), b.len()) {
        return Err(Refusal::BadLength);
    }
    if !s.slots_ok(tower.modulus(), a, b) {
        return Err(Refusal::BadForm);
    }
    Ok(s)
}

// The shape, where a has room for the sum too. Refuses 1 to 6.
pub fn sum_checked(tower: Tower<'_>, a: &[i64], b: &[i64]) -> Result<Shape, Refusal>
    ensures { let x = tower.entry in Checked (sum_number x.p x.n x.e x.t.now a.now b.now) x.n x.e result }
{
    let s = view_checked(tower, a, b)?;
    if !room_ok(s.coefficients(a), a, b) {
        return Err(Refusal::SmallAnswer);
    }
    Ok(s)
}

// a + b, or a - b where neg, in a's slot.
// Stays: `SumGiven` of specs/Promises.antt, the clause of sum and of difference, takes `neg` too.
pub fn gained(neg: bool, tower: Tower<'_>, a: &mut [i64], b: &[i64]) -> Result<Answer, Refusal>
    ensures { let x = tower.entry in SumGiven neg x.p x.n x.e x.t.now a.old b.now (answer_of result) a.new }
{
    let s = sum_checked(tower, a, b)?;
    let k = s.coefficients(a);
    let p = tower.modulus();
    gain_row(s.levels, k, neg, p, s.degrees, s.sizes, b, 0, a, 0);
    Ok(Answer::Done)
}
