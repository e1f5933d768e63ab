// The tests that product and division share: a tower, two slots, an answer's slot and the work store.
ghost use Rattle.std.specs.Prelude.{◌≡◌, ◌&&◌, ◌^◌, ◌<◌, ◌≤◌};
ghost use Rattle.tower.specs.Limits.{slot_length};
ghost use Rattle.kernel.specs.Shape.{Checked};
ghost use Rattle.kernel.specs.Slots.{room_needed, slots_number};

use super::refusals::Refusal;
use super::shape::Shape;
use super::sums::lengths_ok;
use super::towers::Tower;
use tower::limits::slot_length;
use tower::words::count_at;
use tower::work::product_work;

// The coefficients that the answer of a product, or the quotient of a division, needs, from one more than the two degrees.
// Stays: `room_needed` and `slots_number` of specs/Slots.antt, which the clauses here and of slots_checked cite, take `divides`.
pub fn room_needed(divides: bool, ca: usize, cb: usize) -> usize
    requires { (ca ≤ 2 ^ 32) × (cb ≤ 2 ^ 32) }
    ensures { result ≡ room_needed divides ca cb }
{
    if divides {
        ca.saturating_sub(cb) + 1
    } else if ca == 0 || cb == 0 {
        1
    } else {
        ca + cb - 1
    }
}

// All three lengths are those of slots over elements of s words.
// Stays: one function over an array of lengths takes a closure and an array at each call, and is no plainer than these two lines.
pub fn three_lengths_ok(s: usize, k: usize, l: usize, m: usize) -> bool
    requires { 0 < s }
    ensures { result ≡ (slot_length s k && (slot_length s l && slot_length s m)) }
{
    slot_length(s, k) && lengths_ok(s, l, m)
}

// The shape, where a and b are slots over the tower, c is one with room for an answer, and v has the work words: of a division where divides, and else of a
// product. Refuses 1 to 7.
pub fn slots_checked(
    divides: bool,
    tower: Tower<'_>,
    a: &[i64],
    b: &[i64],
    c: &[i64],
    v: &[i64],
) -> Result<Shape, Refusal>
    ensures { let x = tower.entry in Checked (slots_number divides x.p x.n x.e x.t.now a.now b.now c.now v.now) x.n x.e result }
{
    let s = tower.checked()?;
    if !three_lengths_ok(s.size, a.len(), b.len(), c.len()) {
        return Err(Refusal::BadLength);
    }
    if !s.slots_ok(tower.modulus(), a, b) {
        return Err(Refusal::BadForm);
    }
    if s.coefficients(c) < room_needed(divides, count_at(a, 0), count_at(b, 0)) {
        return Err(Refusal::SmallAnswer);
    }
    if v.len() < product_work(s.levels, s.degrees) {
        return Err(Refusal::SmallWork);
    }
    Ok(s)
}
