// The shape of a tower: what N and the degrees come to once they are in range.
ghost use Rattle.std.specs.Prelude.{◌≡◌, true, ◌&&◌, ◌<◌, length};
ghost use Rattle.tower.specs.Form.{tower_form, slot_form};
ghost use Rattle.tower.specs.Limits.{slot_length, slot_count};
ghost use Rattle.kernel.specs.Calls.{shape_number, work_number};
ghost use Rattle.kernel.specs.Shape.{Known, Checked};

use super::refusals::Refusal;
use tower::form::{row, tower};
use tower::limits::{degrees_ok, levels_ok, work_degree};
use tower::sizes::{degrees, size_at, sizes, tower_size};
use tower::words::nat;

// The levels, the four degrees, S_0 to S_4, and S_N.
#[derive(Clone, Copy)]
pub struct Shape {
    pub levels: usize,
    pub degrees: [usize; 4],
    pub sizes: [usize; 5],
    pub size: usize,
}

impl Shape {
    // The words are those of a tower of this shape.
    pub fn tower_ok(self, p: u64, t: &[i64]) -> bool
        requires { Known self }
        ensures { result ≡ tower_form p self.degrees self.levels t.now }
    {
        t.len() == tower_size(self.levels, self.degrees)
            && tower(self.levels, self.degrees, self.sizes, p, t)
    }

    // The coefficients of a slot.
    pub fn coefficients(self, a: &[i64]) -> usize
        requires { (0 < self.size) × (0 < length a.now) }
        ensures { result ≡ slot_count self.size (length a.now) }
    {
        (a.len() - 1) / self.size
    }

    // A slot of a length that is allowed is in form over a tower of this shape.
    pub fn slot_ok(self, p: u64, a: &[i64]) -> bool
        requires { Known self × (slot_length self.size (length a.now) ≡ true) }
        ensures { result ≡ slot_form p self.degrees self.levels (slot_count self.size (length a.now)) a.now }
    {
        let k = self.coefficients(a);
        row(self.levels, k, self.degrees, self.sizes, p, a, 0)
    }

    // Both slots are in form.
    pub fn slots_ok(self, p: u64, a: &[i64], b: &[i64]) -> bool
        requires { Known self × (slot_length self.size (length a.now) ≡ true) × (slot_length self.size (length b.now) ≡ true) }
        ensures { result
            ≡ (slot_form p self.degrees self.levels (slot_count self.size (length a.now)) a.now
            && slot_form p self.degrees self.levels (slot_count self.size (length b.now)) b.now) }
    {
        self.slot_ok(p, a) && self.slot_ok(p, b)
    }
}

// The shape of N and the degrees. Refuses 2.
//
// Inlined, here and in `Tower::checked`: the check of a small tower and the work sizes are little more than this.
#[inline(always)]
pub fn shape_of(n: i64, e: [i64; 4]) -> Result<Shape, Refusal>
    ensures { Checked (shape_number n e) n e result }
{
    if !levels_ok(n) {
        return Err(Refusal::BadDegrees);
    }
    let levels = nat(n);
    if !degrees_ok(levels, e) {
        return Err(Refusal::BadDegrees);
    }
    let d = degrees(e);
    let z = sizes(d);
    let size = size_at(z, levels);
    if 2048 < size {
        return Err(Refusal::BadDegrees);
    }
    Ok(Shape {
        levels,
        degrees: d,
        sizes: z,
        size,
    })
}

// The shape, where the work sizes are asked for with the degrees a and b. Refuses 2 and 5.
pub fn work_checked(n: i64, e: [i64; 4], a: i64, b: i64) -> Result<Shape, Refusal>
    ensures { Checked (work_number n e a b) n e result }
{
    let s = shape_of(n, e)?;
    if !work_degree(a) || !work_degree(b) {
        return Err(Refusal::BadForm);
    }
    Ok(s)
}
