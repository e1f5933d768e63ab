// A tower as it is lent, and its tests.
ghost use Rattle.std.specs.Prelude.{◌≡◌};
ghost use Rattle.residue.specs.Word.{num};
ghost use Rattle.kernel.specs.Calls.{base_number, tower_number, slot_number};
ghost use Rattle.kernel.specs.Shape.{Checked};

use super::refusals::Refusal;
use super::shape::{Shape, shape_of};
use tower::limits::{p_ok, slot_length};

// p, N, the degrees and the tower's words, of which nothing is known.
#[derive(Clone, Copy)]
pub struct Tower<'a> {
    pub p: i64,
    pub n: i64,
    pub e: [i64; 4],
    pub t: &'a [i64],
}

impl Tower<'_> {
    // The modulus as a number.
    pub fn modulus(self) -> u64
        ensures { result ≡ num self.entry.p }
    {
        residue::number(self.p)
    }

    // The shape, where p, N and the degrees are in range. Refuses 1 and 2.
    pub fn shape(self) -> Result<Shape, Refusal>
        ensures { let x = self.entry in Checked (base_number x.p x.n x.e) x.n x.e result }
    {
        if !p_ok(self.p) {
            return Err(Refusal::BadModulus);
        }
        shape_of(self.n, self.e)
    }

    // The shape, where the words are those of a tower. Refuses 1 to 3.
    #[inline(always)]
    pub fn checked(self) -> Result<Shape, Refusal>
        ensures { let x = self.entry in Checked (tower_number x.p x.n x.e x.t.now) x.n x.e result }
    {
        let s = self.shape()?;
        if !s.tower_ok(self.modulus(), self.t) {
            return Err(Refusal::BadTower);
        }
        Ok(s)
    }

    // The shape, where a is a slot over the tower. Refuses 1 to 5.
    pub fn slot_checked(self, a: &[i64]) -> Result<Shape, Refusal>
        ensures { let x = self.entry in Checked (slot_number x.p x.n x.e x.t.now a.now) x.n x.e result }
    {
        let s = self.checked()?;
        if !slot_length(s.size, a.len()) {
            return Err(Refusal::BadLength);
        }
        if !s.slot_ok(self.modulus(), a) {
            return Err(Refusal::BadForm);
        }
        Ok(s)
    }
}
