// How an inverse begins and ends: its polynomials and what they carry, and the answer as an element.
ghost use Rattle.std.specs.Prelude.{◌≡◌, ◌+◌, ◌*◌, ◌^◌, ◌<◌, pos, length, get_or};
ghost use Rattle.residue.specs.Word.{at};
ghost use Rattle.tower.specs.Form.{seg};
ghost use Rattle.tower.specs.Store.{Put};
ghost use Rattle.tower.specs.Writing.{count_of};
ghost use Rattle.arithmetic.specs.Walk.{pick, Readable};
ghost use Rattle.sequences.specs.Starts.{BringReady, NumberReady, NumberDone, FollowNumberReady, FollowNumberDone, BeginReady, BeginDone, FinishReady, FinishDone};
ghost use Rattle.arithmetic.specs.Sources.{lent, stored};

use crate::Stop;
use arithmetic::places::{Source, part_at};
use arithmetic::rows::settle;
use residue::rows::inverse;
use tower::store::{copy, copy_in, one, zeros};
use tower::words::count_at;

// n words of an operand, to a place of the store.
pub fn bring(x: Source, w: &mut [i64], c: usize, n: usize)
    requires { BringReady (lent x) (stored x) x.at w.old c n }
    ensures { Put c (seg x.entry.at n (pick (stored x.entry) w.old (lent x.entry))) w.old w.new }
{
    match x.lent {
        None => copy(w, c, x.at, n),
        Some(words) => copy_in(words, x.at, w, c, n),
    }
}

// The count of coefficients that the degree word of an operand tells.
pub fn count_in(x: Source, w: &[i64]) -> usize
    requires { x.at < length (pick (stored x) w.now (lent x)) }
    ensures { result ≡ count_of (get_or (pick (stored x.entry) w.now (lent x.entry)) x.entry.at (pos 0)) }
{
    count_at(x.words(w), x.at)
}

// The residue at a place of an operand.
pub fn residue_in(x: Source, w: &[i64]) -> u64
    requires { Readable (pick (stored x) w.now (lent x)) x.at }
    ensures { result ≡ at (pick (stored x.entry) w.now (lent x.entry)) x.entry.at }
{
    residue::get_residue(x.words(w), x.at)
}

// Level 0: the inverse of a number, or its greatest common divisor with p, at c.
pub fn invert_number(p: u64, x: Source, w: &mut [i64], c: usize) -> Result<(), Stop>
    requires { NumberReady p (lent x) (stored x) x.at w.old c }
    ensures { NumberDone p (lent x.entry) (stored x.entry) x.entry.at w.old w.new c result }
{
    match inverse(residue_in(x, w), p) {
        Ok(u) => {
            residue::put(w, c, u);
            Ok(())
        }
        Err(shared) => {
            residue::put(w, c, shared.divisor);
            Err(Stop::Factor { level: 0, at: c })
        }
    }
}

// Level 0 of `follow`: the inverse of the last of the k numbers at row, at unit; or its greatest common divisor with p above the n numbers of the row.
// The sequence inverts that number times the unit at hand, and multiplies by the unit again: what comes out is the same.
pub fn follow_number(
    p: u64,
    row: usize,
    n: usize,
    k: usize,
    unit: usize,
    w: &mut [i64],
) -> Result<usize, Stop>
    requires { FollowNumberReady p row n k unit w.old }
    ensures { FollowNumberDone p row n k unit w.old w.new result }
{
    match inverse(residue::get_residue(w, row + (k - 1)), p) {
        Ok(u) => {
            residue::put(w, unit, u);
            Ok(k)
        }
        Err(shared) => {
            let at = row + n;
            residue::put(w, at, shared.divisor);
            Err(Stop::Factor { level: 0, at })
        }
    }
}

// The five slots at the start: the coefficients of the tower's polynomial, those of the element, what they carry, 0 and 1, and the inverse 1 of the
// first one's leading coefficient.
pub fn begin(
    h: usize,
    g: usize,
    s: usize,
    d: [usize; 4],
    z: [usize; 5],
    e: Source,
    x: Source,
    w: &mut [i64],
    top: usize,
)
    requires { BeginReady h g s d z (lent e) (stored e) e.at (lent x) (stored x) x.at w.old top }
    ensures { BeginDone h d (lent e.entry) (stored e.entry) e.entry.at (lent x.entry) (stored x.entry) x.entry.at w.old w.new top }
{
    let slot = (g + 1) * s + 1;
    let modulus = Source { at: e.at + 1, ..e };
    let element = Source { at: x.at + 1, ..x };
    bring(modulus, w, top + 1, (g + 1) * s);
    bring(element, w, top + slot + 1, g * s);
    zeros(h, g, d, z, w, top + 2 * slot + 1);
    zeros(h, g, d, z, w, top + 3 * slot + 1);
    one(h, d, z, w, top + 3 * slot + 1);
    one(h, d, z, w, top + 4 * slot);
}

// The n elements at row become an element of the level above: zeros up to its g coefficients, and the degree word in front of them.
pub fn finish(
    h: usize,
    n: usize,
    g: usize,
    s: usize,
    d: [usize; 4],
    z: [usize; 5],
    w: &mut [i64],
    row: usize,
)
    requires { FinishReady h n g s d z w.old row }
    ensures { FinishDone h n g d w.old w.new row }
{
    zeros(h, g - n, d, z, w, part_at(row, n, s));
    settle(h, g, s, w, row - 1);
}
