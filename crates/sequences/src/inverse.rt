// Inverse of an element: document 01's sequence on the polynomial of its level and the element, over the level below. It calls the division of rows and
// the inverse one level down; the level falls round the cycle.
//
// The five slots of a level stand from `top` on: two for the polynomials, two for what they carry, and one for the inverses of their leading coefficients.
ghost use Rattle.std.specs.Prelude.{◌<◌};
ghost use Rattle.sequences.specs.Outcomes.{InvertReady, InvertDone, RunReady, RunDone, FollowReady, FollowDone};
ghost use Rattle.sequences.specs.Passes.{RemainderReady, RemainderDone, CloseReady, CloseDone, Underway, PassesDone};
ghost use Rattle.arithmetic.specs.Sources.{lent, stored};

use super::rows::{divide_row, lose_product, scale_row, times};
use super::starts::{begin, count_in, finish, follow_number, invert_number};
use crate::{Led, Stop};
use arithmetic::places::{Source, part_at};
use arithmetic::rows::top_of;
use tower::sizes::{degree_at, size_at};
use tower::store::copy;

// The inverse of the element x of level i, at c; or there the words of a factor.
#[cycle(follow_invert_passes_run)]
pub fn invert(
    i: usize,
    d: [usize; 4],
    z: [usize; 5],
    p: u64,
    e: Source,
    x: Source,
    w: &mut [i64],
    c: usize,
    top: usize,
) -> Result<(), Stop>
    requires { InvertReady i d z p (lent e) (stored e) e.at (lent x) (stored x) x.at w.old c top }
    ensures { InvertDone i d p (lent e.entry) (stored e.entry) e.entry.at (lent x.entry) (stored x.entry) x.entry.at w.old w.new c top result }
{
    if i == 0 {
        return invert_number(p, x, w, c);
    }
    match run(i, d, z, p, e, x, w, top) {
        Ok(at) => {
            copy(w, c, at, size_at(z, i));
            Ok(())
        }
        Err(Stop::Factor { level, at }) => {
            copy(w, c, at, size_at(z, level));
            Err(Stop::Factor { level, at: c })
        }
        Err(Stop::Long) => Err(Stop::Long),
    }
}

// After a division: the n coefficients of the remainder stand at row. The inverse of its leading coefficient times the one at unit replaces the latter.
#[cycle(follow_invert_passes_run)]
pub fn follow(
    i: usize,
    d: [usize; 4],
    z: [usize; 5],
    p: u64,
    e: Source,
    row: usize,
    n: usize,
    unit: usize,
    w: &mut [i64],
    top: usize,
) -> Result<usize, Stop>
    requires { FollowReady i d z p (lent e) (stored e) e.at row n unit w.old top }
    ensures { FollowDone i d p (lent e.entry) (stored e.entry) e.entry.at row n unit w.old w.new top result }
{
    let s = size_at(z, i);
    let k = top_of(i, n, s, w, row - 1);
    if k == 0 {
        return Ok(0);
    }
    if i == 0 {
        return follow_number(p, row, n, k, unit, w);
    }
    let free = part_at(row, n, s);
    times(i, d, z, p, e, unit, part_at(row, k - 1, s), w, free, top);
    let product = Source {
        lent: None,
        at: free,
    };
    invert(i, d, z, p, e, product, w, free, top)?;
    times(i, d, z, p, e, free, unit, w, unit, top);
    Ok(k)
}

// The remainder of f by k in the row of f, and what it carries in the place of what f carries.
pub fn remainder(
    h: usize,
    g: usize,
    s: usize,
    d: [usize; 4],
    z: [usize; 5],
    p: u64,
    e: Source,
    f: Led,
    k: Led,
    w: &mut [i64],
    next: usize,
)
    requires { RemainderReady h g s d z p (lent e) (stored e) e.at f k w.old next }
    ensures { RemainderDone h g s d p (lent e.entry) (stored e.entry) e.entry.at f k w.old w.new next }
{
    let n = k.count - 1;
    let lows = g + 2 - f.count;
    divide_row(h, d, z, p, e, k.row, n, k.unit, w, f.row, f.count, next);
    let q = part_at(f.row, n, s);
    lose_product(
        h,
        d,
        z,
        p,
        e,
        q,
        f.count - n,
        k.carried,
        lows,
        w,
        f.carried,
        next,
    );
}

// The end of a sequence: k is zero, and f made monic is a factor; or k is a constant, and its inverse times what k carries is the inverse.
pub fn close(
    h: usize,
    g: usize,
    s: usize,
    d: [usize; 4],
    z: [usize; 5],
    p: u64,
    e: Source,
    f: Led,
    k: Led,
    w: &mut [i64],
    next: usize,
) -> Result<usize, Stop>
    requires { CloseReady h g s d z p (lent e) (stored e) e.at f k w.old next }
    ensures { CloseDone h g d p (lent e.entry) (stored e.entry) e.entry.at f k w.old w.new next result }
{
    if k.count == 0 {
        scale_row(h, f.count, d, z, p, e, f.unit, w, f.row, next);
        finish(h, f.count, g, s, d, z, w, f.row);
        return Err(Stop::Factor {
            level: h + 1,
            at: f.row - 1,
        });
    }
    scale_row(h, g, d, z, p, e, k.unit, w, k.carried, next);
    finish(h, g, g, s, d, z, w, k.carried);
    Ok(k.carried - 1)
}

// The sequence from two neighbours on: the remainders in turn, and the end.
#[cycle(follow_invert_passes_run)]
pub fn passes(
    h: usize,
    g: usize,
    s: usize,
    d: [usize; 4],
    z: [usize; 5],
    p: u64,
    e: Source,
    first: Led,
    second: Led,
    w: &mut [i64],
    next: usize,
) -> Result<usize, Stop>
    requires { Underway h g s d z p (lent e) (stored e) e.at first second w.old next }
    ensures { PassesDone h g s d z p (lent e.entry) (stored e.entry) e.entry.at first second w.old w.new next result }
{
    let mut f = first;
    let mut k = second;
    let mut left = g + 2;
    // Stays: a while, since the second polynomial's count is what ends it; the counter of number 11 stands beside it
    // (docs/DECISIONS.md, "The code counts its remainders").
    while 1 < k.count {
        if left == 0 {
            return Err(Stop::Long);
        }
        left -= 1;
        remainder(h, g, s, d, z, p, e, f, k, w, next);
        let n = k.count - 1;
        let count = follow(h, d, z, p, e, f.row, n, f.unit, w, next)?;
        (f, k) = (k, Led { count, ..f });
    }
    close(h, g, s, d, z, p, e, f, k, w, next)
}

// The inverse at level i, above 0: the answer stands where the result says, among the words from top on.
#[cycle(follow_invert_passes_run)]
pub fn run(
    i: usize,
    d: [usize; 4],
    z: [usize; 5],
    p: u64,
    e: Source,
    x: Source,
    w: &mut [i64],
    top: usize,
) -> Result<usize, Stop>
    requires { (0 < i) × RunReady i d z p (lent e) (stored e) e.at (lent x) (stored x) x.at w.old top }
    ensures { RunDone i d p (lent e.entry) (stored e.entry) e.entry.at (lent x.entry) (stored x.entry) x.entry.at w.old w.new top result }
{
    let h = i - 1;
    let g = degree_at(d, h);
    let s = size_at(z, h);
    let under = Source {
        at: e.at + size_at(z, i) + s,
        ..e
    };
    let slot = (g + 1) * s + 1;
    let next = top + 5 * slot;
    let n = count_in(x, w);
    begin(h, g, s, d, z, e, x, w, top);
    let unit = top + 4 * slot;
    let f = Led::in_slot(top, slot, unit, g + 1);
    let k = Led::in_slot(top + slot, slot, unit + s, n);
    let leading = Source {
        lent: None,
        at: part_at(k.row, n - 1, s),
    };
    invert(h, d, z, p, under, leading, w, k.unit, next)?;
    passes(h, g, s, d, z, p, under, f, k, w, next)
}
