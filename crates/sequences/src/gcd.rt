// GCD of two polynomials in the store: both leading coefficients are inverted, the first one's first; then the remainders are taken in turn, the row of the
// dividend becoming that of the remainder. A constant ends it, and the GCD is 1; else the last polynomial that is not zero is made monic.
ghost use Rattle.std.specs.Prelude.{◌≤◌};
ghost use Rattle.sequences.specs.Gcds.{LeadReady, LeadDone, MonicReady, MonicDone, TurnReady, TurnDone, TurnsReady, TurnsDone, GcdLedReady, GcdLedDone, GcdReady, GcdDone};
ghost use Rattle.arithmetic.specs.Sources.{lent, stored};

use super::inverse::{follow, invert};
use super::rows::{divide_row, scale_row};
use crate::{Greatest, Led, Stop};
use arithmetic::places::{Source, part_at};
use tower::sizes::size_at;
use tower::store::one;

// The inverse of the leading coefficient of f, where it has one.
pub fn lead(
    i: usize,
    d: [usize; 4],
    z: [usize; 5],
    p: u64,
    e: Source,
    f: Led,
    w: &mut [i64],
    top: usize,
) -> Result<(), Stop>
    requires { LeadReady i d z p (lent e) (stored e) e.at f.row f.unit f.count w.old top }
    ensures { LeadDone i d p (lent e.entry) (stored e.entry) e.entry.at f.row f.unit f.count w.old w.new top result }
{
    if f.count == 0 {
        return Ok(());
    }
    let s = size_at(z, i);
    let leading = Source {
        lent: None,
        at: part_at(f.row, f.count - 1, s),
    };
    invert(i, d, z, p, e, leading, w, f.unit, top)
}

// f made monic, where it is not zero.
pub fn monic(
    i: usize,
    d: [usize; 4],
    z: [usize; 5],
    p: u64,
    e: Source,
    f: Led,
    w: &mut [i64],
    top: usize,
) -> Greatest
    requires { MonicReady i d z p (lent e) (stored e) e.at f.row f.unit f.count w.old top }
    ensures { MonicDone i d p (lent e.entry) (stored e.entry) e.entry.at f.row f.unit f.count w.old w.new top result }
{
    if f.count == 0 {
        return Greatest {
            at: f.row,
            count: 0,
        };
    }
    scale_row(i, f.count, d, z, p, e, f.unit, w, f.row, top);
    Greatest {
        at: f.row,
        count: f.count,
    }
}

// The remainder of f by g in f's row, and the inverse of its leading coefficient. Where f has the lower degree it is the remainder itself.
pub fn turn(
    i: usize,
    d: [usize; 4],
    z: [usize; 5],
    p: u64,
    e: Source,
    f: Led,
    g: Led,
    w: &mut [i64],
    top: usize,
) -> Result<usize, Stop>
    requires { TurnReady i d z p (lent e) (stored e) e.at f.row f.unit f.count g.row g.unit g.count w.old top }
    ensures { TurnDone i d p (lent e.entry) (stored e.entry) e.entry.at f.row f.unit f.count g.row g.unit g.count w.old w.new top result }
{
    if f.count < g.count {
        return Ok(f.count);
    }
    divide_row(
        i,
        d,
        z,
        p,
        e,
        g.row,
        g.count - 1,
        g.unit,
        w,
        f.row,
        f.count,
        top,
    );
    follow(i, d, z, p, e, f.row, g.count - 1, f.unit, w, top)
}

// The end of the sequence: 1 where g is a constant, by which every remainder is zero; where g is zero, f made monic.
pub fn end_turns(
    i: usize,
    d: [usize; 4],
    z: [usize; 5],
    p: u64,
    e: Source,
    f: Led,
    g: Led,
    w: &mut [i64],
    top: usize,
) -> Greatest
    requires { (g.count ≤ 1) × TurnsReady i d z p (lent e) (stored e) e.at f.row f.unit f.count g.row g.unit g.count w.old top }
    ensures { TurnsDone i d p (lent e.entry) (stored e.entry) e.entry.at f.row f.unit f.count g.row g.unit g.count w.old w.new top (Ok result) }
{
    if g.count == 1 {
        one(i, d, z, w, g.row);
        return Greatest {
            at: g.row,
            count: 1,
        };
    }
    monic(i, d, z, p, e, f, w, top)
}

// The sequence from two polynomials, the inverses of whose leading coefficients stand; the second may be zero.
pub fn turns(
    i: usize,
    d: [usize; 4],
    z: [usize; 5],
    p: u64,
    e: Source,
    first: Led,
    second: Led,
    w: &mut [i64],
    top: usize,
) -> Result<Greatest, Stop>
    requires { TurnsReady i d z p (lent e) (stored e) e.at first.row first.unit first.count second.row second.unit second.count w.old top }
    ensures { TurnsDone i d p (lent e.entry) (stored e.entry) e.entry.at first.row first.unit first.count second.row second.unit second.count w.old w.new top result }
{
    let mut f = first;
    let mut g = second;
    let mut left = f.count.max(g.count) + 1;
    // Stays: a while, since the second polynomial's count is what ends it; the counter of number 11 stands beside it
    // (docs/DECISIONS.md, "The code counts its remainders").
    while 1 < g.count {
        if left == 0 {
            return Err(Stop::Long);
        }
        left -= 1;
        let count = turn(i, d, z, p, e, f, g, w, top)?;
        (f, g) = (g, Led { count, ..f });
    }
    Ok(end_turns(i, d, z, p, e, f, g, w, top))
}

// The GCD of f and g where the inverse of f's leading coefficient stands.
pub fn gcd_led(
    i: usize,
    d: [usize; 4],
    z: [usize; 5],
    p: u64,
    e: Source,
    f: Led,
    g: Led,
    w: &mut [i64],
    top: usize,
) -> Result<Greatest, Stop>
    requires { GcdLedReady i d z p (lent e) (stored e) e.at f.row f.unit f.count g.row g.unit g.count w.old top }
    ensures { GcdLedDone i d p (lent e.entry) (stored e.entry) e.entry.at f.row f.unit f.count g.row g.unit g.count w.old w.new top result }
{
    lead(i, d, z, p, e, g, w, top)?;
    if f.count == 0 {
        return Ok(monic(i, d, z, p, e, g, w, top));
    }
    turns(i, d, z, p, e, f, g, w, top)
}

// The GCD of f and g: its coefficients stand where the result says.
pub fn gcd(
    i: usize,
    d: [usize; 4],
    z: [usize; 5],
    p: u64,
    e: Source,
    f: Led,
    g: Led,
    w: &mut [i64],
    top: usize,
) -> Result<Greatest, Stop>
    requires { GcdReady i d z p (lent e) (stored e) e.at f.row f.unit f.count g.row g.unit g.count w.old top }
    ensures { GcdDone i d p (lent e.entry) (stored e.entry) e.entry.at f.row f.unit f.count g.row g.unit g.count w.old w.new top result }
{
    lead(i, d, z, p, e, f, w, top)?;
    gcd_led(i, d, z, p, e, f, g, w, top)
}
