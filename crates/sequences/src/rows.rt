// Elements and rows of elements in the store. At level 0 they are numbers, and `numbers` has loops of their own for them.
ghost use Rattle.sequences.specs.Rows.{TimesReady, TimesDone, ScaleRowReady, ScaleRowDone, LoseReady, LoseDone, DivideReady, DivideDone};
ghost use Rattle.arithmetic.specs.Sources.{lent, stored};

use super::numbers::{divide_numbers, lose_numbers, scale_numbers, times_numbers};
use arithmetic::places::{Source, first_of, part_at, span_of};
use products::Operands;
use products::product::product;
use products::unit::unit_remainder;
use tower::sizes::size_at;

// The element of level i at c becomes the one at a times the one at b.
pub fn times(
    i: usize,
    d: [usize; 4],
    z: [usize; 5],
    p: u64,
    e: Source,
    a: usize,
    b: usize,
    w: &mut [i64],
    c: usize,
    top: usize,
)
    requires { TimesReady i d z p (lent e) (stored e) e.at a b w.old c top }
    ensures { TimesDone i d p (lent e.entry) (stored e.entry) e.entry.at a b w.old w.new c top }
{
    if i == 0 {
        times_numbers(p, a, b, w, c);
        return;
    }
    let places = [0usize; 4];
    let x = Source { lent: None, at: a };
    let y = Source { lent: None, at: b };
    let o = Operands { i, x, y, n: 1 };
    product(i, d, z, p, places, e, o, false, false, w, c, top);
}

// Each of the n elements of level i from c on is multiplied by the one at u.
pub fn scale_row(
    i: usize,
    n: usize,
    d: [usize; 4],
    z: [usize; 5],
    p: u64,
    e: Source,
    u: usize,
    w: &mut [i64],
    c: usize,
    top: usize,
)
    requires { ScaleRowReady i n d z p (lent e) (stored e) e.at u w.old c top }
    ensures { ScaleRowDone i n d p (lent e.entry) (stored e.entry) e.entry.at u w.old w.new c top }
{
    if i == 0 {
        scale_numbers(n, p, u, w, c);
        return;
    }
    let s = size_at(z, i);
    for k in 0..n {
        let at = part_at(c, k, s);
        times(i, d, z, p, e, u, at, w, at, top);
    }
}

// The m + n - 1 elements of level i from c on lose the product of the m from a on and the n from b on.
pub fn lose_product(
    i: usize,
    d: [usize; 4],
    z: [usize; 5],
    p: u64,
    e: Source,
    a: usize,
    m: usize,
    b: usize,
    n: usize,
    w: &mut [i64],
    c: usize,
    top: usize,
)
    requires { LoseReady i d z p (lent e) (stored e) e.at a m b n w.old c top }
    ensures { LoseDone i d p (lent e.entry) (stored e.entry) e.entry.at a m b n w.old w.new c top }
{
    if i == 0 {
        lose_numbers(p, a, m, b, n, w, c);
        return;
    }
    let s = size_at(z, i);
    let places = [0usize; 4];
    for k in 0..m + n - 1 {
        let x = part_at(a, first_of(n, k), s);
        let y = part_at(b, first_of(m, k), s);
        let q = span_of(m, n, k);
        let at = part_at(c, k, s);
        let o = Operands {
            i,
            x: Source { lent: None, at: x },
            y: Source { lent: None, at: y },
            n: q,
        };
        product(i, d, z, p, places, e, o, true, true, w, at, top);
    }
}

// Divides the cap elements of level i from a on in place by the polynomial with the g elements from b on under a leading one whose inverse stands at u: the
// remainder's coefficients stay below g, the quotient's stand from g on.
pub fn divide_row(
    i: usize,
    d: [usize; 4],
    z: [usize; 5],
    p: u64,
    e: Source,
    b: usize,
    g: usize,
    u: usize,
    w: &mut [i64],
    a: usize,
    cap: usize,
    top: usize,
)
    requires { DivideReady i d z p (lent e) (stored e) e.at b g u w.old a cap top }
    ensures { DivideDone i d p (lent e.entry) (stored e.entry) e.entry.at b g u w.old w.new a cap top }
{
    if i == 0 {
        divide_numbers(p, b, g, u, w, a, cap);
        return;
    }
    let divisor = Source { lent: None, at: b };
    let inverse = Source { lent: None, at: u };
    unit_remainder(i, d, z, p, e, divisor, g, inverse, w, a, cap, top);
}
