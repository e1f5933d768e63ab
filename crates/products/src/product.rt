// Products and remainders of elements in one store. What stands in a place gains, or loses, a sum of products; a row of coefficients is divided in place.
// A function writes its answer's words and words from `top` on; operands lie below `top` or in lent words. The answer is written last, so it may be an
// operand too.
//
// A product at level j makes the coefficients of its level, each a product one level down, and divides their row by the tower's polynomial; a
// remainder at level i makes each coefficient by a product. The level falls round every cycle.
ghost use Rattle.std.specs.Prelude.{◌≡◌, ◌≤◌};
ghost use Rattle.products.specs.Product.{operands, ProductReady, ProductDone, CoefficientsReady, CoefficientsDone};
ghost use Rattle.products.specs.Product.{TakenReady, taken, RemainderReady, RemainderDone};
ghost use Rattle.arithmetic.specs.Sources.{lent, stored};

use super::Operands;
use super::lowest::{leave, low_product};
use arithmetic::places::{Source, first_of, keeps, part_at, span_of, wide_of, with_place};
use tower::sizes::{degree_at, size_at};
use tower::store::copy;

// The element of level j at c gains, or loses where neg, what the pairs come to at the places m; without keep it starts at zero.
#[cycle(coefficients_high_product_product_remainder)]
pub fn product(
    j: usize,
    d: [usize; 4],
    z: [usize; 5],
    p: u64,
    m: [usize; 4],
    e: Source,
    o: Operands,
    neg: bool,
    keep: bool,
    w: &mut [i64],
    c: usize,
    top: usize,
)
    requires { ProductReady j d z p m (lent e) (stored e) e.at (operands o) keep w.old c top }
    ensures { ProductDone j d p m (lent e.entry) (stored e.entry) e.entry.at (operands o.entry) neg keep w.old w.new c top }
{
    if j < 2 {
        low_product(j, d, z, p, m, e, o, neg, keep, w, c, top);
    } else {
        high_product(j, d, z, p, m, e, o, neg, keep, w, c, top);
    }
}

// From level 2 on: the coefficients of level j - 1, each a product, divided by the tower's polynomial.
#[cycle(coefficients_high_product_product_remainder)]
pub fn high_product(
    j: usize,
    d: [usize; 4],
    z: [usize; 5],
    p: u64,
    m: [usize; 4],
    e: Source,
    o: Operands,
    neg: bool,
    keep: bool,
    w: &mut [i64],
    c: usize,
    top: usize,
)
    requires { (2 ≤ j) × ProductReady j d z p m (lent e) (stored e) e.at (operands o) keep w.old c top }
    ensures { ProductDone j d p m (lent e.entry) (stored e.entry) e.entry.at (operands o.entry) neg keep w.old w.new c top }
{
    let l = j - 1;
    let g = degree_at(d, l);
    let s = size_at(z, l);
    let h = wide_of(g);
    let next = part_at(top, h, s);
    let lower = Source {
        at: e.at + size_at(z, j) + s,
        ..e
    };
    let divisor = Source { at: e.at + 1, ..e };
    copy(w, top, c + 1, g * s);
    coefficients(l, d, z, p, m, lower, o, neg, keep, w, top);
    remainder(l, d, z, p, lower, divisor, g, w, top, h, next);
    leave(l, g, s, w, c, top);
}

// The coefficients of level j of such a sum at level j + 1, from top on, where the old content's stand: not yet divided.
#[cycle(coefficients_high_product_product_remainder)]
pub fn coefficients(
    j: usize,
    d: [usize; 4],
    z: [usize; 5],
    p: u64,
    m: [usize; 4],
    e: Source,
    o: Operands,
    neg: bool,
    keep: bool,
    w: &mut [i64],
    top: usize,
)
    requires { CoefficientsReady j d z p m (lent e) (stored e) e.at (operands o) keep w.old top }
    ensures { CoefficientsDone j d p m (lent e.entry) (stored e.entry) e.entry.at (operands o.entry) neg keep w.old w.new top }
{
    let g = degree_at(d, j);
    let s = size_at(z, j);
    let h = wide_of(g);
    let next = part_at(top, h, s);
    for k in 0..h {
        let at = with_place(m, j, k);
        let kept = keeps(keep, k, g);
        let c = part_at(top, k, s);
        product(j, d, z, p, at, e, o, neg, kept, w, c, next);
    }
}

// What a division takes from the k-th of the cap coefficients of level i, of s words each, at a: the divisor's g coefficients at y times the quotient's, which
// stand above.
pub fn taken_at<'a>(
    k: usize,
    i: usize,
    g: usize,
    cap: usize,
    s: usize,
    y: Source<'a>,
    a: usize,
) -> Operands<'a>
    requires { TakenReady k g cap s y.at a }
    ensures { operands result ≡ taken k i g cap s (lent y.entry) (stored y.entry) y.entry.at a }
{
    Operands {
        i,
        x: Source {
            at: part_at(y.at, first_of(cap - g, k), s),
            ..y
        },
        y: Source {
            lent: None,
            at: part_at(a, g + first_of(g, k), s),
        },
        n: span_of(g, cap - g, k),
    }
}

// Divides the cap coefficients of level i at a in place by the polynomial with the g coefficients of y under its leading 1.
#[cycle(coefficients_high_product_product_remainder)]
pub fn remainder(
    i: usize,
    d: [usize; 4],
    z: [usize; 5],
    p: u64,
    e: Source,
    y: Source,
    g: usize,
    w: &mut [i64],
    a: usize,
    cap: usize,
    top: usize,
)
    requires { RemainderReady i d z p (lent e) (stored e) e.at (lent y) (stored y) y.at g w.old a cap top }
    ensures { RemainderDone i d p (lent e.entry) (stored e.entry) e.entry.at (lent y.entry) (stored y.entry) y.entry.at g w.old w.new a cap top }
{
    let s = size_at(z, i);
    let m = [0usize; 4];
    for k in (0..cap - 1).rev() {
        let o = taken_at(k, i, g, cap, s, y, a);
        let c = part_at(a, k, s);
        product(i, d, z, p, m, e, o, true, true, w, c, top);
    }
}
