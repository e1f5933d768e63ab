// Division in place by a polynomial whose leading coefficient has a known inverse: the remainder's loop, where each coefficient of the quotient is
// multiplied by the inverse as soon as it is made.
ghost use Rattle.products.specs.Unit.{ScaleReady, ScaleDone, UnitReady, UnitDone};
ghost use Rattle.arithmetic.specs.Sources.{lent, stored};

use super::Operands;
use super::product::{product, taken_at};
use arithmetic::places::{Source, part_at};
use tower::sizes::size_at;

// From g on the k-th coefficient, the element of level i at c, becomes the element u times it.
pub fn scale_at(
    k: usize,
    g: usize,
    i: usize,
    d: [usize; 4],
    z: [usize; 5],
    p: u64,
    m: [usize; 4],
    e: Source,
    u: Source,
    w: &mut [i64],
    c: usize,
    top: usize,
)
    requires { ScaleReady i d z p m (lent e) (stored e) e.at (lent u) (stored u) u.at w.old c top }
    ensures { ScaleDone k g i d p m (lent e.entry) (stored e.entry) e.entry.at (lent u.entry) (stored u.entry) u.entry.at w.old w.new c top }
{
    if k < g {
        return;
    }
    let o = Operands {
        i,
        x: u,
        y: Source { lent: None, at: c },
        n: 1,
    };
    product(i, d, z, p, m, e, o, false, false, w, c, top);
}

// Divides the cap coefficients of level i at a in place by the polynomial with the g coefficients of y under a leading one whose inverse is u: the
// remainder's coefficients stay below g, the quotient's stand from g on.
// Stays: one function for this and `remainder` is no plainer: the scaling would be one more of the cycle of calls, where the level falls round every cycle,
// with an inverse that may be absent and a case of it in each contract. What a coefficient loses, `taken_at`, serves both.
pub fn unit_remainder(
    i: usize,
    d: [usize; 4],
    z: [usize; 5],
    p: u64,
    e: Source,
    y: Source,
    g: usize,
    u: Source,
    w: &mut [i64],
    a: usize,
    cap: usize,
    top: usize,
)
    requires { UnitReady i d z p (lent e) (stored e) e.at (lent y) (stored y) y.at g (lent u) (stored u) u.at w.old a cap top }
    ensures { UnitDone i d p (lent e.entry) (stored e.entry) e.entry.at (lent y.entry) (stored y.entry) y.entry.at g
        (lent u.entry) (stored u.entry) u.entry.at w.old w.new a cap top }
{
    let s = size_at(z, i);
    let m = [0usize; 4];
    for k in (0..cap).rev() {
        let o = taken_at(k, i, g, cap, s, y, a);
        let c = part_at(a, k, s);
        product(i, d, z, p, m, e, o, true, true, w, c, top);
        scale_at(k, g, i, d, z, p, m, e, u, w, c, top);
    }
}
