// Sums of products of residues over the coefficients of elements, for one place of each level: two lists are only read, the sum is a number in two
// words. The pairs of a run and the windows of four levels are five ways through the words, and the loop over one stands inside that over the next: it is written once, over numbers alone.
ghost use Rattle.std.specs.Prelude.{◌≡◌, ◌*◌, ◌^◌, ◌<◌, ◌≤◌, List, [], ◌∷◌};
ghost use Rattle.residue.specs.Number.{Added};
ghost use Rattle.residue.specs.Word.{at};
ghost use Rattle.tower.specs.Writing.{size};
ghost use Rattle.arithmetic.specs.Walk.{Readable, Places, PairsReady, dot_at, run_at, DotReady};
ghost use Rattle.arithmetic.specs.Box.{box_at, volume, BoxReady, window_at, five_ways};

use super::places::{first_of, place_at, span_of};
use residue::{Accumulator, fold, get_residue};
use tower::sizes::{degree_at, size_at};

// The product of the words at two places.
// Stays: two lists and their places side by side, here and below, since each loop moves both places on; a struct of them would be made anew at each pair.
pub fn product_at(x: &[i64], a: usize, y: &[i64], b: usize) -> u64
    requires { Readable x.now a × Readable y.now b }
    ensures { result ≡ at x.now a * at y.now b }
{
    get_residue(x, a) * get_residue(y, b)
}

// A way through two lists: how many pairs there are, upwards in the one and downwards in the other, and how many words apart they stand.
#[derive(Clone, Copy)]
pub struct Way {
    pub count: usize,
    pub step: usize,
}

// The pairs of a box of ways, the outermost first.
pub trait Walk: Copy {
    ghost use Rattle.arithmetic.specs.declared.walk.Way.{Way};

    ghost ways: { Self → List Way };

    // Adds the products of the pairs: upwards from a in x, downwards to b in y.
    fn add(self, x: &[i64], a: usize, y: &[i64], b: usize, s: Accumulator) -> Accumulator
        requires { BoxReady x.now a y.now b (ways self) s.lo s.hi }
        ensures { Added (volume (ways self)) (box_at x.now y.now (ways self) a b) s.lo s.hi result.lo result.hi };
}

// One pair: a box of no way.
#[derive(Clone, Copy)]
pub struct Pair;

impl Walk for Pair {
    ghost ways = { λ v. [] };

    fn add(self, x: &[i64], a: usize, y: &[i64], b: usize, s: Accumulator) -> Accumulator {
        fold(s, product_at(x, a, y, b))
    }
}

// A way, and the walk at each of its places.
#[derive(Clone, Copy)]
pub struct Nested<W>(pub Way, pub W);

impl<W: Walk> Walk for Nested<W> {
    ghost ways = { λ v. v.0 ∷ W.ways v.1 };

    // Inlined, since a loop over neighbours is faster where its step is known to be 1.
    #[inline]
    fn add(self, x: &[i64], a: usize, y: &[i64], b: usize, s: Accumulator) -> Accumulator {
        let Nested(Way { count, step }, inner) = self;
        let mut r = s;
        for k in 0..count {
            r = inner.add(x, a + k * step, y, b + (count - 1 - k) * step, r);
        }
        r
    }
}

// Adds the products of n pairs of residues, `step` words apart: upwards from a in x, downwards to b in y.
pub fn dot(
    x: &[i64],
    a: usize,
    y: &[i64],
    b: usize,
    n: usize,
    step: usize,
    s: Accumulator,
) -> Accumulator
    requires { DotReady x.now a y.now b n step s.lo s.hi }
    ensures { Added n (dot_at x.now y.now n step a b) s.lo s.hi result.lo result.hi }
{
    // a box has some pair
    if n == 0 {
        return s;
    }
    Nested(Way { count: n, step }, Pair).add(x, a, y, b, s)
}

// The window of a level: where its first coefficients stand, and the way through the pairs that meet.
#[derive(Clone, Copy)]
pub struct Window {
    pub at: usize,
    pub way: Way,
}

// That of level l + 1 in elements of level i; a level that is not below i has one pair, at 0.
// Stays: degrees and sizes as two arrays by value, here and in `sum_pairs`, as document 01 has them.
pub fn window_at(i: usize, l: usize, d: [usize; 4], z: [usize; 5], m: [usize; 4]) -> Window
    requires { (l < 4) × Places d z m i × (size d i ≤ 2 ^ 32) }
    ensures { result ≡ window_at d m i l }
{
    if i <= l {
        return Window {
            at: 0,
            way: Way { count: 1, step: 0 },
        };
    }
    let g = degree_at(d, l);
    let u = size_at(z, l);
    let k = place_at(m, l);
    let f = first_of(g, k);
    let c = span_of(g, g, k);
    Window {
        at: 1 + f * u,
        way: Way { count: c, step: u },
    }
}

// The sum over the pairs of a run, three windows and c residues; the longest of the three lowest ways is the innermost loop.
pub fn box_sum(
    x: &[i64],
    a: usize,
    y: &[i64],
    b: usize,
    run: Way,
    h: Way,
    t: Way,
    l: Way,
    c: usize,
) -> Accumulator
    requires { BoxReady x.now a y.now b (five_ways run h t l c) 0 0 }
    ensures { Added (volume (five_ways run h t l c)) (box_at x.now y.now (five_ways run h t l c) a b) 0 0 result.lo result.hi }
{
    let s = Accumulator::ZERO;
    let g = Way { count: c, step: 1 };
    if run.count < c && l.count < c {
        Nested(h, Nested(t, Nested(run, Nested(l, Nested(g, Pair))))).add(x, a, y, b, s)
    } else if run.count < l.count {
        Nested(h, Nested(t, Nested(run, Nested(g, Nested(l, Pair))))).add(x, a, y, b, s)
    } else {
        Nested(h, Nested(t, Nested(l, Nested(g, Nested(run, Pair))))).add(x, a, y, b, s)
    }
}

// What n pairs of elements of level i come to at the places m: upwards from a in x and downwards to b in y.
pub fn sum_pairs(
    i: usize,
    d: [usize; 4],
    z: [usize; 5],
    m: [usize; 4],
    x: &[i64],
    a: usize,
    y: &[i64],
    b: usize,
    n: usize,
) -> Accumulator
    requires { PairsReady d z m i x.now a y.now b n }
    ensures { Added (n * size d i) (run_at d m x.now y.now i n (size d i) a b) 0 0 result.lo result.hi }
{
    if n == 0 {
        return Accumulator::ZERO;
    }
    let run = Way {
        count: n,
        step: size_at(z, i),
    };
    let h = window_at(i, 3, d, z, m);
    let t = window_at(i, 2, d, z, m);
    let l = window_at(i, 1, d, z, m);
    let g = window_at(i, 0, d, z, m);
    let f = h.at + t.at + l.at + g.at;
    box_sum(x, a + f, y, b + f, run, h.way, t.way, l.way, g.way.count)
}
