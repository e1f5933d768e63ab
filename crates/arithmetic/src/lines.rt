// Sums over pairs of elements of level 1, in numbers alone: what `sum_pairs` gives at that level, without the arrays of a tower. An element of g coefficients has
// g + 1 words.
ghost use Rattle.std.specs.Prelude.{◌≡◌, suc, ◌+◌, ◌*◌, ◌<◌};
ghost use Rattle.residue.specs.Number.{Added};
ghost use Rattle.arithmetic.specs.Line.{line_at, LineReady, PlaceReached, AllSums, TileReady, TileSums};

use super::places::{first_of, span_of};
use super::walk::{Nested, Pair, Walk, Way, product_at};
use residue::{Accumulator, fold};

// What n pairs of elements of level 1 come to at the place k: upwards from a in x, downwards to b in y.
pub fn line(g: usize, k: usize, x: &[i64], a: usize, y: &[i64], b: usize, n: usize) -> Accumulator
    requires { PlaceReached g k × LineReady g x.now a y.now b n }
    ensures { Added (n * suc g) (line_at x.now y.now g k n a b) 0 0 result.lo result.hi }
{
    if n == 0 {
        return Accumulator::ZERO;
    }
    let f = first_of(g, k);
    let c = span_of(g, g, k);
    let run = Way {
        count: n,
        step: g + 1,
    };
    let row = Way { count: c, step: 1 };
    let xa = a + 1 + f;
    let yb = b + 1 + f;
    if n < c {
        Nested(run, Nested(row, Pair)).add(x, xa, y, yb, Accumulator::ZERO)
    } else {
        Nested(row, Nested(run, Pair)).add(x, xa, y, yb, Accumulator::ZERO)
    }
}

// Adds to three sums what n pairs of two residues come to, `step` words apart: at the places 0, 1 and 2 of the product of two by two.
pub fn tile(
    x: &[i64],
    a: usize,
    y: &[i64],
    b: usize,
    n: usize,
    step: usize,
    t: [Accumulator; 3],
) -> [Accumulator; 3]
    requires { TileReady x.now a y.now b n step t }
    ensures { TileSums x.now y.now n step a b t result }
{
    let [mut low, mut middle, mut high] = t;
    for k in 0..n {
        let u = a + k * step;
        let v = b + (n - 1 - k) * step;
        low = fold(low, product_at(x, u, y, v));
        middle = fold(middle, product_at(x, u, y, v + 1));
        middle = fold(middle, product_at(x, u + 1, y, v));
        high = fold(high, product_at(x, u + 1, y, v + 1));
    }
    [low, middle, high]
}

// The sums of the three places where elements of two coefficients meet: one tile.
pub fn three(x: &[i64], a: usize, y: &[i64], b: usize, n: usize) -> [Accumulator; 3]
    requires { LineReady 2 x.now a y.now b n }
    ensures { AllSums 2 x.now y.now n a b result }
{
    if n == 0 {
        return [Accumulator::ZERO; 3];
    }
    tile(x, a + 1, y, b + 1, n, 3, [Accumulator::ZERO; 3])
}

// The sums of the seven places where elements of four coefficients meet, by four tiles: the lower halves, each half with the other, the upper halves; where
// tiles meet at a place, the one goes on with the other's sum.
pub fn seven(x: &[i64], a: usize, y: &[i64], b: usize, n: usize) -> [Accumulator; 7]
    requires { LineReady 4 x.now a y.now b n }
    ensures { AllSums 4 x.now y.now n a b result }
{
    let none = Accumulator::ZERO;
    if n == 0 {
        return [none; 7];
    }
    let [s0, s1, lower] = tile(x, a + 1, y, b + 1, n, 5, [none; 3]);
    let half = tile(x, a + 1, y, b + 3, n, 5, [lower, none, none]);
    let [s2, s3, upper] = tile(x, a + 3, y, b + 1, n, 5, half);
    let [s4, s5, s6] = tile(x, a + 3, y, b + 3, n, 5, [upper, none, none]);
    [s0, s1, s2, s3, s4, s5, s6]
}
