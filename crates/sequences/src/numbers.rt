// Rows of numbers in the store: level 0 of `rows`, in loops without the arrays of a tower.
//
// Stays: these loops beside those of `rows`, and those for two numbers beside those for any. Measured without them, a GCD of degree 4 took 19 per cent longer
// over d = 2 and 41 over d = 16, and missed the bar of bench/README.md (docs/DECISIONS.md, "Level 0 has loops of its own").
ghost use Rattle.std.specs.Prelude.{◌+◌, ◌≡◌, pos, set};
ghost use Rattle.sequences.specs.Numbers.{TimesNumbersReady, times_number, LoseDotReady, lost_number, LoseRowReady, LoseRowDone, DivideAtReady, DividedAt};
ghost use Rattle.sequences.specs.Numbers.{ScaleNumbersReady, ScaleNumbersDone, LoseNumbersReady, LoseNumbersDone, DivideNumbersReady, DivideNumbersDone};

use arithmetic::places::{first_of, span_of};
use arithmetic::walk::dot;
use residue::Accumulator;

// The number at c becomes the one at a times the one at b.
pub fn times_numbers(p: u64, a: usize, b: usize, w: &mut [i64], c: usize)
    requires { TimesNumbersReady p a b w.old c }
    ensures { w.new ≡ set w.old c (pos (times_number p a b w.old)) }
{
    let u = residue::get_residue(w, a);
    let v = residue::get_residue(w, b);
    residue::put(w, c, residue::multiply(u, v, p));
}

// The number at c loses the products of n numbers: from a on upwards, from b on downwards.
pub fn lose_dot(p: u64, a: usize, b: usize, n: usize, w: &mut [i64], c: usize)
    requires { LoseDotReady p a b n w.old c }
    ensures { w.new ≡ set w.old c (pos (lost_number p a b n w.old c)) }
{
    let v = residue::reduce(dot(w, a, w, b, n, 1, Accumulator::ZERO), p);
    let u = residue::get_residue(w, c);
    residue::put(w, c, residue::subtract(u, v, p));
}

// Each of the n numbers from c on is multiplied by the one at u.
pub fn scale_numbers(n: usize, p: u64, u: usize, w: &mut [i64], c: usize)
    requires { ScaleNumbersReady n p u w.old c }
    ensures { ScaleNumbersDone n p u w.old w.new c }
{
    for k in 0..n {
        times_numbers(p, u, c + k, w, c + k);
    }
}

// The n numbers from c on lose q times those from b + 1 on and r times those from b on.
pub fn lose_row(p: u64, q: u64, r: u64, b: usize, n: usize, w: &mut [i64], c: usize)
    requires { LoseRowReady p q r b n w.old c }
    ensures { LoseRowDone p q r b n w.old w.new c }
{
    for k in 0..n {
        let t = residue::fold(Accumulator::ZERO, q * residue::get_residue(w, b + 1 + k));
        let v = residue::reduce(residue::fold(t, r * residue::get_residue(w, b + k)), p);
        let u = residue::get_residue(w, c + k);
        residue::put(w, c + k, residue::subtract(u, v, p));
    }
}

// `lose_numbers` for the two numbers at a.
pub fn lose_line(p: u64, a: usize, b: usize, n: usize, w: &mut [i64], c: usize)
    requires { LoseNumbersReady p a 2 b n w.old c }
    ensures { LoseNumbersDone p a 2 b n w.old w.new c }
{
    lose_dot(p, a, b, 1, w, c);
    let q = residue::get_residue(w, a);
    let r = residue::get_residue(w, a + 1);
    lose_row(p, q, r, b, n - 1, w, c + 1);
    lose_dot(p, a + 1, b + (n - 1), 1, w, c + n);
}

// The m + n - 1 numbers from c on lose the product of the m from a on and the n from b on.
pub fn lose_numbers(p: u64, a: usize, m: usize, b: usize, n: usize, w: &mut [i64], c: usize)
    requires { LoseNumbersReady p a m b n w.old c }
    ensures { LoseNumbersDone p a m b n w.old w.new c }
{
    if m == 2 {
        lose_line(p, a, b, n, w, c);
        return;
    }
    for k in 0..m + n - 1 {
        lose_dot(
            p,
            a + first_of(n, k),
            b + first_of(m, k),
            span_of(m, n, k),
            w,
            c + k,
        );
    }
}

// The k-th number of such a division: what those above it leave of it, times the inverse from g on.
pub fn divide_at(
    k: usize,
    p: u64,
    b: usize,
    g: usize,
    u: usize,
    w: &mut [i64],
    a: usize,
    cap: usize,
)
    requires { DivideAtReady k p b g u w.old a cap }
    ensures { DividedAt k p b g u w.old w.new a cap }
{
    lose_dot(
        p,
        b + first_of(cap - g, k),
        a + g + first_of(g, k),
        span_of(g, cap - g, k),
        w,
        a + k,
    );
    if k < g {
        return;
    }
    times_numbers(p, u, a + k, w, a + k);
}

// `divide_numbers` for a quotient of two numbers.
pub fn divide_line(p: u64, b: usize, g: usize, u: usize, w: &mut [i64], a: usize)
    requires { DivideNumbersReady p b g u w.old a (g + 2) }
    ensures { DivideNumbersDone p b g u w.old w.new a (g + 2) }
{
    divide_at(g + 1, p, b, g, u, w, a, g + 2);
    divide_at(g, p, b, g, u, w, a, g + 2);
    if g == 0 {
        return;
    }
    let q = residue::get_residue(w, a + g);
    let r = residue::get_residue(w, a + g + 1);
    lose_row(p, q, r, b, g - 1, w, a + 1);
    divide_at(0, p, b, g, u, w, a, g + 2);
}

// Divides the cap numbers from a on in place, as `rows::divide_row` says.
pub fn divide_numbers(p: u64, b: usize, g: usize, u: usize, w: &mut [i64], a: usize, cap: usize)
    requires { DivideNumbersReady p b g u w.old a cap }
    ensures { DivideNumbersDone p b g u w.old w.new a cap }
{
    if cap == g + 2 {
        divide_line(p, b, g, u, w, a);
        return;
    }
    for k in (0..cap).rev() {
        divide_at(k, p, b, g, u, w, a, cap);
    }
}
