// Coefficients one after the other and the degree word before them.
ghost use Rattle.std.specs.Prelude.{◌≡◌, ◌+◌, ◌*◌, ◌^◌, ◌<◌, ◌≤◌, [], ◌∷◌, length};
ghost use Rattle.tower.specs.Writing.{degree_word};
ghost use Rattle.tower.specs.Store.{Put};
ghost use Rattle.arithmetic.specs.Rows.{Top, Settled};

use tower::form::coefficient_at;
use tower::store::{is_zero, put_word};

// A degree word for c coefficients up to the highest.
// Stays: `as`, where the clause says that c fits.
pub fn put_degree(w: &mut [i64], at: usize, c: usize)
    requires { (at < length w.old) × (c < 2 ^ 63) }
    ensures { Put at (degree_word c ∷ []) w.old w.new }
{
    put_word(w, at, c as i64 - 1);
}

// The highest of the n elements of level i, each of s words, behind the degree word at a place, that is not zero, counted from 1; 0 where all are zero.
pub fn top_of(i: usize, n: usize, s: usize, w: &[i64], at: usize) -> usize
    requires { (1 ≤ s) × (at + 1 + n * s ≤ length w.now) }
    ensures { Top i n s w.now (at + 1) result × (result ≤ n) }
{
    for k in (0..n).rev() {
        if !is_zero(i, w, coefficient_at(at, k, s)) {
            return k + 1;
        }
    }
    0
}

// Writes the degree word of the n elements of level i behind it.
pub fn settle(i: usize, n: usize, s: usize, w: &mut [i64], at: usize)
    requires { (1 ≤ s) × (at + 1 + n * s ≤ length w.old) }
    ensures { Settled i n s at w.old w.new }
{
    let c = top_of(i, n, s, w, at);
    put_degree(w, at, c);
}
