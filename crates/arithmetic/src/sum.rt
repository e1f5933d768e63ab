// Sum and difference in place: what stands in the store gains, or loses, what stands in lent words.
ghost use Rattle.std.specs.Prelude.{◌≡◌};
ghost use Rattle.residue.specs.Number.{Operands, Below};
ghost use Rattle.arithmetic.specs.Sum.{gained_number, WordGained, Gained, RowGained, WordTerms, Terms, RowTerms};

use super::rows::settle;
use tower::form::coefficient_at;
use tower::sizes::{degree_at, size_at};
use tower::words::count_at;

// u + v, or u - v where neg.
// Stays: a bool and no closure, since WordGained, Gained and RowGained tell the two by it, and products works the sign out at each place.
pub fn gain(neg: bool, u: u64, v: u64, p: u64) -> u64
    requires { Operands p u v }
    ensures { Below p (gained_number neg p u v) result }
{
    if neg {
        residue::subtract(u, v, p)
    } else {
        residue::add(u, v, p)
    }
}

// The same of one word.
pub fn gain_word(neg: bool, p: u64, x: &[i64], a: usize, w: &mut [i64], at: usize)
    requires { WordTerms p x.now a at w.old }
    ensures { WordGained p neg x.now a at w.old w.new }
{
    let u = residue::get_residue(w, at);
    let v = residue::get_residue(x, a);
    residue::put(w, at, gain(neg, u, v, p));
}

// The same of an element of level i.
#[cycle(gain_element_gain_row)]
pub fn gain_element(
    i: usize,
    neg: bool,
    p: u64,
    d: [usize; 4],
    z: [usize; 5],
    x: &[i64],
    a: usize,
    w: &mut [i64],
    at: usize,
)
    requires { Terms p d z i x.now a at w.old }
    ensures { Gained p d i neg x.now a at w.old w.new }
{
    if i == 0 {
        gain_word(neg, p, x, a, w, at);
    } else {
        gain_row(i - 1, degree_at(d, i - 1), neg, p, d, z, x, a, w, at);
    }
}

// The same of a slot of n coefficients of level i: as many as the other's degree counts, and then the degree word.
#[cycle(gain_element_gain_row)]
pub fn gain_row(
    i: usize,
    n: usize,
    neg: bool,
    p: u64,
    d: [usize; 4],
    z: [usize; 5],
    x: &[i64],
    a: usize,
    w: &mut [i64],
    at: usize,
)
    requires { RowTerms p d z i n x.now a at w.old }
    ensures { RowGained p d i n neg x.now a at w.old w.new }
{
    let c = count_at(x, a);
    let s = size_at(z, i);
    for k in 0..c {
        gain_element(
            i,
            neg,
            p,
            d,
            z,
            x,
            coefficient_at(a, k, s),
            w,
            coefficient_at(at, k, s),
        );
    }
    settle(i, n, s, w, at);
}
