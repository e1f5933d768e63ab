// The small tools of the store, one list of words in which everything has its place: words put, cleared and copied, the zero and the one of a level
// written, the zero test. What writes says which words, and that all others are as before (`Put` of specs/Store.antt).
//
// Stays: words are told by their place in one lent list, since `Put`, which every promise above stands on, speaks of places in a whole list.
//
// The number of coefficients up to the highest that is not zero is `words::count_at`. What it and `is_zero` tell of an element: specs/Stands.antt.
ghost use Rattle.std.specs.Prelude.{◌≡◌, [], ◌∷◌, ◌+◌, ◌<◌, ◌≤◌, pos, length, get_or};
ghost use Rattle.tower.specs.Form.{eq_z, seg, copies, zero_words, one_words};
ghost use Rattle.tower.specs.Heads.{head_of};
ghost use Rattle.tower.specs.Ready.{Element, Positive, Run};
ghost use Rattle.tower.specs.Store.{Put, Apart};

use super::sizes::{degree_at, size_at};
use super::words::word_at;

// One word.
pub fn put_word(w: &mut [i64], at: usize, g: i64)
    requires { at < length w.old }
    ensures { Put at (g ∷ []) w.old w.new }
{
    w[at] = g;
}

// n words 0.
pub fn clear(w: &mut [i64], from: usize, n: usize)
    requires { from + n ≤ length w.old }
    ensures { Put from (copies n (pos 0 ∷ [])) w.old w.new }
{
    w[from..from + n].fill(0);
}

// n words from another place of the store.
pub fn copy(w: &mut [i64], to: usize, from: usize, n: usize)
    requires { ((to + n ≤ length w.old) × (from + n ≤ length w.old)) × Apart to from n }
    ensures { Put to (seg from n w.old) w.old w.new }
{
    w.copy_within(from..from + n, to);
}

// n words from a lent list.
//
// A loop: `copy_from_slice` is compiled to a call of memmove, and the library for C asks for no more than memset.
pub fn copy_in(x: &[i64], from: usize, w: &mut [i64], to: usize, n: usize)
    requires { (from + n ≤ length x.now) × (to + n ≤ length w.old) }
    ensures { Put to (seg from n x.now) w.old w.new }
{
    for k in 0..n {
        put_word(w, to + k, word_at(x, from + k));
    }
}

// The zero of level i: a degree word -1, and zeros of the level below.
#[cycle(zero_zeros)]
pub fn zero(i: usize, d: [usize; 4], z: [usize; 5], w: &mut [i64], at: usize)
    requires { Element i d z w.old at }
    ensures { Put at (zero_words d i) w.old w.new }
{
    if i == 0 {
        put_word(w, at, 0);
        return;
    }
    put_word(w, at, -1);
    zeros(i - 1, degree_at(d, i - 1), d, z, w, at + 1);
}

// n zeros of level i.
#[cycle(zero_zeros)]
pub fn zeros(i: usize, n: usize, d: [usize; 4], z: [usize; 5], w: &mut [i64], at: usize)
    requires { Run i n d z w.old at }
    ensures { Put at (copies n (zero_words d i)) w.old w.new }
{
    let s = size_at(z, i);
    for k in 0..n {
        zero(i, d, z, w, at + k * s);
    }
}

// The one of level i: a degree word 0, the one of the level below, and zeros.
pub fn one(i: usize, d: [usize; 4], z: [usize; 5], w: &mut [i64], at: usize)
    requires { Element i d z w.old at × Positive i d }
    ensures { Put at (one_words d i) w.old w.new }
{
    if i == 0 {
        put_word(w, at, 1);
        return;
    }
    let n = degree_at(d, i - 1);
    let s = size_at(z, i - 1);
    put_word(w, at, 0);
    one(i - 1, d, z, w, at + 1);
    zeros(i - 1, n - 1, d, z, w, at + 1 + s);
}

// The zero test of an element of level i, by its first word: 0, or above level 0 a degree word -1.
pub fn is_zero(i: usize, w: &[i64], at: usize) -> bool
    requires { at < length w.now }
    ensures { result ≡ eq_z (get_or w.now at (pos 0)) (head_of i) }
{
    w[at] == if i == 0 { 0 } else { -1 }
}
