// The form of words: elements, slots and towers, in time linear in the words.
ghost use Rattle.std.specs.Prelude.{◌≡◌, ◌+◌, ◌*◌, ◌^◌, ◌<◌, pos, length, get_or, drop};
ghost use Rattle.tower.specs.Writing.{size};
ghost use Rattle.tower.specs.Form.{seg, eq_z, residue_ok, degree_ok, is_in_form, slot_form, tower_form};
ghost use Rattle.tower.specs.Heads.{place_ok, one_head};
ghost use Rattle.tower.specs.Ready.{Element, Row, Whole};

use super::sizes::{degree_at, size_at};
use super::store::is_zero;
use super::words::{count, count_at};

// The word at a place is from 0 to p - 1.
// Stays: `as`, behind the test that the word is not negative; `try_from` would test it again at every word of a tower.
pub fn residue(x: &[i64], a: usize, p: u64) -> bool
    requires { a < length x.now }
    ensures { result ≡ residue_ok p (get_or x.now a (pos 0)) }
{
    let g = x[a];
    0 <= g && (g as u64) < p
}

// The word at a place is a degree from -1 to n - 1.
pub fn degree_ok(x: &[i64], a: usize, n: usize) -> bool
    requires { a < length x.now }
    ensures { result ≡ degree_ok n (get_or x.now a (pos 0)) }
{
    let g = x[a];
    -1 <= g && count(g) <= n
}

// The k-th coefficient fits a degree word that counts c: the last of them is not zero, those behind it are.
pub fn fits_degree(c: usize, k: usize, zero: bool) -> bool
    requires { k + 1 < 2 ^ 64 }
    ensures { result ≡ place_ok c k zero }
{
    if k + 1 == c { !zero } else { k < c || zero }
}

// Where the k-th coefficient of s words stands behind the degree word at a.
pub fn coefficient_at(a: usize, k: usize, s: usize) -> usize
    requires { a + 1 + k * s < 2 ^ 64 }
    ensures { result ≡ a + 1 + k * s }
{
    a + 1 + k * s
}

// The words from a on are an element of level i in form.
#[cycle(element_row)]
pub fn element(i: usize, d: [usize; 4], z: [usize; 5], p: u64, x: &[i64], a: usize) -> bool
    requires { Element i d z x.now a }
    ensures { result ≡ is_in_form p d i (seg a (size d i) x.now) }
{
    if i == 0 {
        residue(x, a, p)
    } else {
        row(i - 1, degree_at(d, i - 1), d, z, p, x, a)
    }
}

// The words from a on are a degree word and n coefficients of level i, in form.
#[cycle(element_row)]
pub fn row(i: usize, n: usize, d: [usize; 4], z: [usize; 5], p: u64, x: &[i64], a: usize) -> bool
    requires { Row i n d z x.now a }
    ensures { result ≡ slot_form p d i n (seg a (n * size d i + 1) x.now) }
{
    if !degree_ok(x, a, n) {
        return false;
    }
    let c = count_at(x, a);
    let s = size_at(z, i);
    for k in 0..n {
        let b = coefficient_at(a, k, s);
        if !element(i, d, z, p, x, b) {
            return false;
        }
        if !fits_degree(c, k, is_zero(i, x, b)) {
            return false;
        }
    }
    true
}

// The word at a place is the degree n.
pub fn degree_is(x: &[i64], a: usize, n: usize) -> bool
    requires { (a < length x.now) × (n < 2 ^ 63) }
    ensures { result ≡ eq_z (get_or x.now a (pos 0)) (pos n) }
{
    count_at(x, a) == n + 1
}

// An element of level i in form is 1 precisely when it begins so: degree 0 all the way down to the residue 1.
pub fn one_at(i: usize, x: &[i64], a: usize) -> bool
    requires { a + i < length x.now }
    ensures { result ≡ one_head i (drop a x.now) }
{
    if i == 0 {
        x[a] == 1
    } else {
        x[a] == 0 && one_at(i - 1, x, a + 1)
    }
}

// The words are those of a tower: for each level from the highest, its degree word, d_i + 1 coefficients in form, the last of them 1.
pub fn tower(n: usize, d: [usize; 4], z: [usize; 5], p: u64, t: &[i64]) -> bool
    requires { Whole n d z t.now }
    ensures { result ≡ tower_form p d n t.now }
{
    // Stays: `ok` and the label, as document 01 binds that the check leaves the outer loop by a label at the first bad word.
    let mut ok = true;
    let mut a: usize = 0;
    'levels: for i in (0..n).rev() {
        let m = degree_at(d, i);
        let s = size_at(z, i);
        if !degree_is(t, a, m) {
            ok = false;
            break 'levels;
        }
        for k in 0..m + 1 {
            if !element(i, d, z, p, t, coefficient_at(a, k, s)) {
                ok = false;
                break 'levels;
            }
        }
        if !one_at(i, t, coefficient_at(a, m, s)) {
            ok = false;
            break 'levels;
        }
        a = coefficient_at(a, m + 1, s);
    }
    ok
}
