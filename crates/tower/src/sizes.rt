// The degrees of a tower, the sizes S_0 to S_4 of its elements, and what its levels need together.
ghost use Rattle.std.specs.Prelude.{◌≡◌, ℕ, ◌+◌, ◌*◌, ◌^◌, ◌<◌, ◌≤◌, get_or};
ghost use Rattle.tower.specs.Work.{AddsUp};
ghost use Rattle.tower.specs.Writing.{size, tower_size};
ghost use Rattle.tower.specs.Limits.{degrees_of};
ghost use Rattle.tower.specs.Ready.{Sized, Small, Levels};

use super::words::nat;

// The four degrees as numbers.
pub fn degrees(e: [i64; 4]) -> [usize; 4]
    ensures { result ≡ degrees_of e }
{
    e.map(nat)
}

// The words of c coefficients of s words behind their degree word.
pub fn room(c: usize, s: usize) -> usize
    requires { (c ≤ 256) × (s < 2 ^ 40) }
    ensures { (result ≡ c * s + 1) × (result ≤ 256 * s + 1) }
{
    c * s + 1
}

// S_0 to S_4.
pub fn sizes(d: [usize; 4]) -> [usize; 5]
    requires { Small d }
    ensures { Sized d result }
{
    let a = room(d[0], 1);
    let b = room(d[1], a);
    let c = room(d[2], b);
    let e = room(d[3], c);
    [1, a, b, c, e]
}

// S_i.
pub fn size_at(z: [usize; 5], i: usize) -> usize
    requires { i < 5 }
    ensures { result ≡ get_or z i 0 }
{
    z[i]
}

// The degree of level i + 1.
pub fn degree_at(d: [usize; 4], i: usize) -> usize
    requires { i < 4 }
    ensures { result ≡ get_or d i 0 }
{
    d[i]
}

// What `words` gives for the degree of a level and the size of the elements below it, added up over n levels.
pub fn over_levels<F: Fn(usize, usize) -> usize>(n: usize, d: [usize; 4], words: F) -> usize
    requires levels { Levels n d }
    requires callable { (i : ℕ) → i < n → F.pre words (get_or d i 0) (size d i) }
    requires few { (i r : ℕ) → i < n → F.post words (get_or d i 0) (size d i) r → r ≤ 2 ^ 58 }
    ensures sum { (sum : ℕ → ℕ) → AddsUp (F.post words) d n sum → result ≡ sum n }
    ensures few { result ≤ n * 2 ^ 58 }
{
    let mut r: usize = 0;
    let mut s: usize = 1;
    for i in 0..n {
        let g = degree_at(d, i);
        r += words(g, s);
        s = room(g, s);
    }
    r
}

// The words of a tower: each level has its degree word and d_i + 1 coefficients.
pub fn tower_size(n: usize, d: [usize; 4]) -> usize
    requires { Levels n d }
    ensures { result ≡ tower_size d n }
{
    over_levels(n, d, |g, s| room(g + 1, s))
}
