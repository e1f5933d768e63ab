// The work sizes M, I and the GCD's number, by the recurrences of document 01.
ghost use Rattle.std.specs.Prelude.{◌≡◌, ◌+◌, ◌*◌, ◌^◌, ◌<◌, ◌≤◌};
ghost use Rattle.tower.specs.Work.{product_work, inverse_work};
ghost use Rattle.tower.specs.Ready.{Degrees};

use super::sizes::{over_levels, room};

// M(n).
pub fn product_work(n: usize, d: [usize; 4]) -> usize
    requires { Degrees n d }
    ensures { result ≡ product_work d n }
{
    over_levels(n, d, |g, s| 2 * room(2 * g - 2 + 1, s))
}

// I(n).
pub fn inverse_work(n: usize, d: [usize; 4]) -> usize
    requires { Degrees n d }
    ensures { (result ≡ inverse_work d n) × (result ≤ 2 ^ 60) }
{
    over_levels(n, d, |g, s| 5 * room(g + 1, s))
}

// The GCD's number, for a and b of ca and cb coefficients of s words and an inverse that needs i words.
pub fn gcd_work(ca: usize, cb: usize, s: usize, i: usize) -> usize
    requires { ((ca ≤ 256) × (cb ≤ 256)) × ((s < 2 ^ 40) × (i ≤ 2 ^ 60)) }
    ensures { result ≡ ca * s + 1 + (cb * s + 1) + 2 * s + i }
{
    let a = room(ca, s);
    let b = room(cb, s);
    a + b + 2 * s + i
}
