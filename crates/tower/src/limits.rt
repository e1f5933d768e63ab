// Document 01's limits on p, N, the degrees, the length of a slot and the degrees that the work sizes take.
ghost use Rattle.std.specs.Prelude.{◌≡◌, ◌<◌};
ghost use Rattle.tower.specs.Limits.{p_ok, levels_ok, degree_in, degrees_ok, slot_length, work_degree};

// p is from 2 to 2,147,483,647.
pub fn p_ok(p: i64) -> bool
    ensures { result ≡ p_ok p }
{
    (2..=2147483647).contains(&p)
}

// N is from 0 to 4.
pub fn levels_ok(n: i64) -> bool
    ensures { result ≡ levels_ok n }
{
    (0..=4).contains(&n)
}

// The degree of a level in use is from 2 to 64, every other is 0.
pub fn degree_in(below: bool, g: i64) -> bool
    ensures { result ≡ degree_in below g }
{
    if below { (2..=64).contains(&g) } else { g == 0 }
}

// The four degrees are those of n levels.
pub fn degrees_ok(n: usize, e: [i64; 4]) -> bool
    ensures { result ≡ degrees_ok n e }
{
    e.iter().enumerate().all(|(k, g)| degree_in(k < n, *g))
}

// A slot of l words has from 1 to 256 coefficients of s words behind its degree word, and no more than 65,536 words.
pub fn slot_length(s: usize, l: usize) -> bool
    requires { 0 < s }
    ensures { result ≡ slot_length s l }
{
    l != 0 && (l - 1) % s == 0 && (1..=256).contains(&((l - 1) / s)) && l <= 65536
}

// A degree that the work sizes take: from -1 to 255.
pub fn work_degree(g: i64) -> bool
    ensures { result ≡ work_degree g }
{
    (-1..=255).contains(&g)
}
