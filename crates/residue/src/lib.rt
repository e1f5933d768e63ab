// Code on one number or one word modulo p, for every p below 2^32: residues, a sum of products in two words, signed words as numbers and as
// residues. The inverse is in `rows`.
//
// Its contracts cite `specs/Number.antt` and `specs/Word.antt`.
#![tactic(auto)]

pub mod rows;

ghost use Rattle.std.specs.Prelude.{◌≡◌, ◌+◌, ◌-◌, ◌*◌, ◌%◌, ◌^◌, ◌<◌, pos, nat_abs, length, get_or, set};
ghost use Rattle.residue.specs.Number.{Modulus, Operands, Below, sum_of, Room, Added};
ghost use Rattle.residue.specs.Word.{num, at, Narrow, mod_z};

// Why a number has no inverse: the greatest common divisor of it and the modulus, which is above 1.
#[derive(Clone, Copy, PartialEq, Eq)]
pub struct Shared {
    pub divisor: u64,
}

// The sum of two residues.
pub fn add(a: u64, b: u64, p: u64) -> u64
    requires { Operands p a b }
    ensures { Below p ((a + b) % p) result }
{
    let s = a + b;
    if s < p { s } else { s - p }
}

// The difference of two residues.
pub fn subtract(a: u64, b: u64, p: u64) -> u64
    requires { Operands p a b }
    ensures { Below p ((a + (p - b)) % p) result }
{
    if a < b { a + (p - b) } else { a - b }
}

// The product of two residues.
pub fn multiply(a: u64, b: u64, p: u64) -> u64
    requires { Operands p a b }
    ensures { Below p ((a * b) % p) result }
{
    (a * b) % p
}

// A sum of products: two words for the value lo + hi · 2^32.
#[derive(Clone, Copy)]
pub struct Accumulator {
    pub lo: u64,
    pub hi: u64,
}

impl Accumulator {
    // Nothing added yet.
    pub const ZERO: Accumulator = Accumulator { lo: 0, hi: 0 };
}

// The accumulator with v added. The halves of v go to one word each, so nothing is compared and nothing wraps.
pub fn fold(s: Accumulator, v: u64) -> Accumulator
    requires { Room 1 s.lo s.hi }
    ensures { Added 1 v s.lo s.hi result.lo result.hi }
{
    Accumulator {
        lo: s.lo + v % 4294967296,
        hi: s.hi + v / 4294967296,
    }
}

// What an accumulator holds, modulo p. A sum below 2^64 takes one division instead of two.
pub fn reduce(s: Accumulator, p: u64) -> u64
    requires { Modulus p × Room 1 s.lo s.hi }
    ensures { Below p (sum_of s.lo s.hi % p) result }
{
    let h = s.hi + s.lo / 4294967296;
    let l = s.lo % 4294967296;
    if h < 4294967296 {
        return (h * 4294967296 + l) % p;
    }
    (h % p * 4294967296 + l) % p
}

// How far n is from 0.
pub fn magnitude(n: i64) -> u64
    ensures { result ≡ nat_abs n }
{
    n.unsigned_abs()
}

// The residue of n modulo p.
// Stays: `as`, here and below, where the clauses say that the value fits; `try_from` has a branch that is never taken.
pub fn residue_of(n: i64, p: u64) -> u64
    requires { Modulus p }
    ensures { Below p (mod_z n p) result }
{
    n.rem_euclid(p as i64) as u64
}

// The number that a word holds: 0 for a negative one.
pub fn number(w: i64) -> u64
    ensures { result ≡ num w }
{
    u64::try_from(w).unwrap_or(0)
}

// The word that holds n.
pub fn word(n: u64) -> i64
    requires { n < 2 ^ 63 }
    ensures { result ≡ pos n }
{
    n as i64
}

// The number at an index where the caller knows that it is below 2^32: no test of the sign.
pub fn get_residue(x: &[i64], i: usize) -> u64
    requires { (i < length x.now) × Narrow (get_or x.now i (pos 0)) }
    ensures { result ≡ at x.now i }
{
    (x[i] as u32) as u64
}

// Writes n at an index.
pub fn put(w: &mut [i64], i: usize, n: u64)
    requires { (i < length w.old) × (n < 2 ^ 63) }
    ensures { w.new ≡ set w.old i (pos n) }
{
    w[i] = word(n);
}
