// The extended Euclid on p and a number, in rows of quotient, remainder and multiplier.
//
// For p = 7 and c = 3 the rows of remainder and multiplier are 7, 0 and 3, +1; with quotient 2: 1, -2; with quotient 3: 0, +7. The last
// remainder that is not 0 is 1, with multiplier -2, so the inverse is 7 - 2 = 5.
ghost use Rattle.std.specs.Prelude.{◌≡◌, ◌/◌, ◌<◌};
ghost use Rattle.residue.specs.Number.{Operand, Inverted};

use crate::Shared;

// The whole quotient of two numbers.
pub fn quotient(a: u64, b: u64) -> u64
    requires { 0 < b }
    ensures { result ≡ a / b }
{
    a / b
}

// The inverse of c modulo p, or the greatest common divisor of the two where that is above 1.
pub fn inverse(c: u64, p: u64) -> Result<u64, Shared>
    requires { (1 < p) × Operand p c }
    ensures { Inverted p c result }
{
    // Stays: a while, as the rows count no index; the remainder ends them.
    // The multipliers' signs alternate, so only their magnitudes are kept: m1 counts plus and m0 minus, or the other way round.
    let mut plus = true;
    let mut r0 = p;
    let mut r1 = c;
    let mut m0: u64 = 0;
    let mut m1: u64 = 1;
    while 0 < r1 {
        let q = quotient(r0, r1);
        (r0, r1) = (r1, r0 - q * r1);
        (m0, m1) = (m1, m0 + q * m1);
        plus = !plus;
    }
    if 1 < r0 {
        return Err(Shared { divisor: r0 });
    }
    Ok(if plus { p - m0 } else { m0 })
}
