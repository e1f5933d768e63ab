// The residue of a fraction modulo p; a denominator that is not positive, or that shares a divisor above 1 with p, is refused.
ghost use Rattle.std.specs.Prelude.{◌≡◌, ◌<◌, ◌^◌};
ghost use Rattle.kernel.specs.Fractions.{Quotient, fraction_of};
ghost use Rattle.kernel.specs.Promises.{FractionGiven};

use super::refusals::Refusal;
use tower::limits::p_ok;

// n times the inverse of e modulo p. Refuses 10.
pub fn quotient(n: i64, e: u64, p: u64) -> Result<u64, Refusal>
    requires { (1 < p) × (p < 2 ^ 32) }
    ensures { Quotient n e p result }
{
    match residue::rows::inverse(e % p, p) {
        Ok(u) => Ok(residue::multiply(residue::residue_of(n, p), u, p)),
        Err(_) => Err(Refusal::NoResidue),
    }
}

// The residue of n/e modulo p. Refuses 1 and 10.
pub fn fraction(p: i64, n: i64, e: i64) -> Result<u64, Refusal>
    ensures { FractionGiven p n e (fraction_of result) }
{
    if !p_ok(p) {
        return Err(Refusal::BadModulus);
    }
    if e <= 0 {
        return Err(Refusal::NoResidue);
    }
    quotient(n, residue::number(e), residue::number(p))
}
