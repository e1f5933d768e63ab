// The remainder sequences in one store: inverse of an element, GCD of two polynomials. No remainder is scaled: beside each polynomial stands the inverse of
// its leading coefficient, and the sequence's polynomial is the product of the two.
//
// Stays: degrees and sizes go as two arrays by value through every call, since document 01 has them so.
#![tactic(auto)]

ghost use Rattle.std.specs.Prelude.{◌≡◌, ◌+◌, ◌*◌, ◌^◌, ◌<◌};
ghost use Rattle.sequences.specs.Starts.{led_at};

pub mod gcd;
pub mod inverse;
pub mod numbers;
pub mod rows;
pub mod starts;

// Why a sequence gives no answer: it shows a factor of a level, whose words stand at a place; or more remainders were taken than are allowed.
#[derive(Clone, Copy, PartialEq, Eq)]
pub enum Stop {
    Factor { level: usize, at: usize },
    Long,
}

// A polynomial of a sequence: where its coefficients stand, what it carries, the inverse of its leading coefficient, and how many coefficients it has.
#[derive(Clone, Copy)]
pub struct Led {
    pub row: usize,
    pub carried: usize,
    pub unit: usize,
    pub count: usize,
}

impl Led {
    // A polynomial of n coefficients behind the first word of the slot at a; what it carries stands two slots on, and the inverse of its leading coefficient
    // at unit.
    pub fn in_slot(a: usize, slot: usize, unit: usize, n: usize) -> Led
        requires { a + 2 * slot + 1 < 2 ^ 64 }
        ensures { result ≡ led_at a slot unit n }
    {
        Led {
            row: a + 1,
            carried: a + 2 * slot + 1,
            unit,
            count: n,
        }
    }
}

// A GCD: where its coefficients stand, and how many they are.
#[derive(Clone, Copy, PartialEq, Eq)]
pub struct Greatest {
    pub at: usize,
    pub count: usize,
}
