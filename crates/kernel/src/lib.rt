// The public calls. None has a `requires`: what a call cannot do it refuses, by the first number of document 01's table that applies. What each gives is in
// specs/Calls.antt, Views.antt, Sums.antt, Products.antt, Divisions.antt, Inverses.antt and Gcds.antt, and the promises cite it by name (specs/Promises.antt).
// The modules are private: what stands in them is no call.
//
// Stays: each call takes p, N, the degrees and the tower's words one by one, as document 01 and the C interface have them.
#![tactic(auto)]

mod divisions;
mod fractions;
mod gcds;
mod inverses;
mod multiplication;
mod refusals;
mod shape;
mod slots;
mod stops;
mod sums;
mod towers;
mod views;

ghost use Rattle.kernel.specs.Promises.{TowerChecked, SlotChecked, SizesGiven, FractionGiven, LeadingShown, SumGiven, ProductGiven, DivisionGiven, InverseGiven, GcdGiven};
ghost use Rattle.std.specs.Prelude.{true, false};

use divisions::parted;
use fractions::fraction;
use gcds::found;
use inverses::inverted;
use multiplication::multiplied;
use refusals::answer;
use shape::work_checked;
use sums::gained;
use tower::words::count;
use tower::work::{gcd_work, inverse_work, product_work};
use towers::Tower;
use views::leading;

// Done, a shown factor with its level, or a refusal with its number.
// Stays: a refusal is a number here, since document 01 says "the answer enum carries the level or the refusal number".
#[derive(Clone, Copy)]
pub enum Answer {
    Done,
    Factor(usize),
    Refused(usize),
}

// The work sizes M(N), I(N) and the GCD's number; zeros beside a refusal.
// Stays: the clause `SizesGiven` and the theorem `sizes_determined` of specs/Promises.antt hold the answer beside the numbers, zeros when refused.
#[derive(Clone, Copy)]
pub struct WorkSizes {
    pub answer: Answer,
    pub product: usize,
    pub inverse: usize,
    pub gcd: usize,
}

// The residue of a fraction; 0 beside a refusal.
// Stays: the clause `FractionGiven` and the theorem `fraction_determined` of specs/Promises.antt hold the answer beside the residue, 0 when refused.
#[derive(Clone, Copy)]
pub struct FractionResidue {
    pub answer: Answer,
    pub residue: u64,
}

// Check of a tower: whether p, N, the degrees and the words are those of a tower. Refuses 1 to 3. Writes nothing.
pub fn check_tower(p: i64, n: i64, e: [i64; 4], t: &[i64]) -> Answer
    ensures checked { TowerChecked p n e t.now result }
{
    answer(Tower { p, n, e, t }.checked().map(|_| Answer::Done))
}

// Check of a slot: whether a is a slot over the tower, in form. Refuses 1 to 5. Writes nothing.
pub fn check_slot(p: i64, n: i64, e: [i64; 4], t: &[i64], a: &[i64]) -> Answer
    ensures checked { SlotChecked p n e t.now a.now result }
{
    answer(Tower { p, n, e, t }.slot_checked(a).map(|_| Answer::Done))
}

// The work sizes for a tower of n levels and polynomials of the degrees a and b. Refuses 2 and 5. Writes nothing.
pub fn work_sizes(n: i64, e: [i64; 4], a: i64, b: i64) -> WorkSizes
    ensures given { SizesGiven n e a b result }
{
    let s = match work_checked(n, e, a, b) {
        Ok(s) => s,
        Err(refusal) => {
            return WorkSizes {
                answer: refusal.into(),
                product: 0,
                inverse: 0,
                gcd: 0,
            };
        }
    };
    let product = product_work(s.levels, s.degrees);
    let inverse = inverse_work(s.levels, s.degrees);
    let gcd = gcd_work(count(a), count(b), s.size, inverse);
    WorkSizes {
        answer: Answer::Done,
        product,
        inverse,
        gcd,
    }
}

// The residue of n/e modulo p, from 0 to p - 1. Refuses 1, and 10 where e is not positive or shares a divisor above 1 with p. Writes nothing.
pub fn residue_of_fraction(p: i64, n: i64, e: i64) -> FractionResidue
    ensures given { FractionGiven p n e result }
{
    match fraction(p, n, e) {
        Ok(residue) => FractionResidue {
            answer: Answer::Done,
            residue,
        },
        Err(refusal) => FractionResidue {
            answer: refusal.into(),
            residue: 0,
        },
    }
}

// The leading view: the words of the leading coefficient of a or b, whichever has the higher degree, a's where they are equal, as a part of that slot itself;
// an empty part where any of 1 to 5 applies or both are zero. Writes nothing.
pub fn leading_view<'a>(
    p: i64,
    n: i64,
    e: [i64; 4],
    t: &[i64],
    a: &'a [i64],
    b: &'a [i64],
) -> &'a [i64]
    ensures shown { LeadingShown p n e t.now a.now b.now result.now }
{
    leading(Tower { p, n, e, t }, a, b)
}

// Sum: a + b, which replaces a. Refuses 1 to 6. Writes a's slot, the whole of it after Done and nothing when refused.
pub fn sum(p: i64, n: i64, e: [i64; 4], t: &[i64], a: &mut [i64], b: &[i64]) -> Answer
    ensures given { SumGiven false p n e t.now a.old b.now result a.new }
{
    answer(gained(false, Tower { p, n, e, t }, a, b))
}

// Difference: a - b, which replaces a. Refuses 1 to 6. Writes a's slot, the whole of it after Done and nothing when refused.
pub fn difference(p: i64, n: i64, e: [i64; 4], t: &[i64], a: &mut [i64], b: &[i64]) -> Answer
    ensures given { SumGiven true p n e t.now a.old b.now result a.new }
{
    answer(gained(true, Tower { p, n, e, t }, a, b))
}

// Product: a times b, into c. Refuses 1 to 7. After Done it has written the whole of c's slot and M(N) words 0 in the work store v; when refused nothing.
pub fn product(
    p: i64,
    n: i64,
    e: [i64; 4],
    t: &[i64],
    a: &[i64],
    b: &[i64],
    c: &mut [i64],
    v: &mut [i64],
) -> Answer
    ensures given { ProductGiven p n e t.now a.now b.now c.old v.old result c.new v.new }
{
    answer(multiplied(Tower { p, n, e, t }, a, b, c, v))
}

// Division by a monic b: the remainder replaces a, the quotient goes into q. Refuses 1 to 8. After Done it has written the whole of both slots and M(N)
// words 0 in the work store v; when refused nothing.
pub fn division(
    p: i64,
    n: i64,
    e: [i64; 4],
    t: &[i64],
    a: &mut [i64],
    b: &[i64],
    q: &mut [i64],
    v: &mut [i64],
) -> Answer
    ensures given { DivisionGiven p n e t.now a.old b.now q.old v.old result a.new q.new v.new }
{
    answer(parted(Tower { p, n, e, t }, a, b, q, v))
}

// Inverse of an element c: the inverse goes into the element r. Refuses 1 to 5, 7, 9, 11. After Done it has written r; where it shows a factor, the factor
// buffer f and not r; then, and after 11, I(N) words of the work store v are 0. When refused by another number nothing is written.
pub fn inverse(
    p: i64,
    n: i64,
    e: [i64; 4],
    t: &[i64],
    c: &[i64],
    r: &mut [i64],
    f: &mut [i64],
    v: &mut [i64],
) -> Answer
    ensures given { InverseGiven p n e t.now c.now r.old f.old v.old result r.new f.new v.new }
{
    answer(inverted(Tower { p, n, e, t }, c, r, f, v))
}

// GCD: of a and b, into g. Refuses 1 to 7, 11. After Done it has written the whole of g's slot; where it shows a factor, the factor buffer f and not g;
// then, and after 11, the GCD's number of words of the work store v are 0. When refused by another number nothing is written.
pub fn gcd(
    p: i64,
    n: i64,
    e: [i64; 4],
    t: &[i64],
    a: &[i64],
    b: &[i64],
    g: &mut [i64],
    f: &mut [i64],
    v: &mut [i64],
) -> Answer
    ensures given { GcdGiven p n e t.now a.now b.now g.old f.old v.old result g.new f.new v.new }
{
    answer(found(Tower { p, n, e, t }, a, b, g, f, v))
}
