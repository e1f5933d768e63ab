// The public calls for C, one for each of the kernel's. A list comes as a pointer and a length, the four degrees as a pointer to four numbers; what comes back
// beside the answer goes through a pointer. The answer is a number: 0 is Done, a refusal is its own number, and a shown factor 100 and its level; the leading
// view, which refuses nothing, answers which slot it shows. What each call gives, refuses and writes is the kernel's promise; here it is only told in numbers.
//
// Stays: the lists of a call are no struct and the degrees travel alone, as they are what C lends.
//
// Nothing checks a caller's pointers: each must be valid and aligned, each list as long as its length says, degrees four words and sizes three; and what a
// call may write (a of sum, difference and division, c, q, r, g, the factor buffer, the work store, sizes, residue, start and count) must overlap nothing else
// that is lent to it.
#![tactic(auto)]

ghost use Rattle.std.specs.Prelude.{◌≡◌, true, false};
ghost use Rattle.kernel.specs.Answers.{said};
ghost use Rattle.capi.specs.Codes.{code, Plain, TowerCoded, SlotCoded, SumCoded, ProductCoded, DivisionCoded};
ghost use Rattle.capi.specs.NumberCodes.{SizesCoded, FractionCoded};
ghost use Rattle.capi.specs.SequenceCodes.{InverseCoded, GcdCoded};
ghost use Rattle.capi.specs.ViewCodes.{ViewCoded};

use kernel::Answer;
use tower::form::coefficient_at;
use tower::words::count_at;

// The number of an answer.
// Stays: a number and no enum, as the calls for C answer so, and no `From`, as it asks of an answer that it is plain.
fn code_of(answer: Answer) -> usize
    requires { Plain (said answer) }
    ensures { result ≡ code (said answer) }
{
    match answer {
        Answer::Done => 0,
        Answer::Factor(level) => 100 + level,
        Answer::Refused(number) => number,
    }
}

// Whether p, n, the degrees and the tower's words are those of a tower. Refuses 1 to 3. Writes nothing.
#[unsafe(no_mangle)]
pub extern "C" fn mausvioline_check_tower(
    p: i64,
    n: i64,
    degrees: &[i64; 4],
    tower: &[i64],
) -> usize
    ensures coded { TowerCoded p n degrees.now tower.now result }
{
    code_of(kernel::check_tower(p, n, *degrees, tower))
}

// Whether a is a slot over the tower, in form. Refuses 1 to 5. Writes nothing.
#[unsafe(no_mangle)]
pub extern "C" fn mausvioline_check_slot(
    p: i64,
    n: i64,
    degrees: &[i64; 4],
    tower: &[i64],
    a: &[i64],
) -> usize
    ensures coded { SlotCoded p n degrees.now tower.now a.now result }
{
    code_of(kernel::check_slot(p, n, *degrees, tower, a))
}

// sizes := the work words of product, inverse and GCD over a tower of n levels, for polynomials of the degrees a and b. Refuses 2 and 5. Writes sizes, nothing
// when refused.
#[unsafe(no_mangle)]
pub extern "C" fn mausvioline_work_sizes(
    n: i64,
    degrees: &[i64; 4],
    a: i64,
    b: i64,
    sizes: &mut [usize; 3],
) -> usize
    ensures coded { SizesCoded n degrees.now a b sizes.old result sizes.new }
{
    let found = kernel::work_sizes(n, *degrees, a, b);
    let code = code_of(found.answer);
    if code == 0 {
        *sizes = [found.product, found.inverse, found.gcd];
    }
    code
}

// residue := that of n/e modulo p. Refuses 1 and 10. Writes residue, nothing when refused.
#[unsafe(no_mangle)]
pub extern "C" fn mausvioline_fraction(p: i64, n: i64, e: i64, residue: &mut u64) -> usize
    ensures coded { FractionCoded p n e residue.old result residue.new }
{
    let found = kernel::residue_of_fraction(p, n, e);
    let code = code_of(found.answer);
    if code == 0 {
        *residue = found.residue;
    }
    code
}

// Which slot has the higher degree, and where its leading coefficient stands in it: 1 for a, also where they are equal, 2 for b, and 0 where any of 1 to 5
// applies or both are zero. start, count := the place of its first word and how many it has, 0 and 0 beside the answer 0. Writes both always.
#[unsafe(no_mangle)]
pub extern "C" fn mausvioline_leading_view<'a>(
    p: i64,
    n: i64,
    degrees: &[i64; 4],
    tower: &[i64],
    a: &'a [i64],
    b: &'a [i64],
    start: &mut usize,
    count: &mut usize,
) -> usize
    ensures coded { ViewCoded p n degrees.now tower.now a.now b.now result start.new count.new }
{
    let view = kernel::leading_view(p, n, *degrees, tower, a, b);
    let s = view.len();
    *count = s;
    if s == 0 {
        *start = 0;
        return 0;
    }
    let k = count_at(a, 0);
    let l = count_at(b, 0);
    if k < l {
        *start = coefficient_at(0, l - 1, s);
        return 2;
    }
    *start = coefficient_at(0, k - 1, s);
    1
}

// a := a + b. Refuses 1 to 6. Writes a, nothing when refused.
#[unsafe(no_mangle)]
pub extern "C" fn mausvioline_sum(
    p: i64,
    n: i64,
    degrees: &[i64; 4],
    tower: &[i64],
    a: &mut [i64],
    b: &[i64],
) -> usize
    ensures coded { SumCoded false p n degrees.now tower.now a.old b.now result a.new }
{
    code_of(kernel::sum(p, n, *degrees, tower, a, b))
}

// a := a - b. Refuses 1 to 6. Writes a, nothing when refused.
#[unsafe(no_mangle)]
pub extern "C" fn mausvioline_difference(
    p: i64,
    n: i64,
    degrees: &[i64; 4],
    tower: &[i64],
    a: &mut [i64],
    b: &[i64],
) -> usize
    ensures coded { SumCoded true p n degrees.now tower.now a.old b.now result a.new }
{
    code_of(kernel::difference(p, n, *degrees, tower, a, b))
}

// c := a · b. Refuses 1 to 7. Writes c and the work store, nothing when refused.
#[unsafe(no_mangle)]
pub extern "C" fn mausvioline_product(
    p: i64,
    n: i64,
    degrees: &[i64; 4],
    tower: &[i64],
    a: &[i64],
    b: &[i64],
    c: &mut [i64],
    work: &mut [i64],
) -> usize
    ensures coded { ProductCoded p n degrees.now tower.now a.now b.now c.old work.old result
        c.new work.new }
{
    code_of(kernel::product(p, n, *degrees, tower, a, b, c, work))
}

// a := the remainder of a by b, q := the quotient. Refuses 1 to 8. Writes a, q and the work store, nothing when refused.
#[unsafe(no_mangle)]
pub extern "C" fn mausvioline_division(
    p: i64,
    n: i64,
    degrees: &[i64; 4],
    tower: &[i64],
    a: &mut [i64],
    b: &[i64],
    q: &mut [i64],
    work: &mut [i64],
) -> usize
    ensures coded { DivisionCoded p n degrees.now tower.now a.old b.now q.old work.old result
        a.new q.new work.new }
{
    code_of(kernel::division(p, n, *degrees, tower, a, b, q, work))
}

// r := the inverse of the element c. Refuses 1 to 5, 7, 9, 11. Writes r, or the factor buffer where it shows a factor, and then and after 11 the work store;
// nothing when refused by another number.
#[unsafe(no_mangle)]
pub extern "C" fn mausvioline_inverse(
    p: i64,
    n: i64,
    degrees: &[i64; 4],
    tower: &[i64],
    c: &[i64],
    r: &mut [i64],
    factor: &mut [i64],
    work: &mut [i64],
) -> usize
    ensures coded { InverseCoded p n degrees.now tower.now c.now r.old factor.old work.old result
        r.new factor.new work.new }
{
    code_of(kernel::inverse(p, n, *degrees, tower, c, r, factor, work))
}

// g := the GCD of a and b. Refuses 1 to 7, 11. Writes g, or the factor buffer where it shows a factor, and then and after 11 the work store; nothing when
// refused by another number.
#[unsafe(no_mangle)]
pub extern "C" fn mausvioline_gcd(
    p: i64,
    n: i64,
    degrees: &[i64; 4],
    tower: &[i64],
    a: &[i64],
    b: &[i64],
    g: &mut [i64],
    factor: &mut [i64],
    work: &mut [i64],
) -> usize
    ensures coded { GcdCoded p n degrees.now tower.now a.now b.now g.old factor.old work.old result
        g.new factor.new work.new }
{
    code_of(kernel::gcd(p, n, *degrees, tower, a, b, g, factor, work))
}
