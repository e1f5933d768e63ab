// GCD of two polynomials: its tests, the sequence in the work store, and the answer or a shown factor copied out.
//
// The work store has a slot for a copy of a, one for a copy of b, two elements for the inverses of their leading coefficients, and the inverse's words.
ghost use Rattle.std.specs.Prelude.{◌≡◌, ◌+◌, ◌*◌};
ghost use Rattle.tower.specs.Work.{inverse_work};
ghost use Rattle.kernel.specs.Answers.{answer_of};
ghost use Rattle.kernel.specs.Gcds.{gcd_number, gcd_room};
ghost use Rattle.kernel.specs.Parts.{NeededReady, SoughtReady, SoughtDone, FoundReady, FoundGiven};
ghost use Rattle.kernel.specs.Promises.{GcdGiven};
ghost use Rattle.kernel.specs.Shape.{ShapeOf, Checked};
ghost use Rattle.kernel.specs.Slots.{degree_count};

use super::Answer;
use super::refusals::Refusal;
use super::shape::Shape;
use super::slots::three_lengths_ok;
use super::stops::stopped;
use super::towers::Tower;
use arithmetic::places::Source;
use polynomials::slots::finish;
use sequences::gcd::gcd;
use sequences::{Greatest, Led, Stop};
use tower::form::coefficient_at;
use tower::store::{clear, copy_in};
use tower::words::count_at;
use tower::work::{gcd_work, inverse_work};

// The coefficients that the answer's slot needs, from one more than the two degrees.
pub fn gcd_room(ca: usize, cb: usize) -> usize
    ensures { result ≡ gcd_room ca cb }
{
    ca.max(cb).max(1)
}

// The work words that a GCD of a and b needs at level i, whose elements have s words.
pub fn gcd_needed(i: usize, d: [usize; 4], s: usize, a: &[i64], b: &[i64]) -> usize
    requires { NeededReady i d s a.now b.now }
    ensures { result ≡ degree_count a.now * s + 1 + (degree_count b.now * s + 1) + 2 * s + inverse_work d i }
{
    gcd_work(count_at(a, 0), count_at(b, 0), s, inverse_work(i, d))
}

// The shape, where a and b are slots over the tower, the answer's slot g has room, f is a factor buffer and v has the work words. Refuses 1 to 7.
pub fn gcd_checked(
    tower: Tower<'_>,
    a: &[i64],
    b: &[i64],
    g: &[i64],
    f: &[i64],
    v: &[i64],
) -> Result<Shape, Refusal>
    ensures { let x = tower.entry in Checked (gcd_number x.p x.n x.e x.t.now a.now b.now g.now f.now v.now) x.n x.e result }
{
    let s = tower.checked()?;
    if !three_lengths_ok(s.size, a.len(), b.len(), g.len()) {
        return Err(Refusal::BadLength);
    }
    if f.len() != s.size {
        return Err(Refusal::BadLength);
    }
    if !s.slots_ok(tower.modulus(), a, b) {
        return Err(Refusal::BadForm);
    }
    if s.coefficients(g) < gcd_room(count_at(a, 0), count_at(b, 0)) {
        return Err(Refusal::SmallAnswer);
    }
    if v.len() < gcd_needed(s.levels, s.degrees, s.size, a, b) {
        return Err(Refusal::SmallWork);
    }
    Ok(s)
}

// Copies of a and b laid into the work store, and the sequence run on them.
pub fn sought(
    tower: Tower<'_>,
    s: Shape,
    a: &[i64],
    b: &[i64],
    v: &mut [i64],
) -> Result<Greatest, Stop>
    requires { ShapeOf tower.n tower.e s × SoughtReady tower.p tower.n tower.e tower.t.now a.now b.now v.old }
    ensures { let x = tower.entry in SoughtDone x.p x.n x.e x.t.now a.now b.now v.old v.new result }
{
    let ca = count_at(a, 0);
    let cb = count_at(b, 0);
    let row = coefficient_at(0, ca, s.size) + 1;
    let unit = coefficient_at(row - 1, cb, s.size);
    copy_in(a, 1, v, 1, ca * s.size);
    copy_in(b, 1, v, row, cb * s.size);
    let x = Led {
        row: 1,
        carried: 0,
        unit,
        count: ca,
    };
    let y = Led {
        row,
        carried: 0,
        unit: unit + s.size,
        count: cb,
    };
    let top = unit + 2 * s.size;
    let words = Source {
        lent: Some(tower.t),
        at: 0,
    };
    let p = tower.modulus();
    gcd(s.levels, s.degrees, s.sizes, p, words, x, y, v, top)
}

// The answer by what the sequence found: the words of a GCD copied into g, with zeros behind them, or a stop told.
pub fn found_answer(
    found: Result<Greatest, Stop>,
    s: Shape,
    v: &[i64],
    g: &mut [i64],
    f: &mut [i64],
) -> Answer
    requires { FoundReady found s v.now g.old f.old }
    ensures { FoundGiven found s v.now g.old f.old result g.new f.new }
{
    match found {
        Ok(Greatest { at, count }) => {
            let k = s.coefficients(g);
            copy_in(v, at, g, 1, count * s.size);
            finish(s.levels, k, count, k - count, s.degrees, s.sizes, g);
            Answer::Done
        }
        Err(stop) => stopped(stop, s, v, f),
    }
}

// The GCD of a and b into g, or a factor into f, and the work words that it needs cleared.
pub fn found(
    tower: Tower<'_>,
    a: &[i64],
    b: &[i64],
    g: &mut [i64],
    f: &mut [i64],
    v: &mut [i64],
) -> Result<Answer, Refusal>
    ensures { let x = tower.entry in GcdGiven x.p x.n x.e x.t.now a.now b.now g.old f.old v.old (answer_of result) g.new f.new v.new }
{
    let s = gcd_checked(tower, a, b, g, f, v)?;
    let needed = gcd_needed(s.levels, s.degrees, s.size, a, b);
    let o = sought(tower, s, a, b, v);
    let answer = found_answer(o, s, v, g, f);
    clear(v, 0, needed);
    Ok(answer)
}
