// Inverse of an element: its tests, the inverse in the work store, and the answer or a shown factor copied out.
ghost use Rattle.std.specs.Prelude.{◌≡◌, ◌&&◌, ◌<◌, eqb};
ghost use Rattle.kernel.specs.Answers.{answer_of};
ghost use Rattle.kernel.specs.Inverses.{inverse_number};
ghost use Rattle.kernel.specs.Parts.{NumberReady, NumberGiven, EndedReady, EndedGiven};
ghost use Rattle.kernel.specs.Promises.{InverseGiven};
ghost use Rattle.kernel.specs.Shape.{ShapeOf, Checked};

use super::Answer;
use super::refusals::Refusal;
use super::shape::Shape;
use super::stops::stopped;
use super::towers::Tower;
use arithmetic::places::Source;
use sequences::Stop;
use sequences::inverse::{invert, run};
use tower::form::element;
use tower::store::{clear, copy_in, is_zero};
use tower::work::inverse_work;

// All three lists have s words.
// Stays: one function over an array of lengths takes a closure and an array at each call, and is no plainer than this line.
pub fn three_elements(s: usize, k: usize, l: usize, m: usize) -> bool
    ensures { result ≡ (eqb k s && (eqb l s && eqb m s)) }
{
    k == s && l == s && m == s
}

// The shape, where c, the answer's element r and the factor buffer f are lent for the tower, v has the work words, and c is not zero. Refuses 1 to 5, 7, 9.
pub fn inverse_checked(
    tower: Tower<'_>,
    c: &[i64],
    r: &[i64],
    f: &[i64],
    v: &[i64],
) -> Result<Shape, Refusal>
    ensures { let x = tower.entry in Checked (inverse_number x.p x.n x.e x.t.now c.now r.now f.now v.now) x.n x.e result }
{
    let s = tower.checked()?;
    if !three_elements(s.size, c.len(), r.len(), f.len()) {
        return Err(Refusal::BadLength);
    }
    if !element(s.levels, s.degrees, s.sizes, tower.modulus(), c, 0) {
        return Err(Refusal::BadForm);
    }
    if v.len() < inverse_work(s.levels, s.degrees) {
        return Err(Refusal::SmallWork);
    }
    if is_zero(s.levels, c, 0) {
        return Err(Refusal::OfZero);
    }
    Ok(s)
}

// Level 0: the inverse of c into r, or a factor into f. It takes one word to work in, and no work words.
pub fn inverted_number(
    tower: Tower<'_>,
    s: Shape,
    c: &[i64],
    r: &mut [i64],
    f: &mut [i64],
) -> Answer
    requires { ShapeOf tower.n tower.e s × NumberReady tower.p tower.n tower.e tower.t.now c.now r.old f.old }
    ensures { let x = tower.entry in NumberGiven x.p x.n x.e x.t.now c.now r.old f.old result r.new f.new }
{
    let q = tower.modulus();
    let words = Source {
        lent: Some(tower.t),
        at: 0,
    };
    let element = Source {
        lent: Some(c),
        at: 0,
    };
    let mut word = [0i64; 1];
    match invert(0, s.degrees, s.sizes, q, words, element, &mut word, 0, 1) {
        Ok(()) => {
            copy_in(&word, 0, r, 0, 1);
            Answer::Done
        }
        Err(stop) => stopped(stop, s, &word, f),
    }
}

// The answer by what the sequence came to: the words of an inverse copied into r, or a stop told.
pub fn ended_answer(
    ended: Result<usize, Stop>,
    s: Shape,
    v: &[i64],
    r: &mut [i64],
    f: &mut [i64],
) -> Answer
    requires { EndedReady ended s v.now r.old f.old }
    ensures { EndedGiven ended s v.now r.old f.old result r.new f.new }
{
    match ended {
        Ok(at) => {
            copy_in(v, at, r, 0, s.size);
            Answer::Done
        }
        Err(stop) => stopped(stop, s, v, f),
    }
}

// Above level 0: the inverse of c into r, or a factor into f, and the work words that it needs cleared.
pub fn inverted_element(
    tower: Tower<'_>,
    s: Shape,
    c: &[i64],
    r: &mut [i64],
    f: &mut [i64],
    v: &mut [i64],
) -> Answer
    requires { ShapeOf tower.n tower.e s × (0 < s.levels)
        × (inverse_number tower.p tower.n tower.e tower.t.now c.now r.old f.old v.old ≡ 0) }
    ensures { let x = tower.entry in InverseGiven x.p x.n x.e x.t.now c.now r.old f.old v.old result r.new f.new v.new }
{
    let needed = inverse_work(s.levels, s.degrees);
    let words = Source {
        lent: Some(tower.t),
        at: 0,
    };
    let element = Source {
        lent: Some(c),
        at: 0,
    };
    let p = tower.modulus();
    let ended = run(s.levels, s.degrees, s.sizes, p, words, element, v, 0);
    let answer = ended_answer(ended, s, v, r, f);
    clear(v, 0, needed);
    answer
}

// The inverse of c into r, or a factor into f.
pub fn inverted(
    tower: Tower<'_>,
    c: &[i64],
    r: &mut [i64],
    f: &mut [i64],
    v: &mut [i64],
) -> Result<Answer, Refusal>
    ensures { let x = tower.entry in InverseGiven x.p x.n x.e x.t.now c.now r.old f.old v.old (answer_of result) r.new f.new v.new }
{
    let s = inverse_checked(tower, c, r, f, v)?;
    Ok(if s.levels == 0 {
        inverted_number(tower, s, c, r, f)
    } else {
        inverted_element(tower, s, c, r, f, v)
    })
}
