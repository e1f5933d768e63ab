// The four operations: the kernel's call on lists that are lent, and its answer as a line.
ghost use Rattle.std.specs.Prelude.{[], ◌≡◌};
ghost use Rattle.tower.specs.Limits.{degrees_of};
ghost use Rattle.kernel.specs.Answers.{said};
ghost use Rattle.kernel.specs.Refusals.{done};
ghost use Rattle.text.specs.Appending.{Appended};
ghost use Rattle.text.specs.Fields.{most_words};
ghost use Rattle.lines.specs.Answers.{answer_text, gcd_text, div_text, mul_text, inv_text, name_of, given_text, AnswerReady, GivenReady, LineReady};
ghost use Rattle.lines.specs.Steps.{answer_words, most_element};

use super::printing::{division_line, factor_line, inverse_line, refused_line, slot_line};
use crate::{Given, Ring};
use kernel::Answer;
use tower::words::nat;

impl Given<'_> {
    // The name of the operation.
    fn name(self) -> &'static [u8]
        ensures { result.now ≡ name_of self.entry }
    {
        match self {
            Given::Gcd(_) => b"gcd",
            Given::Div(..) => b"div",
            Given::Mul(_) => b"mul",
            Given::Inv(_) => b"inv",
        }
    }
}

// The line of what an operation gives.
fn given_line(out: &mut [u8], i: usize, e: [i64; 4], given: Given) -> usize
    requires { GivenReady i e given out.old }
    ensures { let g = given.entry in Appended 0 (answer_text (name_of g) (degrees_of e) done (given_text (degrees_of e) i g) []) out.old out.new result }
{
    match given {
        Given::Gcd(g) => slot_line(out, b"gcd", i, e, g),
        Given::Div(q, r) => division_line(out, i, e, q, r),
        Given::Mul(c) => slot_line(out, b"mul", i, e, c),
        Given::Inv(u) => inverse_line(out, i, e, u),
    }
}

// The line of an answer; an operation that shows no factor lends no words for one.
pub fn answer_line(
    out: &mut [u8],
    answer: Answer,
    i: usize,
    e: [i64; 4],
    given: Given,
    f: &[i64],
) -> usize
    requires { AnswerReady answer (GivenReady i e given out.old) e f.now out.old }
    ensures { let g = given.entry in Appended 0 (answer_text (name_of g) (degrees_of e) (said answer) (given_text (degrees_of e) i g) f.now) out.old out.new result }
{
    match answer {
        Answer::Done => given_line(out, i, e, given),
        Answer::Factor(level) => factor_line(out, given.name(), level, e, f),
        Answer::Refused(number) => refused_line(out, given.name(), number),
    }
}

// The GCD of a and b, in g.
// Stays: four functions, this and those below, and no generic one, since each hands other lists to another call of the kernel.
pub fn gcd(
    ring: Ring,
    a: &[i64],
    b: &[i64],
    g: &mut [i64],
    f: &mut [i64],
    v: &mut [i64],
    out: &mut [u8],
) -> usize
    requires { LineReady answer_words g.old out.old × LineReady most_element f.old out.old }
    ensures { let r = ring.entry in Appended 0 (gcd_text r.p r.n r.e r.t.now a.now b.now g.old f.old v.old) out.old out.new result }
{
    let answer = kernel::gcd(ring.p, ring.n, ring.e, ring.t, a, b, g, f, v);
    answer_line(out, answer, nat(ring.n), ring.e, Given::Gcd(g), f)
}

// The quotient of a by b in q, and the remainder in a.
pub fn div(
    ring: Ring,
    a: &mut [i64],
    b: &[i64],
    q: &mut [i64],
    v: &mut [i64],
    out: &mut [u8],
) -> usize
    requires { LineReady answer_words q.old out.old × LineReady most_words a.old out.old }
    ensures { let r = ring.entry in Appended 0 (div_text r.p r.n r.e r.t.now a.old b.now q.old v.old) out.old out.new result }
{
    let answer = kernel::division(ring.p, ring.n, ring.e, ring.t, a, b, q, v);
    answer_line(out, answer, nat(ring.n), ring.e, Given::Div(q, a), &[])
}

// The product of a and b, in c.
pub fn mul(ring: Ring, a: &[i64], b: &[i64], c: &mut [i64], v: &mut [i64], out: &mut [u8]) -> usize
    requires { LineReady answer_words c.old out.old }
    ensures { let r = ring.entry in Appended 0 (mul_text r.p r.n r.e r.t.now a.now b.now c.old v.old) out.old out.new result }
{
    let answer = kernel::product(ring.p, ring.n, ring.e, ring.t, a, b, c, v);
    answer_line(out, answer, nat(ring.n), ring.e, Given::Mul(c), &[])
}

// The inverse of the element a, in u.
pub fn inv(
    ring: Ring,
    a: &[i64],
    u: &mut [i64],
    f: &mut [i64],
    v: &mut [i64],
    out: &mut [u8],
) -> usize
    requires { LineReady most_element u.old out.old × LineReady most_element f.old out.old }
    ensures { let r = ring.entry in Appended 0 (inv_text r.p r.n r.e r.t.now a.now u.old f.old v.old) out.old out.new result }
{
    let answer = kernel::inverse(ring.p, ring.n, ring.e, ring.t, a, u, f, v);
    answer_line(out, answer, nat(ring.n), ring.e, Given::Inv(u), f)
}
