// A line read and answered.
ghost use Rattle.std.specs.Prelude.{◌+◌, ◌≤◌, ◌≡◌, ◌&&◌, [], true, ltb, length};
ghost use Rattle.std.specs.Option.{is_some};
ghost use Rattle.text.specs.Appending.{Appended};
ghost use Rattle.lines.specs.Kept.{state_of, Sound, OutStore, RingKept, Told, Stepped};
ghost use Rattle.lines.specs.Reading.{gcd, div, mul, inv, unreadable};
ghost use Rattle.lines.specs.Steps.{nothing, missing_text, printed};

use super::answers::{div, gcd, inv, mul};
use super::keeping::{TOWER_WORDS, allowed, keep};
use super::lengths::{ANSWER_WORDS, WORK_WORDS, element_words, slot_words};
use super::printing::{end_number, opened};
use super::reading::read_line;
use crate::{Kept, Line, Ring, Room, Stores};
use text::bytes::append;
use text::fields::MOST_WORDS;

// The line of an operation that lacks a field or an operand.
pub fn missing(out: &mut [u8], name: &[u8]) -> usize
    requires { length name.now + 9 ≤ length out.old }
    ensures { Appended 0 (missing_text name.now) out.old out.new result }
{
    opened(out, name, b"\tmissing\n")
}

// The line of a line that is unreadable.
pub fn unreadable(out: &mut [u8], number: u64) -> usize
    requires { 40 ≤ length out.old }
    ensures { Appended 0 (printed nothing number unreadable) out.old out.new result }
{
    let said = append(out, 0, b"unreadable");
    end_number(out, said, number)
}

// a and b are there; without a field neither is.
pub fn both(k: Kept) -> bool
    ensures { result ≡ (ltb 0 k.a && ltb 0 k.b) }
{
    0 < k.a && 0 < k.b
}

// What an operation runs over, where there is a field.
//
// Stays: `as u64`, as std has no `From<usize>` for u64.
fn ring_of(k: Kept, tower: &[i64]) -> Ring
    requires { Sound k × (is_some k.field ≡ true) × (k.tower ≤ length tower.now) }
    ensures { RingKept k tower.now result }
{
    let e = k.degrees;
    Ring {
        p: k.field.unwrap(),
        n: residue::word(k.levels as u64),
        e,
        t: &tower[k.tower..],
    }
}

// The answer of `gcd`.
//
// Stays: four functions `tell_`, no generic one. Each lends other lists of the stores to the kernel: `gcd` a slot and a factor, `div` a copy of a and a slot,
// `mul` a slot, `inv` two elements.
pub fn tell_gcd(k: Kept, s: &Stores, room: &mut Room, out: &mut [u8]) -> usize
    requires { Sound k × OutStore out.old }
    ensures { Appended 0 (printed (state_of k s.now.tower s.now.a s.now.b) 0 gcd) out.old out.new result }
{
    if !both(k) {
        return missing(out, b"gcd");
    }
    let ring = ring_of(k, &s.tower);
    let n = element_words(ring.n, ring.e);
    let l = slot_words(n);
    let answer = &mut room.answer[..];
    let factor = &mut room.factor[..];
    gcd(
        ring,
        &s.a[..k.a],
        &s.b[..k.b],
        &mut answer[..l],
        &mut factor[..n],
        &mut room.work,
        out,
    )
}

// The answer of `div`, which writes the remainder over a copy of a.
pub fn tell_div(
    k: Kept,
    s: &Stores,
    answer: &mut [i64; ANSWER_WORDS],
    work: &mut [i64; WORK_WORDS],
    out: &mut [u8],
) -> usize
    requires { Sound k × OutStore out.old }
    ensures { Appended 0 (printed (state_of k s.now.tower s.now.a s.now.b) 0 div) out.old out.new result }
{
    if !both(k) {
        return missing(out, b"div");
    }
    let ring = ring_of(k, &s.tower);
    let l = slot_words(element_words(ring.n, ring.e));
    let mut a = s.a;
    div(
        ring,
        &mut a[..k.a],
        &s.b[..k.b],
        &mut answer[..l],
        work,
        out,
    )
}

// The answer of `mul`.
pub fn tell_mul(
    k: Kept,
    s: &Stores,
    answer: &mut [i64; ANSWER_WORDS],
    work: &mut [i64; WORK_WORDS],
    out: &mut [u8],
) -> usize
    requires { Sound k × OutStore out.old }
    ensures { Appended 0 (printed (state_of k s.now.tower s.now.a s.now.b) 0 mul) out.old out.new result }
{
    if !both(k) {
        return missing(out, b"mul");
    }
    let ring = ring_of(k, &s.tower);
    let l = slot_words(element_words(ring.n, ring.e));
    mul(ring, &s.a[..k.a], &s.b[..k.b], &mut answer[..l], work, out)
}

// The answer of `inv`.
pub fn tell_inv(
    k: Kept,
    tower: &[i64; TOWER_WORDS],
    a: &[i64; MOST_WORDS],
    room: &mut Room,
    out: &mut [u8],
) -> usize
    requires { Sound k × OutStore out.old }
    ensures { Appended 0 (printed (state_of k tower.now a.now []) 0 inv) out.old out.new result }
{
    if k.a == 0 {
        return missing(out, b"inv");
    }
    let ring = ring_of(k, tower);
    let n = element_words(ring.n, ring.e);
    let answer = &mut room.answer[..];
    let factor = &mut room.factor[..];
    inv(
        ring,
        &a[..k.a],
        &mut answer[..n],
        &mut factor[..n],
        &mut room.work,
        out,
    )
}

// The answer of a line that is allowed here, or that is unreadable; field, ext and poly have none.
pub fn tell(
    line: Option<Line>,
    number: u64,
    k: Kept,
    s: &Stores,
    room: &mut Room,
    out: &mut [u8],
) -> usize
    requires { Sound k × OutStore out.old }
    ensures { Told line number k s.now.tower s.now.a s.now.b out.old out.new result }
{
    match line {
        None => unreadable(out, number),
        Some(Line::Field(_) | Line::Ext(_) | Line::First(_) | Line::Second(_)) => 0,
        Some(Line::Gcd) => tell_gcd(k, s, room, out),
        Some(Line::Div) => tell_div(k, s, &mut room.answer, &mut room.work, out),
        Some(Line::Mul) => tell_mul(k, s, &mut room.answer, &mut room.work, out),
        Some(Line::Inv) => tell_inv(k, &s.tower, &s.a, room, out),
    }
}

// The line of this number and these bytes: what is kept after it, and how many of the first bytes of out are its answer.
pub fn step(
    text: &[u8],
    number: u64,
    k: Kept,
    s: &mut Stores,
    room: &mut Room,
    out: &mut [u8],
) -> (Kept, usize)
    requires { Sound k × OutStore out.old }
    ensures { Stepped text.now number k s.old.tower s.old.a s.old.b result.0 result.1 s.new.tower s.new.a s.new.b out.old out.new }
{
    let mut words = [0i64; MOST_WORDS];
    let line = allowed(read_line(text, &mut words), k);
    let told = tell(line, number, k, s, room, out);
    (keep(line, k, &words, s), told)
}
