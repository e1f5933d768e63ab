// The calculator's lines, on lists of bytes and words: what a line says, what is kept between lines, and what is printed. The program `calculator` only moves
// bytes. What a line comes to is in specs/Steps.antt.
#![tactic(auto)]

pub mod answers;
pub mod form;
pub mod keeping;
pub mod lengths;
pub mod printing;
pub mod reading;
pub mod steps;

use keeping::TOWER_WORDS;
use lengths::{ANSWER_WORDS, FACTOR_WORDS, WORK_WORDS};
use text::fields::MOST_WORDS;

// What a readable line says: of ext, poly a and poly b how many words they carry, which stand in a store.
#[derive(Clone, Copy)]
pub enum Line {
    Field(i64),
    Ext(usize),
    First(usize),
    Second(usize),
    Gcd,
    Div,
    Mul,
    Inv,
}

// What is kept between lines, beside the words: the p of the field; the levels and their degrees; where the tower's words begin in their store, which they
// fill from the end; and how many words a and b have.
//
// Stays: a and b are counts and no Option, which is no plainer: `&s.a[..k.a]` in steps.rt and `take k.a` in specs/Kept.antt want the number, and 0 is a count.
//
// Stays: what holds between lines (`Sound` of specs/Kept.antt) is no invariant of the type, as `allowed` and `both` take what is kept without it.
#[derive(Clone, Copy)]
pub struct Kept {
    pub field: Option<i64>,
    pub levels: usize,
    pub degrees: [i64; 4],
    pub tower: usize,
    pub a: usize,
    pub b: usize,
}

// The words that are kept between lines: those of the tower, of a and of b.
#[derive(Drop)]
pub struct Stores {
    pub tower: [i64; TOWER_WORDS],
    pub a: [i64; MOST_WORDS],
    pub b: [i64; MOST_WORDS],
}

// The room for one operation: its answer, a factor, and the kernel's work.
//
// Stays: the bytes of the answer's line are a slice beside it, as `step` and `tell` take any that is long enough.
#[derive(Drop)]
pub struct Room {
    pub answer: [i64; ANSWER_WORDS],
    pub factor: [i64; FACTOR_WORDS],
    pub work: [i64; WORK_WORDS],
}

// What an operation runs over: p, N, the degrees and the tower's words.
#[derive(Clone, Copy)]
pub struct Ring<'a> {
    pub p: i64,
    pub n: i64,
    pub e: [i64; 4],
    pub t: &'a [i64],
}

// What an operation gives: a slot; a quotient and a remainder; a slot; an element.
#[derive(Clone, Copy)]
pub enum Given<'a> {
    Gcd(&'a [i64]),
    Div(&'a [i64], &'a [i64]),
    Mul(&'a [i64]),
    Inv(&'a [i64]),
}
