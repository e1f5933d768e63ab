// Texts, which are lists of bytes, and the numbers and words in them, both ways: text gathered in a store, a number as text and text as a number, and the
// fields of a line. The streams of a program are in `streams`.
#![tactic(auto)]

pub mod bytes;
pub mod fields;
pub mod numbers;
pub mod streams;
