// What a line says.
//
// Stays: names are told apart by `same`, in chains of `if`, and by no match on the texts. It was tried in `operation_line`: the last arm of the match is met in
// twenty ways, by lengths and bytes, and the facts of most of them have no name that a proof may cite.
ghost use Rattle.std.specs.Prelude.{◌≤◌, length};
ghost use Rattle.text.specs.Fields.{fields_of, fields_at, words_of, most_bytes, most_words};
ghost use Rattle.lines.specs.Reading.{field_says, ext_says, poly_says, meaning_of, Says, OperationSaid};

use crate::Line;
use text::fields::{field_end, read_words, same};

// The most bytes of a line, its line end not counted.
pub const MOST_BYTES: usize = 8192;

// `field` and p.
pub fn field_line(text: &[u8], from: usize, words: &mut [i64]) -> Option<Line>
    requires { ((from ≤ length text.now) × (length text.now ≤ most_bytes)) × (most_words ≤ length words.old) }
    ensures { Says result words.new (field_says (words_of (fields_at text.now from))) }
{
    if read_words(text, from, words)? == 1 {
        Some(Line::Field(words[0]))
    } else {
        None
    }
}

// `ext` and words.
pub fn ext_line(text: &[u8], from: usize, words: &mut [i64]) -> Option<Line>
    requires { ((from ≤ length text.now) × (length text.now ≤ most_bytes)) × (most_words ≤ length words.old) }
    ensures { Says result words.new (ext_says (words_of (fields_at text.now from))) }
{
    Some(Line::Ext(read_words(text, from, words)?))
}

// `poly`, a or b, and words.
pub fn poly_line(text: &[u8], from: usize, words: &mut [i64]) -> Option<Line>
    requires { ((from ≤ length text.now) × (length text.now ≤ most_bytes)) × (most_words ≤ length words.old) }
    ensures { Says result words.new (poly_says (fields_at text.now from)) }
{
    let end = field_end(text, from);
    if end == text.len() {
        return None;
    }
    let n = read_words(text, end + 1, words)?;
    let name = &text[from..end];
    if same(name, b"a") {
        Some(Line::First(n))
    } else if same(name, b"b") {
        Some(Line::Second(n))
    } else {
        None
    }
}

// An operation with a and b, or with a.
pub fn operation_line(name: &[u8], operands: &[u8]) -> Option<Line>
    ensures { OperationSaid result name.now (fields_of operands.now) }
{
    if same(operands, b"a") {
        if same(name, b"inv") {
            Some(Line::Inv)
        } else {
            None
        }
    } else if !same(operands, b"a\tb") {
        None
    } else if same(name, b"gcd") {
        Some(Line::Gcd)
    } else if same(name, b"div") {
        Some(Line::Div)
    } else if same(name, b"mul") {
        Some(Line::Mul)
    } else {
        None
    }
}

// What the bytes of a line say, or None where it is unreadable; the words that it carries are put into words.
pub fn read_line(text: &[u8], words: &mut [i64]) -> Option<Line>
    requires { most_words ≤ length words.old }
    ensures { Says result words.new (meaning_of text.now) }
{
    if MOST_BYTES < text.len() {
        return None;
    }
    let end = field_end(text, 0);
    if end == text.len() {
        return None;
    }
    let from = end + 1;
    let name = &text[..end];
    if same(name, b"field") {
        field_line(text, from, words)
    } else if same(name, b"ext") {
        ext_line(text, from, words)
    } else if same(name, b"poly") {
        poly_line(text, from, words)
    } else {
        operation_line(name, &text[from..])
    }
}
