// What is printed: slots, elements and factors, and the lines of answers.
//
// Stays: how many bytes are held goes beside the bytes, for the reason that src/bytes.rt of text gives.
ghost use Rattle.std.specs.Prelude.{◌+◌, ◌≤◌, [], ◌∷◌, ◌++◌, length};
ghost use Rattle.tower.specs.Limits.{degrees_of};
ghost use Rattle.kernel.specs.Refusals.{done, factor, refused};
ghost use Rattle.text.specs.Appending.{Appended};
ghost use Rattle.text.specs.Text.{tab, decimal};
ghost use Rattle.lines.specs.Answers.{answer_text, divided, SlotReady, SlotEnds, QuotientReady, ElementReady};
ghost use Rattle.lines.specs.Names.{line_end, name_div, name_inv};
ghost use Rattle.lines.specs.Printing.{element_text, slot_text, factor_text};

use super::form::{put_degree, put_form};
use text::bytes::{append, append_number};
use tower::sizes::{degrees, size_at, sizes};
use tower::words::{count_at, word_at};

// The shortest slot of elements of level i that holds what x holds: its degree word, and the coefficients up to its degree, at least one.
pub fn put_slot(out: &mut [u8], held: usize, i: usize, e: [i64; 4], x: &[i64]) -> usize
    requires { SlotReady held i e x.now out.old }
    ensures { Appended held (slot_text (degrees_of e) i x.now) out.old out.new result }
{
    let z = sizes(degrees(e));
    let k = count_at(x, 0).max(1);
    put_form(out, held, i + 1, z, x, 1 + k * size_at(z, i))
}

// The words of an element of level i.
pub fn put_element(out: &mut [u8], held: usize, i: usize, e: [i64; 4], x: &[i64]) -> usize
    requires { ElementReady held i e x.now out.old }
    ensures { Appended held (element_text (degrees_of e) i x.now) out.old out.new result }
{
    let z = sizes(degrees(e));
    put_form(out, held, i, z, x, size_at(z, i))
}

// The words of a factor: at level 0 a number.
pub fn put_factor(out: &mut [u8], held: usize, level: usize, e: [i64; 4], f: &[i64]) -> usize
    requires { ElementReady held level e f.now out.old }
    ensures { Appended held (factor_text (degrees_of e) level f.now) out.old out.new result }
{
    if level == 0 {
        put_degree(out, held, word_at(f, 0))
    } else {
        put_element(out, held, level, e, f)
    }
}

// A slot and a line end.
pub fn end_slot(out: &mut [u8], held: usize, i: usize, e: [i64; 4], x: &[i64]) -> usize
    requires { SlotEnds held i e x.now out.old }
    ensures { Appended held (slot_text (degrees_of e) i x.now ++ (line_end ∷ [])) out.old out.new result }
{
    let told = put_slot(out, held, i, e, x);
    append(out, told, b"\n")
}

// A number behind a tab, and a line end.
pub fn end_number(out: &mut [u8], held: usize, number: u64) -> usize
    requires { held + 22 ≤ length out.old }
    ensures { Appended held ((tab ∷ decimal number) ++ (line_end ∷ [])) out.old out.new result }
{
    let told = append_number(out, held, number);
    append(out, told, b"\n")
}

// The name of an operation, and what is said of it.
pub fn opened(out: &mut [u8], name: &[u8], said: &[u8]) -> usize
    requires { length name.now + length said.now ≤ length out.old }
    ensures { Appended 0 (name.now ++ said.now) out.old out.new result }
{
    let held = append(out, 0, name);
    append(out, held, said)
}

// The line of an answer that is a slot.
pub fn slot_line(out: &mut [u8], name: &[u8], i: usize, e: [i64; 4], x: &[i64]) -> usize
    requires { SlotEnds (length name.now + 3) i e x.now out.old }
    ensures { Appended 0 (answer_text name.now (degrees_of e) done (slot_text (degrees_of e) i x.now) []) out.old out.new result }
{
    let held = opened(out, name, b"\tok");
    end_slot(out, held, i, e, x)
}

// The line of a quotient and a remainder.
pub fn division_line(out: &mut [u8], i: usize, e: [i64; 4], q: &[i64], r: &[i64]) -> usize
    requires { QuotientReady i e q.now r.now out.old }
    ensures { Appended 0 (answer_text name_div (degrees_of e) done (divided (degrees_of e) i q.now r.now) []) out.old out.new result }
{
    let held = opened(out, b"div", b"\tok");
    let parted = put_slot(out, held, i, e, q);
    let named = append(out, parted, b"\trem");
    end_slot(out, named, i, e, r)
}

// The line of an inverse.
pub fn inverse_line(out: &mut [u8], i: usize, e: [i64; 4], x: &[i64]) -> usize
    requires { ElementReady 7 i e x.now out.old }
    ensures { Appended 0 (answer_text name_inv (degrees_of e) done (element_text (degrees_of e) i x.now) []) out.old out.new result }
{
    let held = opened(out, b"inv", b"\tok");
    let told = put_element(out, held, i, e, x);
    append(out, told, b"\n")
}

// The line of a shown factor.
//
// Stays: `as u64`, as std has no `From<usize>` for u64.
pub fn factor_line(out: &mut [u8], name: &[u8], level: usize, e: [i64; 4], f: &[i64]) -> usize
    requires { ElementReady (length name.now + 40) level e f.now out.old }
    ensures { Appended 0 (answer_text name.now (degrees_of e) (factor level) [] f.now) out.old out.new result }
{
    let said = opened(out, name, b"\tfactor");
    let levelled = append_number(out, said, level as u64);
    let told = put_factor(out, levelled, level, e, f);
    append(out, told, b"\n")
}

// The line of a refusal.
//
// Stays: `as u64`, as std has no `From<usize>` for u64.
pub fn refused_line(out: &mut [u8], name: &[u8], number: usize) -> usize
    requires { length name.now + 40 ≤ length out.old }
    ensures { Appended 0 (answer_text name.now [] (refused number) [] []) out.old out.new result }
{
    let said = opened(out, name, b"\trefused");
    end_number(out, said, number as u64)
}
