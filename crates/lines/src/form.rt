// The words of elements and slots, printed by form: which of them are degree words, and which are residues.
//
// Stays: how many bytes are held goes beside the bytes, for the reason that src/bytes.rt of text gives.
ghost use Rattle.std.specs.Prelude.{List, ℕ, ◌+◌, ◌≤◌, length};
ghost use Rattle.tower.specs.Ready.{Sized};
ghost use Rattle.text.specs.Appending.{Appended};
ghost use Rattle.lines.specs.Printing.{residue_text, degree_text, place_text, DegreeTold, FormReady, FormPut};

use text::bytes::append_word;
use tower::sizes::size_at;

// Whether the k-th word of an element of level i is a degree word. Slots are printed as an element of one level more, which has any number of coefficients.
pub fn degree_at(i: usize, z: [usize; 5], k: usize) -> bool
    requires { (i ≤ 5) × ((d : List ℕ) × Sized d z) }
    ensures { DegreeTold z i k result }
{
    let mut at = k;
    for level in (0..i).rev() {
        if at == 0 {
            return true;
        }
        at = (at - 1) % size_at(z, level);
    }
    false
}

// A residue behind a tab.
pub fn put_residue(out: &mut [u8], held: usize, w: i64) -> usize
    requires { held + 21 ≤ length out.old }
    ensures { Appended held (residue_text w) out.old out.new result }
{
    append_word(out, held, w)
}

// A degree word behind a tab.
//
// Stays: a function beside `put_residue`, which does the same today. docs/DECISIONS.md, "Printing goes by form", keeps the two apart: a later request changes
// how residues are printed, and degree words stay.
pub fn put_degree(out: &mut [u8], held: usize, w: i64) -> usize
    requires { held + 21 ≤ length out.old }
    ensures { Appended held (degree_text w) out.old out.new result }
{
    append_word(out, held, w)
}

// One word, by what it is.
pub fn put_word(out: &mut [u8], held: usize, degree: bool, w: i64) -> usize
    requires { held + 21 ≤ length out.old }
    ensures { Appended held (place_text degree w) out.old out.new result }
{
    if degree {
        put_degree(out, held, w)
    } else {
        put_residue(out, held, w)
    }
}

// The first n words of x, which has the form of an element of level i.
pub fn put_form(out: &mut [u8], held: usize, i: usize, z: [usize; 5], x: &[i64], n: usize) -> usize
    requires { FormReady i n held z x.now out.old }
    ensures { FormPut i n held z x.now out.old out.new result }
{
    let mut told = held;
    for (k, w) in x[..n].iter().enumerate() {
        told = put_word(out, told, degree_at(i, z, k), *w);
    }
    told
}
