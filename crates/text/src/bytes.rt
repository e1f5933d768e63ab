// Text gathered in a store of bytes: each function takes how many bytes of the store are held and gives how many are held after it.
//
// Stays: the number goes beside the bytes. A struct that lends them was tried: each contract then has a second clause, that it lends the same bytes as before.
ghost use Rattle.std.specs.Prelude.{◌+◌, ◌≤◌, ◌∷◌, length};
ghost use Rattle.text.specs.Appending.{Appended};
ghost use Rattle.text.specs.Text.{tab, decimal, word_text};

use residue::magnitude;

// The text behind the bytes that are held.
pub fn append(out: &mut [u8], held: usize, text: &[u8]) -> usize
    requires { held + length text.now ≤ length out.old }
    ensures { Appended held text.now out.old out.new result }
{
    let end = held + text.len();
    out[held..end].copy_from_slice(text);
    end
}

// The digits of n.
pub fn append_digits(out: &mut [u8], held: usize, n: u64) -> usize
    requires { held + length (decimal n) ≤ length out.old }
    ensures { Appended held (decimal n) out.old out.new result }
{
    let mut digits = [0u8; 20];
    let k = io::decimal(n, &mut digits);
    append(out, held, &digits[..k])
}

// A tab and the digits of n.
pub fn append_number(out: &mut [u8], held: usize, n: u64) -> usize
    requires { held + 21 ≤ length out.old }
    ensures { Appended held (tab ∷ decimal n) out.old out.new result }
{
    let parted = append(out, held, b"\t");
    append_digits(out, parted, n)
}

// A tab and a word.
pub fn append_word(out: &mut [u8], held: usize, w: i64) -> usize
    requires { held + 21 ≤ length out.old }
    ensures { Appended held (tab ∷ word_text w) out.old out.new result }
{
    if w < 0 {
        let signed = append(out, held, b"\t-");
        append_digits(out, signed, magnitude(w))
    } else {
        append_number(out, held, magnitude(w))
    }
}
