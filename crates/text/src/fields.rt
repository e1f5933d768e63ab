// The fields of a line, parted by tabs.
ghost use Rattle.std.specs.Prelude.{◌≡◌, ◌≤◌, length};
ghost use Rattle.text.specs.Fields.{fields_at, most_bytes, most_words, Ends, WordsRead};
ghost use Rattle.text.specs.Text.{same_text};

use super::numbers::number_of;

// The most words that a line carries.
pub const MOST_WORDS: usize = 512;

// The most digits of a number.
pub const MOST_DIGITS: usize = 10;

// Whether a and b hold the same bytes.
//
// Stays: `==` takes no array beside a slice. Each caller would write `name == b"a".as_slice()` or `name == &b"a"[..]`, no plainer than `same(name, b"a")`.
pub fn same(a: &[u8], b: &[u8]) -> bool
    ensures { result ≡ same_text a.now b.now }
{
    a == b
}

// Where the field that begins at `from` ends: at the next tab, or with the line.
pub fn field_end(text: &[u8], from: usize) -> usize
    requires { from ≤ length text.now }
    ensures { Ends text.now from result }
{
    for i in from..text.len() {
        if text[i] == b'\t' {
            return i;
        }
    }
    text.len()
}

// The numbers of the fields from `from` on, into words: how many they are, or None where a field is no number or there are too many.
pub fn read_words(text: &[u8], from: usize, words: &mut [i64]) -> Option<usize>
    requires { ((from ≤ length text.now) × (length text.now ≤ most_bytes)) × (most_words ≤ length words.old) }
    ensures { WordsRead words.new result (fields_at text.now from) }
{
    let mut n: usize = 0;
    for field in text[from..].split(|b| *b == b'\t') {
        let word = number_of(field, MOST_DIGITS)?;
        if MOST_WORDS <= n {
            return None;
        }
        words[n] = word;
        n += 1;
    }
    Some(n)
}
