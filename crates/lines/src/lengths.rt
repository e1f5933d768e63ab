// The lengths of the lists that an operation lends to the kernel.
ghost use Rattle.std.specs.Prelude.{◌≡◌, ◌<◌, ◌≤◌};
ghost use Rattle.lines.specs.Steps.{lent_element, slot_words, most_element};

use kernel::Answer;
use tower::sizes::{degrees, size_at, sizes};
use tower::words::nat;

// The words of an answer slot at most.
pub const ANSWER_WORDS: usize = 4096;

// The words of a factor: no element has more.
pub const FACTOR_WORDS: usize = 2048;

// The words of the work store.
pub const WORK_WORDS: usize = 8192;

// S_N, or 1 where N and the degrees are out of range.
pub fn element_words(n: i64, e: [i64; 4]) -> usize
    ensures { result ≡ lent_element n e }
{
    match kernel::work_sizes(n, e, -1, -1).answer {
        Answer::Done => size_at(sizes(degrees(e)), nat(n)),
        Answer::Factor(_) | Answer::Refused(_) => 1,
    }
}

// The words of the longest slot that is allowed within ANSWER_WORDS, of elements of s words.
pub fn slot_words(s: usize) -> usize
    requires { (0 < s) × (s ≤ most_element) }
    ensures { result ≡ slot_words s }
{
    1 + ((ANSWER_WORDS - 1) / s).min(256) * s
}
