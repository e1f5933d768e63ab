// Words as numbers. A degree word is -1 for zero; its count is one more than the degree.
ghost use Rattle.std.specs.Prelude.{◌≡◌, ◌<◌, pos, length, get_or};
ghost use Rattle.residue.specs.Word.{num};
ghost use Rattle.tower.specs.Writing.{count_of};

// The word at a place.
pub fn word_at(x: &[i64], a: usize) -> i64
    requires { a < length x.now }
    ensures { result ≡ get_or x.now a (pos 0) }
{
    x[a]
}

// The number that a word holds, 0 for a negative one.
// Stays: beside residue::number, the same as u64: each is one call of std, and a generic one would say more than both.
pub fn nat(g: i64) -> usize
    ensures { result ≡ num g }
{
    usize::try_from(g).unwrap_or(0)
}

// The coefficients up to the highest, from a degree word: one more than the degree, 0 for zero.
pub fn count(g: i64) -> usize
    ensures { result ≡ count_of g }
{
    usize::try_from(g).map_or(0, |n| n + 1)
}

// The same of the degree word at a place.
pub fn count_at(x: &[i64], a: usize) -> usize
    requires { a < length x.now }
    ensures { result ≡ count_of (get_or x.now a (pos 0)) }
{
    count(word_at(x, a))
}
