// A number in a field: an optional minus and digits.
ghost use Rattle.std.specs.Prelude.{◌≡◌, ◌≤◌};
ghost use Rattle.text.specs.Text.{magnitude_of, plain_of, negated_of, number_of};

// The value of 1 to `most` digits.
pub fn value(digits: &[u8], most: usize) -> Option<u64>
    requires { most ≤ 19 }
    ensures { result ≡ magnitude_of most digits.now }
{
    if digits.is_empty() || most < digits.len() {
        return None;
    }
    let mut sum: u64 = 0;
    for b in digits {
        if !b.is_ascii_digit() {
            return None;
        }
        sum = sum * 10 + u64::from(*b - b'0');
    }
    Some(sum)
}

// Digits as a number within the signed 64 bits.
pub fn plain(digits: &[u8], most: usize) -> Option<i64>
    requires { most ≤ 19 }
    ensures { result ≡ plain_of (magnitude_of most digits.now) }
{
    i64::try_from(value(digits, most)?).ok()
}

// Digits behind a minus.
pub fn negated(digits: &[u8], most: usize) -> Option<i64>
    requires { most ≤ 19 }
    ensures { result ≡ negated_of (magnitude_of most digits.now) }
{
    0i64.checked_sub_unsigned(value(digits, most)?)
}

// The number that text is: an optional minus and 1 to `most` digits, within the signed 64 bits.
pub fn number_of(text: &[u8], most: usize) -> Option<i64>
    requires { most ≤ 19 }
    ensures { result ≡ number_of most text.now }
{
    match text.strip_prefix(b"-") {
        Some(digits) => negated(digits, most),
        None => plain(text, most),
    }
}
