// The leading view: its tests are the first of `sums`; what it shows is a part of a or of b.
ghost use Rattle.std.specs.Prelude.{◌≡◌, ◌+◌, ◌*◌, ◌<◌, ◌≤◌, length};
ghost use Rattle.kernel.specs.Promises.{LeadingShown};
ghost use Rattle.kernel.specs.Slots.{degree_count};
ghost use Rattle.kernel.specs.Views.{top_words};

use super::sums::view_checked;
use super::towers::Tower;
use tower::form::coefficient_at;
use tower::words::count_at;

// The words of the leading coefficient, of s words, of what a slot holds; none of zero.
pub fn leading_words(s: usize, a: &[i64]) -> &[i64]
    requires { (0 < length a.now) × (degree_count a.now * s < length a.now) × (length a.now ≤ 65536) }
    ensures { result.now ≡ top_words s a.now }
{
    let c = count_at(a, 0);
    if c == 0 {
        return &a[..0];
    }
    let start = coefficient_at(0, c - 1, s);
    let end = start + s;
    &a[start..end]
}

// The leading coefficient of a or b.
pub fn leading<'a>(tower: Tower<'_>, a: &'a [i64], b: &'a [i64]) -> &'a [i64]
    ensures { let x = tower.entry in LeadingShown x.p x.n x.e x.t.now a.now b.now result.now }
{
    let Ok(s) = view_checked(tower, a, b) else {
        return &a[..0];
    };
    if count_at(a, 0) < count_at(b, 0) {
        leading_words(s.size, b)
    } else {
        leading_words(s.size, a)
    }
}
