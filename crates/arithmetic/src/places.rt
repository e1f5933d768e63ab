// Places in windows, rows and levels.
ghost use Rattle.std.specs.Prelude.{◌≡◌, ◌+◌, ◌*◌, ◌^◌, ◌<◌, ◌≤◌, get_or, set};
ghost use Rattle.arithmetic.specs.Places.{keeps_at, loses_at, wide};
ghost use Rattle.algebra.specs.Windows.{first, span};
ghost use Rattle.arithmetic.specs.Walk.{pick};
ghost use Rattle.arithmetic.specs.Sources.{lent, stored};

// Words to read: of a lent list or, where there is none, of the store, from a place on.
#[derive(Clone, Copy)]
pub struct Source<'a> {
    pub lent: Option<&'a [i64]>,
    pub at: usize,
}

impl<'a> Source<'a> {
    // The list that such words stand in, beside the store w.
    pub fn words(self, w: &'a [i64]) -> &'a [i64]
        ensures { result.now ≡ pick (stored self.entry) w.now (lent self.entry) }
    {
        self.lent.unwrap_or(w)
    }
}

// The place of level i + 1.
pub fn place_at(m: [usize; 4], i: usize) -> usize
    requires { i < 4 }
    ensures { result ≡ get_or m i 0 }
{
    m[i]
}

// The first coefficient that meets one of n others at the place k of a product.
pub fn first_of(n: usize, k: usize) -> usize
    requires { k + 1 < 2 ^ 64 }
    ensures { result ≡ first n k }
{
    (k + 1).saturating_sub(n)
}

// How many pairs of m and n coefficients meet at the place k of their product.
pub fn span_of(m: usize, n: usize, k: usize) -> usize
    requires { (k + 1 ≤ m + n) × (k + 1 < 2 ^ 64) }
    ensures { result ≡ span m n k }
{
    k + 1 - first_of(n, k) - first_of(m, k)
}

// The places with k for level i + 1.
pub fn with_place(mut m: [usize; 4], i: usize, k: usize) -> [usize; 4]
    requires { i < 4 }
    ensures { result ≡ set m i k }
{
    m[i] = k;
    m
}

// How many coefficients a product of two polynomials of g coefficients has.
pub fn wide_of(g: usize) -> usize
    requires { (0 < g) × (g + g < 2 ^ 64) }
    ensures { result ≡ wide g }
{
    g + g - 1
}

// Where the k-th part of s words stands from a on.
pub fn part_at(a: usize, k: usize, s: usize) -> usize
    requires { a + k * s < 2 ^ 64 }
    ensures { result ≡ a + k * s }
{
    a + k * s
}

// Whether the k-th of g coefficients is kept.
pub fn keeps(keep: bool, k: usize, g: usize) -> bool
    ensures { result ≡ keeps_at keep k g }
{
    keep && k < g
}

// Whether the k-th of such coefficients is subtracted: all from g on are.
pub fn loses(neg: bool, k: usize, g: usize) -> bool
    ensures { result ≡ loses_at neg k g }
{
    g <= k || neg
}
