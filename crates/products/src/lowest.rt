// The two lowest levels of a product, and how an answer is left: a sum of products of residues; at level 1 all coefficients from the top down, each
// the residue of its own sum and of what the quotient's coefficients above it take away. Elements of level 1 with two or four coefficients have three or
// seven sums, which are made at once.
ghost use Rattle.std.specs.Prelude.{◌≡◌, ◌+◌, ◌<◌, pos, set};
ghost use Rattle.residue.specs.Number.{sum_of, Below};
ghost use Rattle.residue.specs.Word.{at};
ghost use Rattle.tower.specs.Levels.{degree};
ghost use Rattle.products.specs.Product.{operands, ProductReady, ProductDone};
ghost use Rattle.arithmetic.specs.Walk.{pick};
ghost use Rattle.products.specs.Lowest.{old_number, OldReady, SingleReady, single_number, PairsAtReady, SummedAt, DividedReady, divided_number};
ghost use Rattle.products.specs.Lowest.{WriteReady, written_number, SumsReady, LowestDone, LeaveReady, Left};
ghost use Rattle.arithmetic.specs.Sources.{lent, stored};

use super::Operands;
use arithmetic::lines::{line, seven, three};
use arithmetic::places::{Source, first_of, keeps, loses, span_of, wide_of, with_place};
use arithmetic::rows::settle;
use arithmetic::sum::gain;
use arithmetic::walk::{dot, sum_pairs};
use residue::Accumulator;
use tower::sizes::degree_at;
use tower::store::copy;

// The residue at a place where it is kept, and else 0.
pub fn old_at(keep: bool, p: u64, w: &[i64], c: usize) -> u64
    requires { OldReady p keep w.now c }
    ensures { result ≡ old_number keep (at w.now c) }
{
    if keep { residue::get_residue(w, c) } else { 0 }
}

// Level 0: the residue at c gains, or loses where neg, what the pairs come to at the places m.
pub fn single(
    d: [usize; 4],
    z: [usize; 5],
    p: u64,
    m: [usize; 4],
    o: Operands,
    neg: bool,
    keep: bool,
    w: &mut [i64],
    c: usize,
)
    requires { SingleReady d z p m (operands o) keep w.old c }
    ensures { w.new ≡ set w.old c (pos (single_number d p m (operands o.entry) neg keep w.old c)) }
{
    let x = o.x.words(w);
    let y = o.y.words(w);
    let s = sum_pairs(o.i, d, z, m, x, o.x.at, y, o.y.at, o.n);
    let v = residue::reduce(s, p);
    let u = old_at(keep, p, w, c);
    residue::put(w, c, gain(neg, u, v, p));
}

// What the pairs come to at the place k of level 1, and at the places m above.
pub fn pairs_at(
    k: usize,
    g: usize,
    d: [usize; 4],
    z: [usize; 5],
    m: [usize; 4],
    o: Operands,
    w: &[i64],
) -> Accumulator
    requires { PairsAtReady g d z m (operands o) w.now k }
    ensures { SummedAt d m (operands o.entry) w.now k result.lo result.hi }
{
    let x = o.x.words(w);
    let y = o.y.words(w);
    if o.i == 1 {
        return line(g, k, x, o.x.at, y, o.y.at, o.n);
    }
    sum_pairs(o.i, d, z, with_place(m, 0, k), x, o.x.at, y, o.y.at, o.n)
}

// The residue of a sum and of what the quotient's coefficients above the k-th, which stand negated, take away.
pub fn divided_at(
    k: usize,
    g: usize,
    p: u64,
    e: Source,
    w: &[i64],
    top: usize,
    s: Accumulator,
) -> u64
    requires { DividedReady g p (pick (stored e) w.now (lent e)) e.at w.now top k s.lo s.hi }
    ensures { Below p (divided_number g p (pick (stored e.entry) w.now (lent e.entry)) e.entry.at w.now top k (sum_of s.lo s.hi)) result }
{
    let c = span_of(g, g - 1, k);
    let f = e.at + 1 + first_of(g - 1, k);
    let q = top + g + first_of(g, k);
    residue::reduce(dot(e.words(w), f, w, q, c, 1, s), p)
}

// Writes the k-th coefficient from the sum of its pairs: below g what the element at c comes to there, above that the negated quotient's.
pub fn write_at(
    k: usize,
    g: usize,
    p: u64,
    e: Source,
    neg: bool,
    keep: bool,
    w: &mut [i64],
    c: usize,
    top: usize,
    s: Accumulator,
)
    requires { WriteReady g p (pick (stored e) w.old (lent e)) e.at keep w.old c top k s.lo s.hi }
    ensures { w.new ≡ set w.old (top + k)
        (pos (written_number g p (pick (stored e.entry) w.old (lent e.entry)) e.entry.at neg keep w.old c top k (sum_of s.lo s.hi))) }
{
    let v = divided_at(k, g, p, e, w, top, s);
    let u = old_at(keeps(keep, k, g), p, w, c + 1 + k);
    residue::put(w, top + k, gain(loses(neg, k, g), u, v, p));
}

// Level 1, elements of g coefficients, where the sums of all N places are made: all coefficients, from the top down.
pub fn lowest_from<const N: usize>(
    s: [Accumulator; N],
    g: usize,
    d: [usize; 4],
    z: [usize; 5],
    p: u64,
    m: [usize; 4],
    e: Source,
    o: Operands,
    neg: bool,
    keep: bool,
    w: &mut [i64],
    c: usize,
    top: usize,
)
    requires sums { SumsReady N g d (operands o) w.old s }
    requires ready { ProductReady 1 d z p m (lent e) (stored e) e.at (operands o) keep w.old c top }
    ensures { LowestDone d p m (lent e.entry) (stored e.entry) e.entry.at (operands o.entry) neg keep w.old w.new c top }
{
    // The quotient's, and then the others.
    // Stays: two loops of the same body, which the compiler writes out; as one loop of seven a product of one pair over d = 4 took a quarter more time.
    for h in (g..N).rev() {
        write_at(h, g, p, e, neg, keep, w, c, top, s[h]);
    }
    for k in (0..g).rev() {
        write_at(k, g, p, e, neg, keep, w, c, top, s[k]);
    }
}

// Level 1: all coefficients, from top on; below g what the element at c comes to, above that the negated quotient.
pub fn lowest(
    d: [usize; 4],
    z: [usize; 5],
    p: u64,
    m: [usize; 4],
    e: Source,
    o: Operands,
    neg: bool,
    keep: bool,
    w: &mut [i64],
    c: usize,
    top: usize,
)
    requires { ProductReady 1 d z p m (lent e) (stored e) e.at (operands o) keep w.old c top }
    ensures { LowestDone d p m (lent e.entry) (stored e.entry) e.entry.at (operands o.entry) neg keep w.old w.new c top }
{
    let g = degree_at(d, 0);
    match (o.i, g) {
        (1, 2) => {
            let s = three(o.x.words(w), o.x.at, o.y.words(w), o.y.at, o.n);
            lowest_from(s, g, d, z, p, m, e, o, neg, keep, w, c, top);
        }
        (1, 4) => {
            let s = seven(o.x.words(w), o.x.at, o.y.words(w), o.y.at, o.n);
            lowest_from(s, g, d, z, p, m, e, o, neg, keep, w, c, top);
        }
        _ => {
            for k in (0..wide_of(g)).rev() {
                let s = pairs_at(k, g, d, z, m, o, w);
                write_at(k, g, p, e, neg, keep, w, c, top, s);
            }
        }
    }
}

// The g elements of level i, each of s words, from top on become the slot at c.
pub fn leave(i: usize, g: usize, s: usize, w: &mut [i64], c: usize, top: usize)
    requires { LeaveReady g s w.old c top }
    ensures { Left i g s w.old w.new c top }
{
    copy(w, c + 1, top, g * s);
    settle(i, g, s, w, c);
}

// Levels 0 and 1: the element of level j at c gains, or loses where neg, what the pairs come to at the places m; without keep it starts at zero.
pub fn low_product(
    j: usize,
    d: [usize; 4],
    z: [usize; 5],
    p: u64,
    m: [usize; 4],
    e: Source,
    o: Operands,
    neg: bool,
    keep: bool,
    w: &mut [i64],
    c: usize,
    top: usize,
)
    requires { (j < 2) × ProductReady j d z p m (lent e) (stored e) e.at (operands o) keep w.old c top }
    ensures { ProductDone j d p m (lent e.entry) (stored e.entry) e.entry.at (operands o.entry) neg keep w.old w.new c top }
{
    if j == 0 {
        single(d, z, p, m, o, neg, keep, w, c);
    } else {
        lowest(d, z, p, m, e, o, neg, keep, w, c, top);
        leave(0, degree_at(d, 0), 1, w, c, top);
    }
}
