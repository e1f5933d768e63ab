// Product and division of slots. Each coefficient is a sum of products, made in a store to work in and copied out.
// Stays: degrees and sizes go as two arrays by value through every call, since document 01 has them so.
ghost use Rattle.std.specs.Prelude.{◌≡◌, ◌+◌, ◌^◌, ◌≤◌};
ghost use Rattle.polynomials.specs.Slots.{product_count, FinishReady, Finished, MultiplyReady, Multiplied, MultiplyAtReady, MultipliedAt};
ghost use Rattle.polynomials.specs.Slots.{DivideReady, Parted, DivideRowReady, DividedRow, PlaceReady, Placed};

use arithmetic::places::{Source, first_of, span_of};
use arithmetic::rows::settle;
use products::Operands;
use products::product::product;
use tower::form::coefficient_at;
use tower::sizes::size_at;
use tower::store::{copy_in, zeros};
use tower::words::count_at;

// How many coefficients a product of polynomials with ca and cb has.
pub fn product_count(ca: usize, cb: usize) -> usize
    requires { ca + cb ≤ 2 ^ 63 }
    ensures { result ≡ product_count ca cb }
{
    if ca == 0 || cb == 0 { 0 } else { ca + cb - 1 }
}

// Ends a slot of k coefficients of level i whose others stand: n zeros from the place `from` on, and the degree word.
pub fn finish(
    i: usize,
    k: usize,
    from: usize,
    n: usize,
    d: [usize; 4],
    z: [usize; 5],
    w: &mut [i64],
)
    requires { FinishReady i k from n d z w.old }
    ensures { Finished i k from n d w.old w.new }
{
    let s = size_at(z, i);
    zeros(i, n, d, z, w, coefficient_at(0, from, s));
    settle(i, k, s, w, 0);
}

// The j-th coefficient of the product of the slots a and b, which have ca and cb of them, into c.
pub fn multiply_at(
    j: usize,
    i: usize,
    d: [usize; 4],
    z: [usize; 5],
    p: u64,
    t: &[i64],
    a: &[i64],
    ca: usize,
    b: &[i64],
    cb: usize,
    c: &mut [i64],
    w: &mut [i64],
)
    requires { MultiplyAtReady j i d z p t.now a.now ca b.now cb c.old w.old }
    ensures { MultipliedAt j i d p t.now a.now ca b.now cb c.old c.new w.old w.new }
{
    let s = size_at(z, i);
    let x = coefficient_at(0, first_of(cb, j), s);
    let y = coefficient_at(0, first_of(ca, j), s);
    let n = span_of(ca, cb, j);
    let m = [0usize; 4];
    let e = Source {
        lent: Some(t),
        at: 0,
    };
    let o = Operands {
        i,
        x: Source {
            lent: Some(a),
            at: x,
        },
        y: Source {
            lent: Some(b),
            at: y,
        },
        n,
    };
    product(i, d, z, p, m, e, o, false, false, w, 0, s);
    copy_in(w, 0, c, coefficient_at(0, j, s), s);
}

// The product of the slots a and b into c, a slot of k coefficients of level i.
pub fn multiply(
    i: usize,
    k: usize,
    d: [usize; 4],
    z: [usize; 5],
    p: u64,
    t: &[i64],
    a: &[i64],
    b: &[i64],
    c: &mut [i64],
    w: &mut [i64],
)
    requires { MultiplyReady i k d z p t.now a.now b.now c.old w.old }
    ensures { Multiplied i k d p t.now a.now b.now c.old c.new w.old w.new }
{
    let ca = count_at(a, 0);
    let cb = count_at(b, 0);
    let h = product_count(ca, cb);
    for j in 0..h {
        multiply_at(j, i, d, z, p, t, a, ca, b, cb, c, w);
    }
    finish(i, k, h, k - h, d, z, c);
}

// Writes the s words at the front of the store w as the k-th coefficient of a divided row: into a below g, and else into q.
pub fn place_coefficient(k: usize, g: usize, s: usize, w: &[i64], a: &mut [i64], q: &mut [i64])
    requires { PlaceReady k g s w.now a.old q.old }
    ensures { Placed k g s w.now a.old a.new q.old q.new }
{
    if k < g {
        copy_in(w, 0, a, coefficient_at(0, k, s), s);
    } else {
        copy_in(w, 0, q, coefficient_at(0, k - g, s), s);
    }
}

// Divides the cap coefficients in the slot a by the polynomial with the g lowest coefficients of b under its leading 1: the remainder's stay in
// a, the quotient's go into q. The top one is the quotient's as it stands.
pub fn divide_row(
    i: usize,
    d: [usize; 4],
    z: [usize; 5],
    p: u64,
    t: &[i64],
    a: &mut [i64],
    b: &[i64],
    g: usize,
    cap: usize,
    q: &mut [i64],
    w: &mut [i64],
)
    requires { DivideRowReady i d z p t.now a.old b.now g cap q.old w.old }
    ensures { DividedRow i d p t.now a.old a.new b.now g cap q.old q.new w.old w.new }
{
    let s = size_at(z, i);
    let m = [0usize; 4];
    let e = Source {
        lent: Some(t),
        at: 0,
    };
    let high = cap - 1;
    copy_in(
        a,
        coefficient_at(0, high, s),
        q,
        coefficient_at(0, high - g, s),
        s,
    );
    for k in (0..high).rev() {
        let x = coefficient_at(0, first_of(cap - g, k), s);
        let y = coefficient_at(0, first_of(g, k), s);
        let n = span_of(g, cap - g, k);
        copy_in(a, coefficient_at(0, k, s), w, 0, s);
        let o = Operands {
            i,
            x: Source {
                lent: Some(b),
                at: x,
            },
            y: Source {
                lent: Some(q),
                at: y,
            },
            n,
        };
        product(i, d, z, p, m, e, o, true, true, w, 0, s);
        place_coefficient(k, g, s, w, a, q);
    }
}

// Divides the slot a, of ka coefficients, by the monic slot b: the remainder replaces a, the quotient goes into q, a slot of kq coefficients.
pub fn divide(
    i: usize,
    ka: usize,
    kq: usize,
    d: [usize; 4],
    z: [usize; 5],
    p: u64,
    t: &[i64],
    a: &mut [i64],
    b: &[i64],
    q: &mut [i64],
    w: &mut [i64],
)
    requires { DivideReady i ka kq d z p t.now a.old b.now q.old w.old }
    ensures { Parted i ka kq d p t.now a.old a.new b.now q.old q.new w.old w.new }
{
    let cap = count_at(a, 0);
    let g = count_at(b, 0) - 1;
    if cap <= g {
        finish(i, kq, 0, kq, d, z, q);
    } else {
        divide_row(i, d, z, p, t, a, b, g, cap, q, w);
        finish(i, ka, g, cap - g, d, z, a);
        finish(i, kq, cap - g, kq - (cap - g), d, z, q);
    }
}
