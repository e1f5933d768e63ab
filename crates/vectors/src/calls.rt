// The calls of the kernel, one function for each: it reads the numbers of a line, makes the call
// and prints the answer, and behind it every lent list as it is afterwards. A list is lent where
// it stands among the numbers.
use crate::numbers::{BadLine, Numbers};
use crate::output::{Answered, Lists, Output};
use kernel::Answer;

// The calls that a line can name.
#[derive(Clone, Copy)]
pub enum Call {
    Fraction,
    Sizes,
    Tower,
    Slot,
    View,
    Sum,
    Difference,
    Product,
    Division,
    Inverse,
    Gcd,
}

// The call of this name.
impl TryFrom<&[u8]> for Call {
    type Error = BadLine;

    fn try_from(name: &[u8]) -> Result<Call, BadLine> {
        match name {
            b"fraction" => Ok(Call::Fraction),
            b"sizes" => Ok(Call::Sizes),
            b"tower" => Ok(Call::Tower),
            b"slot" => Ok(Call::Slot),
            b"view" => Ok(Call::View),
            b"sum" => Ok(Call::Sum),
            b"difference" => Ok(Call::Difference),
            b"product" => Ok(Call::Product),
            b"division" => Ok(Call::Division),
            b"inverse" => Ok(Call::Inverse),
            b"gcd" => Ok(Call::Gcd),
            _ => Err(BadLine),
        }
    }
}

impl Call {
    // Makes the call on these numbers.
    pub fn make(self, numbers: &mut Numbers, out: &mut Output) -> Result<(), BadLine> {
        match self {
            Call::Fraction => fraction(numbers, out),
            Call::Sizes => sizes(numbers, out),
            Call::Tower => tower(numbers, out),
            Call::Slot => slot(numbers, out),
            Call::View => view(numbers, out),
            Call::Sum => gain("sum", kernel::sum, numbers, out),
            Call::Difference => gain("difference", kernel::difference, numbers, out),
            Call::Product => product(numbers, out),
            Call::Division => division(numbers, out),
            Call::Inverse => inverse(numbers, out),
            Call::Gcd => gcd(numbers, out),
        }
    }
}

// The call's name, its answer and the lists that were lent to it.
fn answered(out: &mut Output, name: &str, answer: Answer, lists: &[&[i64]]) {
    out.line(format_args!("{name}\t{}{}", Answered(answer), Lists(lists)));
}

// p n e
fn fraction(numbers: &mut Numbers, out: &mut Output) -> Result<(), BadLine> {
    let p = numbers.word()?;
    let n = numbers.word()?;
    let e = numbers.word()?;
    numbers.end()?;
    let r = kernel::residue_of_fraction(p, n, e);
    out.line(format_args!("fraction\t{}\t{}", Answered(r.answer), r.residue));
    Ok(())
}

// N d1 d2 d3 d4 deg_a deg_b
fn sizes(numbers: &mut Numbers, out: &mut Output) -> Result<(), BadLine> {
    let n = numbers.word()?;
    let degrees = numbers.degrees()?;
    let degree_a = numbers.word()?;
    let degree_b = numbers.word()?;
    numbers.end()?;
    let w = kernel::work_sizes(n, degrees, degree_a, degree_b);
    out.line(format_args!(
        "sizes\t{}\t{}\t{}\t{}",
        Answered(w.answer),
        w.product,
        w.inverse,
        w.gcd
    ));
    Ok(())
}

// p N d1 d2 d3 d4, the tower's words
fn tower(numbers: &mut Numbers, out: &mut Output) -> Result<(), BadLine> {
    let over = numbers.over()?;
    numbers.end()?;
    let answer = kernel::check_tower(over.p, over.n, over.degrees, over.tower);
    answered(out, "tower", answer, &[over.tower]);
    Ok(())
}

// p N d1 d2 d3 d4, the tower's words, the slot's words
fn slot(numbers: &mut Numbers, out: &mut Output) -> Result<(), BadLine> {
    let over = numbers.over()?;
    let slot = numbers.list()?;
    numbers.end()?;
    let answer = kernel::check_slot(over.p, over.n, over.degrees, over.tower, slot);
    answered(out, "slot", answer, &[over.tower, slot]);
    Ok(())
}

// Leading view: p N d1 d2 d3 d4, the tower's words, the words of a, the words of b. What it shows
// goes first, as a list.
fn view(numbers: &mut Numbers, out: &mut Output) -> Result<(), BadLine> {
    let over = numbers.over()?;
    let a = numbers.list()?;
    let b = numbers.list()?;
    numbers.end()?;
    let shown = kernel::leading_view(over.p, over.n, over.degrees, over.tower, a, b);
    out.line(format_args!("view{}", Lists(&[shown, over.tower, a, b])));
    Ok(())
}

// Sum or difference: p N d1 d2 d3 d4, the tower's words, the words of a, the words of b
fn gain<F: FnOnce(i64, i64, [i64; 4], &[i64], &mut [i64], &[i64]) -> Answer>(
    name: &str,
    call: F,
    numbers: &mut Numbers,
    out: &mut Output,
) -> Result<(), BadLine>
    requires { F.IsAlwaysCallable call }
{
    let over = numbers.over()?;
    let a = numbers.changed()?;
    let b = numbers.list()?;
    numbers.end()?;
    let answer = call(over.p, over.n, over.degrees, over.tower, a, b);
    answered(out, name, answer, &[over.tower, a, b]);
    Ok(())
}

// Product: p N d1 d2 d3 d4, the tower's words, the words of a, of b, of c and of the work store
// Stays: a function for each call from here on, since each reads other lists and hands them to
// another call of the kernel.
fn product(numbers: &mut Numbers, out: &mut Output) -> Result<(), BadLine> {
    let over = numbers.over()?;
    let a = numbers.list()?;
    let b = numbers.list()?;
    let c = numbers.changed()?;
    let work = numbers.changed()?;
    numbers.end()?;
    let answer = kernel::product(over.p, over.n, over.degrees, over.tower, a, b, c, work);
    answered(out, "product", answer, &[over.tower, a, b, c, work]);
    Ok(())
}

// Division: p N d1 d2 d3 d4, the tower's words, the words of a, of b, of q and of the work store
fn division(numbers: &mut Numbers, out: &mut Output) -> Result<(), BadLine> {
    let over = numbers.over()?;
    let a = numbers.changed()?;
    let b = numbers.list()?;
    let q = numbers.changed()?;
    let work = numbers.changed()?;
    numbers.end()?;
    let answer = kernel::division(over.p, over.n, over.degrees, over.tower, a, b, q, work);
    answered(out, "division", answer, &[over.tower, a, b, q, work]);
    Ok(())
}

// Inverse: p N d1 d2 d3 d4, the tower's words, the words of c, of r, of the factor buffer and of the
// work store
fn inverse(numbers: &mut Numbers, out: &mut Output) -> Result<(), BadLine> {
    let over = numbers.over()?;
    let c = numbers.list()?;
    let r = numbers.changed()?;
    let factor = numbers.changed()?;
    let work = numbers.changed()?;
    numbers.end()?;
    let answer = kernel::inverse(over.p, over.n, over.degrees, over.tower, c, r, factor, work);
    answered(out, "inverse", answer, &[over.tower, c, r, factor, work]);
    Ok(())
}

// GCD: p N d1 d2 d3 d4, the tower's words, the words of a, of b, of g, of the factor buffer and of the
// work store
fn gcd(numbers: &mut Numbers, out: &mut Output) -> Result<(), BadLine> {
    let over = numbers.over()?;
    let a = numbers.list()?;
    let b = numbers.list()?;
    let g = numbers.changed()?;
    let factor = numbers.changed()?;
    let work = numbers.changed()?;
    numbers.end()?;
    let answer = kernel::gcd(
        over.p,
        over.n,
        over.degrees,
        over.tower,
        a,
        b,
        g,
        factor,
        work,
    );
    answered(out, "gcd", answer, &[over.tower, a, b, g, factor, work]);
    Ok(())
}
