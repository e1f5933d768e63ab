// What is kept between lines.
ghost use Rattle.std.specs.Prelude.{true};
ghost use Rattle.lines.specs.Kept.{Begins, ExtReady, Extended, AllowedBy, KeepReady, KeptBy};
ghost use Rattle.lines.specs.Steps.{nothing, fresh};

use crate::{Kept, Line, Stores};

// The most levels.
pub const MOST_LEVELS: usize = 4;

// The words of the store of a tower, which four lines can fill.
pub const TOWER_WORDS: usize = 2048;

// Before the first line.
pub fn nothing() -> Kept
    ensures { Begins result nothing }
{
    Kept {
        field: None,
        levels: 0,
        degrees: [0i64; 4],
        tower: TOWER_WORDS,
        a: 0,
        b: 0,
    }
}

// A field and nothing else.
pub fn fresh(p: i64) -> Kept
    ensures { Begins result (fresh true p) }
{
    Kept {
        field: Some(p),
        ..nothing()
    }
}

// A level more, without a and b.
pub fn extended(k: Kept, degree: i64, n: usize) -> Kept
    requires { ExtReady k n }
    ensures { Extended k degree n result }
{
    let mut degrees = k.degrees;
    degrees[k.levels] = degree;
    Kept {
        levels: k.levels + 1,
        degrees,
        tower: k.tower - n,
        a: 0,
        b: 0,
        ..k
    }
}

// What is kept after a line that is allowed here; the words that it carries stand in words. One that is unreadable changes nothing.
pub fn keep(line: Option<Line>, k: Kept, words: &[i64], s: &mut Stores) -> Kept
    requires { KeepReady line k words.now }
    ensures { KeptBy line k words.now s.old.tower s.old.a s.old.b result s.new.tower s.new.a s.new.b }
{
    match line {
        None => k,
        Some(Line::Field(p)) => fresh(p),
        Some(Line::Ext(n)) => {
            s.tower[k.tower - n..k.tower].copy_from_slice(&words[..n]);
            extended(k, words[0], n)
        }
        Some(Line::First(n)) => {
            s.a[..n].copy_from_slice(&words[..n]);
            Kept { a: n, ..k }
        }
        Some(Line::Second(n)) => {
            s.b[..n].copy_from_slice(&words[..n]);
            Kept { b: n, ..k }
        }
        Some(Line::Gcd | Line::Div | Line::Mul | Line::Inv) => k,
    }
}

// The line, where what is kept allows it: ext and poly need a field, and a fifth ext is unreadable.
pub fn allowed(line: Option<Line>, k: Kept) -> Option<Line>
    ensures { AllowedBy line k result }
{
    match line? {
        Line::Ext(_) if k.field.is_none() || MOST_LEVELS <= k.levels => None,
        Line::First(_) | Line::Second(_) if k.field.is_none() => None,
        line => Some(line),
    }
}
