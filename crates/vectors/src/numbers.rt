// The numbers of a line, read from the first to the last.
ghost use Rattle.std.specs.Prelude.{◌≡◌, ◌≤◌, leb, length, IfOk};

use std::mem;

// The most words of a list that a call may change: more than the longest slot has, so that a slot
// that is too long reaches the call.
const MOST_CHANGED: usize = 70000;

// A call may change a list of that many words: of at most 70,000.
fn may_change(words: usize) -> bool
    ensures { result ≡ leb words 70000 }
{
    words <= MOST_CHANGED
}

// The error of a line that asks for no call.
#[derive(Clone, Copy)]
pub struct BadLine;

// What almost every call works over: the modulus, how many levels there are, their degrees and the
// tower's words.
#[derive(Clone, Copy)]
pub struct Over<'a> {
    pub p: i64,
    pub n: i64,
    pub degrees: [i64; 4],
    pub tower: &'a [i64],
}

// The numbers that have not been read yet.
#[derive(Drop)]
pub struct Numbers<'a> {
    rest: &'a mut [i64],
}

impl<'a> Numbers<'a> {
    pub fn new(rest: &'a mut [i64]) -> Numbers<'a> {
        Numbers { rest }
    }

    // The next number.
    pub fn word(&mut self) -> Result<i64, BadLine> {
        let (first, rest) = mem::take(&mut self.rest).split_first_mut().ok_or(BadLine)?;
        self.rest = rest;
        Ok(*first)
    }

    // The four degrees.
    pub fn degrees(&mut self) -> Result<[i64; 4], BadLine> {
        Ok([self.word()?, self.word()?, self.word()?, self.word()?])
    }

    // A list: its count and its words.
    fn words(&mut self) -> Result<&'a mut [i64], BadLine> {
        let count = usize::try_from(self.word()?).map_err(|_| BadLine)?;
        let (words, rest) = mem::take(&mut self.rest)
            .split_at_mut_checked(count)
            .ok_or(BadLine)?;
        self.rest = rest;
        Ok(words)
    }

    // A list that a call only reads.
    pub fn list(&mut self) -> Result<&'a [i64], BadLine> {
        Ok(self.words()?)
    }

    // A list that a call may change.
    pub fn changed(&mut self) -> Result<&'a mut [i64], BadLine>
        ensures { IfOk result (λ words. length words.now ≤ 70000) }
    {
        let words = self.words()?;
        if may_change(words.len()) {
            Ok(words)
        } else {
            Err(BadLine)
        }
    }

    // p N d1 d2 d3 d4, the tower's words
    pub fn over(&mut self) -> Result<Over<'a>, BadLine> {
        let p = self.word()?;
        let n = self.word()?;
        let degrees = self.degrees()?;
        let tower = self.list()?;
        Ok(Over {
            p,
            n,
            degrees,
            tower,
        })
    }

    // Nothing is left of the line.
    pub fn end(&self) -> Result<(), BadLine> {
        if self.rest.is_empty() {
            Ok(())
        } else {
            Err(BadLine)
        }
    }
}
