// Text on its way to standard output, and how answers and lists are printed. No contract can say
// what is written.
use arrayvec::ArrayVec;
use kernel::Answer;
use std::fmt::{self, Write};
use text::streams::STANDARD_OUTPUT;

// The bytes that are gathered before they are written.
const MOST_HELD: usize = 65536;

// The text that has not been written yet.
#[derive(Drop)]
pub struct Output {
    held: ArrayVec<u8, MOST_HELD>,
}

impl Output {
    pub fn new() -> Output {
        Output {
            held: ArrayVec::new(),
        }
    }

    // Writes what is held.
    pub fn flush(&mut self) {
        io::write_all(STANDARD_OUTPUT, self.held.as_slice());
        self.held.clear();
    }

    // The text and a line end. No write to an output gives an error.
    pub fn line<D: fmt::Display + Drop>(&mut self, text: D) {
        let _ = self.writeln(text);
    }
}

// The text, after what is held was written where there is no room for both.
impl fmt::Write for Output {
    fn write_str(&mut self, text: &str) -> fmt::Result {
        let bytes = text.as_bytes();
        if self.held.try_extend_from_slice(bytes).is_err() {
            self.flush();
            if self.held.try_extend_from_slice(bytes).is_err() {
                io::write_all(STANDARD_OUTPUT, bytes);
            }
        }
        Ok(())
    }
}

// An answer of the kernel.
#[derive(Clone, Copy)]
pub struct Answered(pub Answer);

impl fmt::Display for Answered {
    fn fmt<W: fmt::Write>(&self, f: &mut fmt::Formatter<W>) -> fmt::Result {
        match self.0 {
            Answer::Done => write!(f, "done"),
            Answer::Factor(level) => write!(f, "factor\t{level}"),
            Answer::Refused(number) => write!(f, "refused\t{number}"),
        }
    }
}

// A list as a line holds it: a tab and its count, then each word behind a tab.
#[derive(Clone, Copy)]
pub struct List<'a>(pub &'a [i64]);

impl fmt::Display for List<'_> {
    fn fmt<W: fmt::Write>(&self, f: &mut fmt::Formatter<W>) -> fmt::Result {
        write!(f, "\t{}", self.0.len())?;
        for word in self.0 {
            write!(f, "\t{word}")?;
        }
        Ok(())
    }
}

// Lists, one behind another.
#[derive(Clone, Copy)]
pub struct Lists<'a>(pub &'a [&'a [i64]]);

impl fmt::Display for Lists<'_> {
    fn fmt<W: fmt::Write>(&self, f: &mut fmt::Formatter<W>) -> fmt::Result {
        for words in self.0 {
            write!(f, "{}", List(words))?;
        }
        Ok(())
    }
}
