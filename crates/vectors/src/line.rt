// A line as it is read, byte by byte.
ghost use Rattle.std.specs.Prelude.{◌≡◌, ◌<◌, [], ◌∷◌, ◌++◌, length};
ghost use Rattle.arrayvec.specs.ArrayVec.{array_vec_len};
ghost use Rattle.text.specs.Text.{number_of};

use crate::calls::Call;
use crate::numbers::{BadLine, Numbers};
use crate::output::Output;
use arrayvec::ArrayVec;
use text::numbers::number_of;

// The most numbers of a line that asks for a call.
const MOST_NUMBERS: usize = 131072;

// The most bytes that are kept of a field: more than a name or a number has, so the first bytes of
// a longer field are neither.
const MOST_BYTES: usize = 24;

// The most digits of a number: those of the largest of the signed 64 bits.
const MOST_DIGITS: usize = 19;

// The number that a field is: of at most 19 digits.
fn number_in(field: &[u8]) -> Option<i64>
    ensures { result ≡ number_of 19 field.now }
{
    number_of(field, MOST_DIGITS)
}

// One byte more of a field. One of 24 bytes keeps them.
fn keep_byte(field: &mut ArrayVec<u8, MOST_BYTES>, b: u8)
    ensures kept { array_vec_len field.old < 24 → field.new.items ≡ field.old.items ++ b ∷ [] }
    ensures full { array_vec_len field.old ≡ 24 → field.new ≡ field.old }
{
    let _ = field.try_push(b);
}

// What has been read of a line.
#[derive(Drop)]
pub struct Line {
    // Its number, from 1 on.
    number: u64,
    // The call that it asks for, once its first field has ended.
    call: Option<Result<Call, BadLine>>,
    // How many numbers have ended behind it, and the first of them.
    // Stays: a store with a count beside it. Tried as an ArrayVec, which is moved while it is made:
    // built by Rattle's own compiler the program then took 3,219 KiB of stack in place of 2,805.
    count: usize,
    store: [i64; MOST_NUMBERS],
    // The first bytes of the next field.
    field: ArrayVec<u8, MOST_BYTES>,
}

impl Line {
    // The start of the first line, with room for 131,072 numbers.
    pub fn new() -> Line
        ensures { length result.store ≡ 131072 }
    {
        Line {
            number: 1,
            call: None,
            count: 0,
            store: [0; MOST_NUMBERS],
            field: ArrayVec::new(),
        }
    }

    // One byte more. A field that is full keeps its first bytes.
    pub fn take(&mut self, b: u8, out: &mut Output) {
        match b {
            b'\t' => self.end_field(),
            b'\n' => self.end(out),
            _ => keep_byte(&mut self.field, b),
        }
    }

    // A last line needs no line end.
    pub fn end_input(&mut self, out: &mut Output) {
        if self.call.is_some() || !self.field.is_empty() {
            self.end(out);
        }
    }

    // Answers the line, and begins the next one.
    fn end(&mut self, out: &mut Output) {
        self.end_field();
        let number = self.number;
        if self.answer(out).is_err() {
            out.line(format_args!("bad line\t{number}"));
        }
        self.number = number.wrapping_add(1);
        self.call = None;
        self.count = 0;
    }

    // Makes the call that the line asks for. One with more numbers than the store asks for none.
    fn answer(&mut self, out: &mut Output) -> Result<(), BadLine> {
        let call = self.call.ok_or(BadLine)??;
        let numbers = self.store.get_mut(..self.count).ok_or(BadLine)?;
        let mut numbers = Numbers::new(numbers);
        call.make(&mut numbers, out)
    }

    // The first field names the call, every other is a number.
    fn end_field(&mut self) {
        let call = match self.call {
            None => Call::try_from(self.field.as_slice()),
            Some(call) => self.end_number().and(call),
        };
        self.call = Some(call);
        self.field.clear();
    }

    // The field is a number, which is kept where there is room.
    fn end_number(&mut self) -> Result<(), BadLine> {
        let number = number_in(self.field.as_slice()).ok_or(BadLine)?;
        if let Some(place) = self.store.get_mut(self.count) {
            *place = number;
        }
        self.count = self.count.saturating_add(1);
        Ok(())
    }
}
