// The calculator: lines of standard input, and the answers on standard output. Here bytes are
// moved; what a line comes to is in `lines`.
#![tactic(auto)]

ghost use Rattle.calculator.specs.Gathering.{Ended, Fed, Gathered};

mod state;

use lines::keeping::{TOWER_WORDS, nothing};
use lines::lengths::{ANSWER_WORDS, FACTOR_WORDS, WORK_WORDS};
use lines::steps::step;
use lines::{Room, Stores};
use state::{Calculator, LINE_BYTES, OUT_BYTES};
use std::io::Stdin;
use text::fields::MOST_WORDS;
use text::streams::{STANDARD_OUTPUT, read_piece};

// More pieces than any input has.
const MOST_PIECES: u64 = 4611686018427387904;

impl Calculator {
    // One byte behind those gathered; of a line that is too long one byte too many is kept.
    fn gather(&mut self, byte: u8)
        ensures { Gathered self.old byte self.new }
    {
        if self.bytes < LINE_BYTES {
            self.text[self.bytes] = byte;
            self.bytes += 1;
        }
    }

    // The end of a line: it is answered, and the next is started.
    fn end_line(&mut self)
        ensures { Ended self.old self.new }
    {
        let (kept, told) = step(
            &self.text[..self.bytes],
            self.line,
            self.kept,
            &mut self.stores,
            &mut self.room,
            &mut self.out,
        );
        io::write_all(STANDARD_OUTPUT, &self.out[..told]);
        self.kept = kept;
        self.bytes = 0;
        self.line = self.line.wrapping_add(1);
    }

    // One byte more.
    fn feed(&mut self, byte: u8)
        ensures { Fed self.old byte self.new }
    {
        if byte == b'\n' {
            self.end_line();
        } else {
            self.gather(byte);
        }
    }

    // One piece of the input, and whether there was one.
    fn turn(&mut self, input: Stdin) -> bool {
        let mut piece = io::large_buffer();
        let n = read_piece(input, &mut piece);
        for byte in &piece[..n] {
            self.feed(*byte);
        }
        0 < n
    }

    // A last line needs no line end; nothing behind the last line end is no line.
    fn last_line(&mut self) {
        if 0 < self.bytes {
            self.end_line();
        }
    }
}

fn main(rt: HostRuntime) {
    let mut calculator = Calculator {
        kept: nothing(),
        stores: Stores {
            tower: [0i64; TOWER_WORDS],
            a: [0i64; MOST_WORDS],
            b: [0i64; MOST_WORDS],
        },
        text: [0u8; LINE_BYTES],
        bytes: 0,
        line: 1,
        room: Room {
            answer: [0i64; ANSWER_WORDS],
            factor: [0i64; FACTOR_WORDS],
            work: [0i64; WORK_WORDS],
        },
        out: [0u8; OUT_BYTES],
    };
    for _ in 0..MOST_PIECES {
        if !calculator.turn(rt.stdin()) {
            break;
        }
    }
    calculator.last_line();
}
