// What the program holds between two bytes of its input.
ghost use Rattle.std.specs.Prelude.{◌≤◌};
ghost use Rattle.lines.specs.Kept.{Sound};

use lines::reading::MOST_BYTES;
use lines::{Kept, Room, Stores};

// One byte more than a line may have, so that a longer one is seen.
pub const LINE_BYTES: usize = MOST_BYTES + 1;

// The bytes of an answer: no answer has more.
pub const OUT_BYTES: usize = 196608;

// What is kept between lines with its words, the bytes of the next line that are gathered and its
// number, and the room for its answer.
#[derive(Drop)]
pub struct Calculator {
    pub kept: Kept,
    pub stores: Stores,
    pub text: [u8; LINE_BYTES],
    pub bytes: usize,
    pub line: u64,
    pub room: Room,
    pub out: [u8; OUT_BYTES],
    ghost kept_sound: { Sound kept },
    ghost bytes_fit: { bytes ≤ 8193 },
}
