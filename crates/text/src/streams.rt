// Standard input and output, as far as the programs need them. No contract can say what is read or written.
ghost use Rattle.std.specs.Prelude.{◌≤◌, length};

use std::io::{Read, Stdin};

// The number of standard output.
pub const STANDARD_OUTPUT: i32 = 1;

// The next bytes of the input: how many there are, or 0 where it has ended or cannot be read.
// Stays: a number and no Result, as 0 is std's own end of input, and both programs must end alike where the input ends and where it cannot be read.
pub fn read_piece(mut input: Stdin, piece: &mut [u8]) -> usize
    ensures { result ≤ length piece.new }
{
    input.read(piece).unwrap_or(0)
}
