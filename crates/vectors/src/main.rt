// Runs the kernel's calls on test lines: one call a line of standard input, one line of standard
// output for each.
//
// A line's fields are parted by single tabs: the call's name, then numbers of the signed 64 bits,
// where a list is its count and its words. An answer's line is the name, `done`, `factor` and its
// level or `refused` and its number, then what else the call gives, and then every lent list as it
// is afterwards. The leading view has no answer, and what it shows is a list. A line that asks for
// no call prints `bad line` and its number from 1.
#![tactic(auto)]

mod calls;
mod line;
mod numbers;
mod output;

use crate::line::Line;
use crate::output::Output;
use text::streams::read_piece;

fn main(rt: HostRuntime) {
    let mut line = Line::new();
    let mut out = Output::new();
    let mut piece = io::large_buffer();
    // More pieces than any input has.
    for _ in 0..u64::MAX {
        let n = read_piece(rt.stdin(), &mut piece);
        if n == 0 {
            break;
        }
        for b in &piece[..n] {
            line.take(*b, &mut out);
        }
    }
    line.end_input(&mut out);
    out.flush();
}
