// Where a remainder sequence stops: a factor is shown, or number 11 is given.
ghost use Rattle.std.specs.Prelude.{◌≡◌, ◌+◌, ◌≤◌, length};
ghost use Rattle.tower.specs.Form.{seg};
ghost use Rattle.kernel.specs.Answered.{factor_buffer};
ghost use Rattle.kernel.specs.Parts.{StopReady, StopGiven};

use super::Answer;
use super::refusals::Refusal;
use super::shape::Shape;
use sequences::Stop;
use tower::sizes::size_at;
use tower::store::{clear, copy_in};

// The factor buffer with the n words of a factor that stand at a place of the store, and zeros behind them.
pub fn show(v: &[i64], at: usize, n: usize, f: &mut [i64])
    requires { (at + n ≤ length v.now) × (n ≤ length f.old) }
    ensures { f.new ≡ factor_buffer f.old (seg at n v.now) }
{
    clear(f, 0, f.len());
    copy_in(v, at, f, 0, n);
}

// The answer: the words of a factor go into the factor buffer f.
//
// Not inlined: where v is known to be the caller's own word, the copy of a factor is compiled to a call of memcpy, and the library for C asks for no more than memset.
#[inline(never)]
pub fn stopped(stop: Stop, s: Shape, v: &[i64], f: &mut [i64]) -> Answer
    requires { StopReady stop s v.now f.old }
    ensures { StopGiven stop s v.now f.old result f.new }
{
    match stop {
        Stop::Factor { level, at } => {
            show(v, at, size_at(s.sizes, level), f);
            Answer::Factor(level)
        }
        Stop::Long => Refusal::TooLong.into(),
    }
}
