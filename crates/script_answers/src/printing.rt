// The line that is printed.
ghost use Rattle.std.specs.Prelude.{◌≡◌, ◌+◌, ◌≤◌, length};
ghost use Rattle.octets.specs.Part.{replaced};
ghost use Rattle.script_answers.specs.Answer.{most_spaced, most_printed, spaced, line_shown};

use crate::Shown;
use script_lines::{NEWLINE, SPACE, Values};

// The most bytes of a printed line, rounded up.
pub const MOST_PRINTED: usize = 128;

// Puts a number and a space into out from place at on, and answers the place behind them.
fn put_spaced(out: &mut [u8], at: usize, n: u64) -> usize
    requires { at + most_spaced ≤ length out.old }
    ensures { (out.new ≡ replaced out.old at (spaced n)) × ((result ≡ at + length (spaced n)) × (result ≤ at + most_spaced)) }
{
    let end = decimal::put(out, at, n);
    out[end] = SPACE;
    end + 1
}

// Puts the line of what was given and what is shown into out from place at on, and answers the place behind it.
pub fn put_line(out: &mut [u8], at: usize, v: Values, s: Shown) -> usize
    requires { at + most_printed ≤ length out.old }
    ensures { (out.new ≡ replaced out.old at (line_shown v s)) × ((result ≡ at + length (line_shown v s)) × (result ≤ at + most_printed)) }
{
    let block = put_spaced(out, at, v.kind as u64);
    let time = put_spaced(out, block, v.block as u64);
    let number = put_spaced(out, time, v.time as u64);
    let state = put_spaced(out, number, s.number as u64);
    let left = put_spaced(out, state, s.state as u64);
    let end = decimal::put_signed(out, left, s.left);
    out[end] = NEWLINE;
    end + 1
}
