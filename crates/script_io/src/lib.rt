// The script program's input and output: a script is read from a reader piece by piece, and what the pieces print is written to
// standard output. No contract can say what is read or written; steps has what is done with it, and the claim TurnsPrinted what the turns
// then write.
#![tactic(auto)]

mod steps;

ghost use Rattle.std.specs.Prelude.{◌≡◌};
ghost use Rattle.script_answers.specs.Answer.{box_in};
ghost use Rattle.script_printout.specs.Reader.{fed_of};
ghost use Rattle.script_io.specs.Turn.{stepped};

use script_answers::ScriptBox;
use script_printout::{Progress, Reader};
use std::io::Read;

// The buffer for what is printed, `io::large_buffer`, has space for a line at each byte of a piece.
const PIECE_SIZE: usize = 512;

// A turn: how many bytes the read got, if it did not fail; what the step on it left, if it did not and the buffer had room; and whether all
// that it printed is written.
#[derive(Clone, Copy, Debug, PartialEq, Eq)]
pub struct Turn {
    pub got: Option<usize>,
    pub fed: Option<Progress>,
    pub written: bool,
}

// Says on standard error what failed in a turn, if anything did.
fn say_failure(rt: &impl Eprint, turn: Turn) {
    let failure = match turn {
        Turn { got: None, .. } => "cannot read the script",
        Turn { fed: None, .. } => "the buffer for the printout is too small",
        Turn { written: false, .. } => "cannot write the printout",
        _ => return,
    };
    let _ = rt.eprintln(failure);
}

// Reads one piece and writes what it prints. Whatever the read answers and puts into piece, the rest is the step on that.
fn read_piece<R: Read>(
    rt: &(impl Print + Eprint),
    input: &mut R,
    reader: Reader,
    b: &mut ScriptBox,
    piece: &mut [u8],
    out: &mut [u8],
) -> Turn
    ensures { fed_of reader result.fed (box_in b.new) out.new
        ≡ stepped reader (box_in b.old) result.got piece.new out.old }
{
    let got = input.read(piece).ok();
    let fed = steps::step(reader, b, got, piece, out);
    let end = fed.map_or(0, |progress| progress.end);
    let turn = Turn {
        got,
        fed,
        written: rt.write_all(&out[..end]).is_ok(),
    };
    say_failure(rt, turn);
    turn
}

// Turn after turn, each with the reader that the one before left. What is proved of it is that it is safe and ends: a proved loop has to, so
// it counts its turns, up to a number that no run reaches.
fn read_pieces<R: Read>(
    rt: &(impl Print + Eprint),
    input: &mut R,
    b: &mut ScriptBox,
    piece: &mut [u8],
    out: &mut [u8],
) {
    let mut reader = script::begin(b);
    for _ in 0..u64::MAX {
        let turn = read_piece(rt, input, reader, b, piece, out);
        match turn.fed {
            Some(progress) if steps::goes_on(turn) => reader = progress.reader,
            _ => return,
        }
    }
}

// Reads a script to its end, or to its first bad line, and writes its printout.
pub fn run<R: Read>(rt: &(impl Print + Eprint), input: &mut R) {
    let mut b = ScriptBox::new();
    let mut piece = [0u8; PIECE_SIZE];
    let mut out = io::large_buffer();
    read_pieces(rt, input, &mut b, &mut piece, &mut out);
}
