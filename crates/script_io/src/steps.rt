// A turn apart from its reading and writing: the step on what the read answered, and whether another turn follows.
ghost use Rattle.std.specs.Prelude.{◌≡◌, ◌≤◌, length, IfSome};
ghost use Rattle.script_answers.specs.Answer.{box_in};
ghost use Rattle.script_printout.specs.Reader.{fed_of};
ghost use Rattle.script_io.specs.Turn.{stepped, has_ended, goes_on};

use crate::Turn;
use script_answers::ScriptBox;
use script_printout::{Progress, Reader, Stage};

// The step on what a read answered: got bytes stand at the start of piece; at 0 the script is at its end. A read that fails, none, is not
// the end: the line that it cuts is not run.
#[tactic(auto, using(crate::proofs::TurnLaw::step_failed, crate::proofs::TurnLaw::step_end, crate::proofs::TurnLaw::step_bytes))]
pub(crate) fn step(
    reader: Reader,
    b: &mut ScriptBox,
    got: Option<usize>,
    piece: &[u8],
    out: &mut [u8],
) -> Option<Progress>
    ensures { (fed_of reader result (box_in b.new) out.new
        ≡ stepped reader (box_in b.old) got piece.now out.old)
        × IfSome result (λ p. p.end ≤ length out.old) }
{
    let n = got?;
    if n == 0 {
        return script::finish(reader, b, out);
    }
    script::feed(reader, b, &piece[..n.min(piece.len())], out)
}

// Whether the run has ended by a bad line.
#[tactic(auto, unfolding(crate::specs::Turn::has_ended))]
fn has_ended(reader: Reader) -> bool
    ensures { result ≡ has_ended reader }
{
    matches!(reader.stage, Stage::Ended)
}

// Whether another turn follows.
#[tactic(auto, unfolding(crate::specs::Turn::goes_on), using(crate::proofs::TurnLaw::at_end, crate::proofs::TurnLaw::before_end))]
pub(crate) fn goes_on(turn: Turn) -> bool
    ensures { result ≡ goes_on turn }
{
    let Some(progress) = turn.fed else {
        return false;
    };
    turn.written && turn.got != Some(0) && !has_ended(progress.reader)
}
