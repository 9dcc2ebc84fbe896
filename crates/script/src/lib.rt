// The script program's library: a script is read piece by piece, and the pieces print what script_printout's definitions say of the
// whole. The caller keeps the reader and the box between the pieces, and reads and writes the descriptors.
#![tactic(auto)]

ghost use Rattle.std.specs.Prelude.{◌≡◌, ◌≤◌, length, IfSome};
ghost use Rattle.script_answers.specs.Answer.{box_in};
ghost use Rattle.script_printout.specs.Printout.{script_box};
ghost use Rattle.script_printout.specs.Reader.{begun, fed_of};
ghost use Rattle.script_printout.specs.Reader as R;

use memory::layout::SALT_SIZE;
use script_answers::ScriptBox;
use script_answers::printing::MOST_PRINTED;
use script_printout::{Progress, Reader, Stage};

// Formats the box of a script, one group with a zero salt, and answers the reader of its first byte.
#[tactic(auto, unfolding(script_printout::specs::Printout::script_box, octets::specs::Part::repeated))]
pub fn begin(b: &mut ScriptBox) -> Reader
    ensures { (result ≡ begun) × (box_in b.new ≡ script_box (box_in b.old)) }
{
    let salt = [0u8; SALT_SIZE];
    let _ = formatter::format(&mut b.memory, &mut b.disk, 1, &salt);
    Reader {
        number: 1,
        stage: Stage::Header(0),
    }
}

// Reads the next piece of the script: what it prints is put at the start of out. Where out has not room for a line at each byte,
// nothing is read.
#[tactic(auto, using(script_printout::proofs::FeedLaw::feeding_none))]
pub fn feed(reader: Reader, b: &mut ScriptBox, piece: &[u8], out: &mut [u8]) -> Option<Progress>
    ensures { (fed_of reader result (box_in b.new) out.new
        ≡ R.fed reader (box_in b.old) piece.now out.old)
        × IfSome result (λ p. p.end ≤ length out.old) }
{
    if out.len() / MOST_PRINTED < piece.len() {
        return None;
    }
    let mut progress = Progress { reader, end: 0 };
    for &byte in piece {
        progress = script_bytes::read_byte(progress.reader, b, byte, out, progress.end);
    }
    Some(progress)
}

// The end of the script: its last line, where that lacks its newline. Where out has not room for a line, nothing is read.
#[tactic(auto, unfolding(script_printout::specs::Reader::finished, script_printout::specs::Reader::placed), using(octets::proofs::ReplacedLaw::replaced_none))]
pub fn finish(reader: Reader, b: &mut ScriptBox, out: &mut [u8]) -> Option<Progress>
    ensures { (fed_of reader result (box_in b.new) out.new
        ≡ R.finished reader (box_in b.old) out.old)
        × IfSome result (λ p. p.end ≤ length out.old) }
{
    if out.len() < MOST_PRINTED {
        return None;
    }
    Some(script_bytes::end_input(reader, b, out))
}
