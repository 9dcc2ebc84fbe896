// A script byte by byte: one byte, the end of a line, the end of the input, and what each prints. The contracts cite the reader's definitions
// in script_printout.
#![tactic(auto)]

mod texts;

ghost use Rattle.std.specs.Prelude.{◌≡◌, ◌+◌, ◌≤◌, length};
ghost use Rattle.script_answers.specs.Answer.{box_in, most_printed};
ghost use Rattle.script_printout.specs.Reader.{OnEveryBox, placed_of, placed, next_number, reader_behind, stopped, header_end, header_byte};
ghost use Rattle.script_printout.specs.Reader.{line_end, body_byte, byte_read, body_end, input_end};

use script_answers::{ScriptBox, printing};
use script_lines::{Line, NEWLINE};
use script_printout::{Progress, Reader, Stage};

// The number of the next line.
#[tactic(auto, unfolding(script_printout::specs::Reader::next_number))]
fn next_number(n: u64) -> u64
    ensures { result ≡ next_number n }
{
    n.saturating_add(1)
}

// The reader at the start of the line behind line number.
fn reader_behind(number: u64) -> Reader
    ensures { result ≡ reader_behind number }
{
    Reader {
        number: next_number(number),
        stage: Stage::Body(script_lines::blank()),
    }
}

// The line is not of the form: that is printed, and ends the run.
#[tactic(auto, using(script_printout::proofs::TextLaw::bad_line_size), unfolding(script_printout::specs::Reader::stopped, script_printout::specs::Reader::placed))]
fn stop(number: u64, out: &mut [u8], at: usize) -> Progress
    requires { at + most_printed ≤ length out.old }
    ensures { OnEveryBox (stopped number) out.old at result out.new × (result.end ≤ at + most_printed) }
{
    Progress {
        reader: Reader {
            number,
            stage: Stage::Ended,
        },
        end: texts::put_bad_line(out, at, number),
    }
}

// The end of the header, of which k bytes are read.
#[tactic(auto, using(script_printout::proofs::TextLaw::header_length, script_printout::proofs::TextLaw::heading_size), unfolding(script_printout::specs::Reader::header_end, script_printout::specs::Reader::placed))]
fn end_header(number: u64, k: usize, out: &mut [u8], at: usize) -> Progress
    requires { at + most_printed ≤ length out.old }
    ensures { OnEveryBox (header_end number k) out.old at result out.new × (result.end ≤ at + most_printed) }
{
    if k != texts::HEADER.len() {
        return stop(number, out, at);
    }
    Progress {
        reader: reader_behind(number),
        end: texts::put_heading(out, at),
    }
}

// A byte of the header, of which k are read.
#[tactic(auto, using(octets::proofs::ReplacedLaw::replaced_none, script_printout::proofs::TextLaw::header_length), unfolding(script_printout::specs::Reader::header_byte, script_printout::specs::Reader::placed))]
fn read_header(number: u64, k: usize, byte: u8, out: &mut [u8], at: usize) -> Progress
    requires { at + most_printed ≤ length out.old }
    ensures { OnEveryBox (λ s. header_byte number k s byte) out.old at result out.new × (result.end ≤ at + most_printed) }
{
    if byte == NEWLINE {
        return end_header(number, k, out, at);
    }
    if !texts::is_header_byte(k, byte) {
        return stop(number, out, at);
    }
    Progress {
        reader: Reader {
            number,
            stage: Stage::Header(k + 1),
        },
        end: at,
    }
}

// The end of a line of values: its command is run, and the answer printed.
#[tactic(auto, unfolding(script_printout::specs::Reader::line_end, script_printout::specs::Reader::placed))]
fn end_line(number: u64, line: Line, b: &mut ScriptBox, out: &mut [u8], at: usize) -> Progress
    requires { at + most_printed ≤ length out.old }
    ensures { (placed_of result (box_in b.new) out.new
        ≡ placed out.old at (line_end number line (box_in b.old)))
        × (result.end ≤ at + most_printed) }
{
    let Some(values) = script_lines::judge(line) else {
        return stop(number, out, at);
    };
    let shown = b.run(values);
    Progress {
        reader: reader_behind(number),
        end: printing::put_line(out, at, values, shown),
    }
}

// A byte of a line of values.
#[tactic(auto, using(octets::proofs::ReplacedLaw::replaced_none), unfolding(script_printout::specs::Reader::body_byte, script_printout::specs::Reader::placed))]
fn read_body(
    number: u64,
    line: Line,
    b: &mut ScriptBox,
    byte: u8,
    out: &mut [u8],
    at: usize,
) -> Progress
    requires { at + most_printed ≤ length out.old }
    ensures { (placed_of result (box_in b.new) out.new
        ≡ placed out.old at (body_byte number line (box_in b.old) byte))
        × (result.end ≤ at + most_printed) }
{
    if byte == NEWLINE {
        return end_line(number, line, b, out, at);
    }
    let Some(next) = script_lines::after_byte(line, byte) else {
        return stop(number, out, at);
    };
    Progress {
        reader: Reader {
            number,
            stage: Stage::Body(next),
        },
        end: at,
    }
}

// One byte: what it prints goes into out from place at on.
#[tactic(auto, using(octets::proofs::ReplacedLaw::replaced_none), unfolding(script_printout::specs::Reader::byte_read, script_printout::specs::Reader::placed))]
pub fn read_byte(reader: Reader, b: &mut ScriptBox, byte: u8, out: &mut [u8], at: usize) -> Progress
    requires { at + most_printed ≤ length out.old }
    ensures { (placed_of result (box_in b.new) out.new
        ≡ placed out.old at (byte_read reader (box_in b.old) byte))
        × (result.end ≤ at + most_printed) }
{
    let number = reader.number;
    match reader.stage {
        Stage::Header(k) => read_header(number, k, byte, out, at),
        Stage::Body(line) => read_body(number, line, b, byte, out, at),
        Stage::Ended => Progress { reader, end: at },
    }
}

// The end of the input, where a line of values is being read.
#[tactic(auto, using(octets::proofs::ReplacedLaw::replaced_none), unfolding(script_printout::specs::Reader::body_end, script_printout::specs::Reader::placed))]
fn end_body(reader: Reader, line: Line, b: &mut ScriptBox, out: &mut [u8]) -> Progress
    requires { most_printed ≤ length out.old }
    ensures { (placed_of result (box_in b.new) out.new
        ≡ placed out.old 0 (body_end reader line (box_in b.old)))
        × (result.end ≤ most_printed) }
{
    if script_lines::is_blank(line) {
        return Progress { reader, end: 0 };
    }
    end_line(reader.number, line, b, out, 0)
}

// The end of the input ends the last line, if a byte of it is read.
#[tactic(auto, using(octets::proofs::ReplacedLaw::replaced_none), unfolding(script_printout::specs::Reader::input_end, script_printout::specs::Reader::placed))]
pub fn end_input(reader: Reader, b: &mut ScriptBox, out: &mut [u8]) -> Progress
    requires { most_printed ≤ length out.old }
    ensures { (placed_of result (box_in b.new) out.new
        ≡ placed out.old 0 (input_end reader (box_in b.old)))
        × (result.end ≤ most_printed) }
{
    let number = reader.number;
    match reader.stage {
        Stage::Header(k) => end_header(number, k, out, 0),
        Stage::Body(line) => end_body(reader, line, b, out),
        Stage::Ended => Progress { reader, end: 0 },
    }
}
