// The fixed texts: the script's header, the printout's, and the line that names a bad one.
ghost use Rattle.std.specs.Prelude.{◌≡◌, ◌&&◌, ◌+◌, ◌≤◌, eqb, ltb, length, get_or};
ghost use Rattle.octets.specs.Part.{replaced};
ghost use Rattle.script_printout.specs.Printout.{header, heading, bad_line};

// The script's first line.
pub(crate) const HEADER: &[u8] = b"kind block now value";

// Whether a byte is the header's at place k.
#[tactic(auto, unfolding(script_printout::specs::Printout::header))]
pub(crate) fn is_header_byte(k: usize, byte: u8) -> bool
    ensures { result ≡ (ltb k (length header) && eqb (get_or header k 0) byte) }
{
    HEADER.get(k) == Some(&byte)
}

// Puts a text into out from place at on, and answers the place behind it.
fn put(out: &mut [u8], at: usize, text: &[u8]) -> usize
    requires { at + length text.now ≤ length out.old }
    ensures { (out.new ≡ replaced out.old at text.now) × (result ≡ at + length text.now) }
{
    octets::store_bytes(out, at, text);
    at + text.len()
}

// Puts the printout's first line into out from place at on, and answers the place behind it.
#[tactic(auto, unfolding(script_printout::specs::Printout::heading))]
pub(crate) fn put_heading(out: &mut [u8], at: usize) -> usize
    requires { at + length heading ≤ length out.old }
    ensures { (out.new ≡ replaced out.old at heading) × (result ≡ at + length heading) }
{
    put(out, at, b"kind block now answer state left\n")
}

// The same of the line that says that line n is not of the form.
pub(crate) fn put_bad_line(out: &mut [u8], at: usize, n: u64) -> usize
    requires { at + length (bad_line n) ≤ length out.old }
    ensures { (out.new ≡ replaced out.old at (bad_line n)) × (result ≡ at + length (bad_line n)) }
{
    let number = put(out, at, b"bad line ");
    let end = decimal::put(out, number, n);
    put(out, end, b"\n")
}
