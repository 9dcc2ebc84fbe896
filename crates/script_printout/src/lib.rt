// The printout of a script as definitions, specs/, and the theorem that a script read piece by piece prints it, proofs/. No function:
// what runs is the crate script.
#![tactic(auto)]

use script_lines::Line;

// What is being read: the header, of which so many bytes are read; a line of values; or nothing more.
#[derive(Clone, Copy, Debug, PartialEq, Eq)]
pub enum Stage {
    Header(usize),
    Body(Line),
    Ended,
}

// What is kept between two pieces: the number of the line that is being read, and what is read of it.
#[derive(Clone, Copy, Debug, PartialEq, Eq)]
pub struct Reader {
    pub number: u64,
    pub stage: Stage,
}

// A reader, and the place in the buffer behind what is printed.
#[derive(Clone, Copy, Debug, PartialEq, Eq)]
pub struct Progress {
    pub reader: Reader,
    pub end: usize,
}
