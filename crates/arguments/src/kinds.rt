// What the questions know of a kind: its number, and the lengths of what it brings.
ghost use Rattle.std.specs.Prelude.{◌≡◌};
ghost use Rattle.lockpage.specs.Geometry.{present};
ghost use Rattle.machine.specs.Command.{kind_numbered};
ghost use Rattle.machine.specs.Question.{question3, content_length, proof_length, passes};

use lockpage::Update;
use machine::Kind;

// The kind of a number; a write's lock or an increment's value is the command's value.
#[tactic(auto, unfolding(machine::specs::Command::kind_numbered))]
pub fn kind_numbered(n: u32, value: u32) -> Kind
    ensures { result ≡ kind_numbered n value }
{
    match n {
        1 => Kind::Read,
        2 => Kind::Entry,
        3 => Kind::Page,
        4 => Kind::Change(Update::Write(value)),
        5 => Kind::Change(Update::Unfreeze),
        6 => Kind::Change(Update::Increment(value)),
        7 => Kind::Sync,
        8 => Kind::Restart,
        9 => Kind::NewSalt,
        10 => Kind::Identify,
        _ => Kind::Unknown,
    }
}

// Question 3.
pub(crate) fn is_known(k: Kind) -> bool
    ensures { result ≡ passes (question3 present k) }
{
    !matches!(k, Kind::Unknown)
}

// The length of the content that a kind brings.
pub fn content_length(k: Kind) -> usize
    ensures { result ≡ content_length present k }
{
    match k {
        Kind::Change(Update::Write(_)) => addressing::BLOCK_SIZE,
        Kind::NewSalt => memory::layout::SALT_SIZE,
        _ => 0,
    }
}

// The length of the proof that it brings.
pub fn proof_length(k: Kind) -> usize
    ensures { result ≡ proof_length present k }
{
    match k {
        Kind::Change(_) => tags::PROOF_SIZE,
        _ => 0,
    }
}
