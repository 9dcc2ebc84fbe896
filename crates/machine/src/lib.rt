// The controller as definitions, specs/, and theorems about them, proofs/. Of what runs, the kinds and the refusals alone: the rest is
// above this crate.
#![tactic(auto)]

ghost use Rattle.std.specs.Prelude.{◌≡◌};
ghost use Rattle.machine.specs.Refusal.{refusal_number, number_of};

use lockpage::Update;

// Why a call is refused: the question that says no, by its number. The version store asks the last two.
#[derive(Clone, Copy, Debug, PartialEq, Eq)]
pub enum Refusal {
    MemoryInvalid = 1,
    DiskSizeWrong = 2,
    KindUnknown = 3,
    TimeOutOfRange = 4,
    AddressOutOfRange = 5,
    LengthWrong = 6,
    TagWrong = 7,
    CountExhausted = 8,
    StateWrong = 9,
    LimitExceeded = 10,
    SaltUnchanged = 11,
    ListSizeWrong = 12,
    PartOutOfRange = 13,
    TooFewFree = 14,
}

impl From<Refusal> for u32 {
    ghost from_gives = { λ r n. n ≡ refusal_number r };

    fn from(refusal: Refusal) -> u32 {
        refusal as u32
    }
}

// The number answered: 0 where the call is accepted, and else its refusal's.
pub fn number(answer: Result<(), Refusal>) -> u32
    ensures { result ≡ number_of answer }
{
    match answer {
        Ok(()) => 0,
        Err(refusal) => u32::from(refusal),
    }
}

// What a command asks for. Kinds 4, 5 and 6 change a page.
#[derive(Clone, Copy)]
pub enum Kind {
    Read,
    Entry,
    Page,
    Change(Update),
    Sync,
    Restart,
    NewSalt,
    Identify,
    Unknown,
}
