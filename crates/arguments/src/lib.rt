// A command's arguments: its kind, and questions 2 to 6, on the disk, the kind, the time, the address and the lengths. A function
// for each, and all of them in order; those that are put to any call on a box, in order; and the entry that an update brings. The
// contracts cite the definitions of machine, and of specs/ the list of the five.
#![tactic(auto)]

pub mod box_questions;
pub mod kinds;

ghost use Rattle.std.specs.Prelude.{◌≡◌, length};
ghost use Rattle.lockpage.specs.Geometry.{present};
ghost use Rattle.lockpage.specs.Page.{entry_at};
ghost use Rattle.addressing.specs.Map.{place_of};
ghost use Rattle.memory.specs.Layout.{memory_size};
ghost use Rattle.machine.specs.Command.{kind_numbered, proof_size, brought_page};
ghost use Rattle.machine.specs.Refusal.{number_of};
ghost use Rattle.machine.specs.Question.{question2, question4, question5, question6, passes, first_no};
ghost use Rattle.arguments.specs.ArgumentQuestions.{argument_questions};

use lockpage::Entry;
use machine::{Kind, Refusal};

// Question 2.
pub fn disk_fits(memory: &[u8], disk: &[u8]) -> bool
    requires { length memory.now ≡ memory_size present }
    ensures { result ≡ passes (question2 present memory.now disk.now) }
{
    disk.len() == addressing::disk_size(memory::groups(memory))
}

// Question 4.
pub fn is_timely(memory: &[u8], time: u32) -> bool
    requires { length memory.now ≡ memory_size present }
    ensures { result ≡ passes (question4 present memory.now time) }
{
    if time < memory::last_time(memory) {
        return false;
    }
    time <= lockpage::updates::LATEST_TIME
}

// Question 5: the block of the kinds that have one, the group of a page.
fn is_inside(k: Kind, groups: u32, block: u32) -> bool
    ensures { result ≡ passes (question5 present k groups block) }
{
    let blocks = addressing::data_blocks(groups);
    match k {
        Kind::Read | Kind::Entry | Kind::Change(_) => (block as usize) < blocks,
        Kind::Page => block < groups,
        _ => true,
    }
}

// Question 6.
fn is_sized(k: Kind, content: &[u8], proof: &[u8], answer: &[u8]) -> bool
    ensures { result ≡ passes (question6 present k content.now proof.now answer.now) }
{
    if content.len() != kinds::content_length(k) {
        return false;
    }
    if proof.len() != kinds::proof_length(k) {
        return false;
    }
    answer.len() == tags::ANSWER_SIZE
}

// The first of them that says no refuses. The kind is found anew for question 5: a compiler makes one jump
// of both.
#[tactic(auto, using(crate::proofs::ArgumentLaw::asked_in_order))]
pub fn check(
    memory: &[u8],
    disk: &[u8],
    kind: u32,
    value: u32,
    block: u32,
    time: u32,
    content: &[u8],
    proof: &[u8],
    answer: &[u8],
) -> Result<(), Refusal>
    requires { length memory.now ≡ memory_size present }
    ensures { number_of result ≡ first_no (argument_questions present (kind_numbered kind value) memory.now disk.now block time
        content.now proof.now answer.now) }
{
    if !disk_fits(memory, disk) {
        return Err(Refusal::DiskSizeWrong);
    }
    if !kinds::is_known(kinds::kind_numbered(kind, value)) {
        return Err(Refusal::KindUnknown);
    }
    if !is_timely(memory, time) {
        return Err(Refusal::TimeOutOfRange);
    }
    let k = kinds::kind_numbered(kind, value);
    if !is_inside(k, memory::groups(memory), block) {
        return Err(Refusal::AddressOutOfRange);
    }
    if !is_sized(k, content, proof, answer) {
        return Err(Refusal::LengthWrong);
    }
    Ok(())
}

// The block's entry on the page brought.
#[tactic(auto, using(crate::proofs::ArgumentLaw::brought), unfolding(machine::specs::Command::brought_page, octets::specs::Part::part))]
pub fn brought_entry(proof: &[u8], block: u32) -> Entry
    requires { length proof.now ≡ proof_size present }
    ensures { result ≡ entry_at (brought_page present proof.now) (place_of present block) }
{
    let place = addressing::place_of(block);
    lockpage::entries::load_entry(&proof[0..lockpage::PAGE_SIZE], place)
}
