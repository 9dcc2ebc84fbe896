// Formatting: what it asks, and what it stores. `format` has no precondition, and its contract fixes what is answered and every byte
// of memory and disk by the definitions of machine.
#![tactic(auto)]

mod blank_pages;

ghost use Rattle.std.specs.Prelude.{◌≡◌};
ghost use Rattle.lockpage.specs.Geometry.{present};
ghost use Rattle.machine.specs.Refusal.{number_of};
ghost use Rattle.machine.specs.Question.{first_no};
ghost use Rattle.machine.specs.Format.{format_questions};
ghost use Rattle.machine.specs.Format as F;
ghost use Rattle.machine.specs.Call.{box_at, format_outcome_at};

use machine::Refusal;
use memory::layout;

// The questions, in their order: the groups and the memory's size, the disk, the salt. The first that says no refuses.
#[tactic(auto, using(std::proofs::lemmas::Bool::Decides::nat_tests), unfolding(machine::specs::Format::format_questions, machine::specs::Question::first_no))]
fn check(memory: &[u8], disk: &[u8], groups: u32, salt: &[u8]) -> Result<(), Refusal>
    ensures { number_of result ≡ first_no (format_questions present (box_at memory.now disk.now) groups salt.now) }
{
    if groups < 1 || layout::MOST_GROUPS < groups || memory.len() != layout::MEMORY_SIZE {
        return Err(Refusal::MemoryInvalid);
    }
    if disk.len() != addressing::disk_size(groups) {
        return Err(Refusal::DiskSizeWrong);
    }
    if salt.len() != layout::SALT_SIZE {
        return Err(Refusal::LengthWrong);
    }
    Ok(())
}

// Formats a box. Where it is refused, no byte is changed.
#[tactic(auto, using(lockpage::proofs::GeometryLaw::present_proper, crate::proofs::FormatLaw::format_steps))]
pub fn format(memory: &mut [u8], disk: &mut [u8], groups: u32, salt: &[u8]) -> Result<(), Refusal>
    ensures { format_outcome_at (number_of result) memory.new disk.new
        ≡ F.format present (box_at memory.old disk.old) groups salt.now }
{
    check(memory, disk, groups, salt)?;
    memory::format(memory, groups, salt);
    blank_pages::store_blank_pages(disk, groups);
    Ok(())
}
