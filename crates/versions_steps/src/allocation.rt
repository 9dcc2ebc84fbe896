// The block that a call takes next, after the questions that are put to the box.
ghost use Rattle.std.specs.Prelude.{◌≡◌, true};
ghost use Rattle.lockpage.specs.Geometry.{present};
ghost use Rattle.memory.specs.Memory.{groups};
ghost use Rattle.machine.specs.Refusal.{number_of, answered_or_0};
ghost use Rattle.machine.specs.Call.{box_at};
ghost use Rattle.versions_machine.specs.Allocation.{whole_box};
ghost use Rattle.versions_state.specs.State.{is_valid};
ghost use Rattle.versions_steps.specs.Ready.{Allocated};

use machine::Refusal;

// The first of questions 1, 2, 4 and 14 that says no to a call with a valid state refuses; else the next block.
pub fn allocate(state: &[u8], memory: &[u8], disk: &[u8], time: u32) -> Result<u32, Refusal>
    requires { is_valid present state.now ≡ true }
    ensures { Allocated present (whole_box present (groups present memory.now)) state.now
        (box_at memory.now disk.now) time (number_of result) (answered_or_0 result) }
{
    arguments::box_questions::check(memory, disk, time)?;
    let reserve = versions_state::reserve(state);
    let taken = versions_state::taken(state);
    let found = versions_search::two(memory, disk, time, reserve, taken);
    found.ok().ok_or(Refusal::TooFewFree)
}
