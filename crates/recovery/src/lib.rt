// Recovery: the log is walked once, from the first block on, and each part's last record that counts is in the result. The contract of
// `recover`, which has no precondition, fixes what it answers and every byte of the result by the definitions of recovery_machine.
#![tactic(auto)]

ghost use Rattle.std.specs.Prelude.{◌≡◌, List, ℕ};
ghost use Rattle.lockpage.specs.Geometry.{present};
ghost use Rattle.memory.specs.Memory.{groups};
ghost use Rattle.machine.specs.Refusal.{number_of};
ghost use Rattle.machine.specs.Question.{first_no};
ghost use Rattle.machine.specs.Call.{box_at};
ghost use Rattle.versions_machine.specs.Allocation.{whole_box};
ghost use Rattle.versions_state.specs.Layout.{parts};
ghost use Rattle.versions_state.specs.State.{newest_bytes};
ghost use Rattle.recovery_machine.specs.Walk.{goes_on};
ghost use Rattle.recovery_machine.specs.Recover.{recover_questions, recovered, recovery_at};
ghost use Rattle.recovery_machine.specs.Recover as R;
ghost use Rattle.recovery.specs.Marks.{Marks};
ghost use Rattle.recovery.specs.Ready.{StepReady, WalkReady};

use machine::Refusal;
use versions_machine::FIRST_BLOCK;
use versions_state::layout;

mod marks;
mod records;

pub const RESULT_SIZE: usize = layout::NEWESTS_SIZE;

// Questions 1, 2, 4 and 6: the first that says no refuses.
fn check(memory: &[u8], disk: &[u8], time: u32, res: &[u8]) -> Result<(), Refusal>
    ensures { number_of result ≡ first_no (recover_questions present (box_at memory.now disk.now) time res.now) }
{
    arguments::box_questions::check(memory, disk, time)?;
    if res.len() != RESULT_SIZE {
        return Err(Refusal::LengthWrong);
    }
    Ok(())
}

// Whether the walk goes on at a block of the box, whose parent was written at a time.
fn goes_on(
    memory: &[u8],
    disk: &[u8],
    point: u32,
    time: u32,
    parent: u32,
    marks: &[u8],
    block: u32,
) -> bool
    requires { StepReady present (box_at memory.now disk.now) marks.now block }
    ensures { (walked : List ℕ) → Marks marks.now walked
        → result ≡ goes_on present (whole_box present (groups present memory.now)) (box_at memory.now disk.now) point time walked parent block }
{
    let e = current_page::entry(memory, disk, block);
    if !records::says_kept(e, point, time) {
        return false;
    }
    let follows = e.stamp / 2 >= parent;
    follows && !marks::is_marked(marks, block)
}

// Walks the log, and takes the records of each block walked.
fn walk(memory: &[u8], disk: &[u8], point: u32, time: u32, res: &mut [u8])
    requires { WalkReady present (box_at memory.now disk.now) res.old }
    ensures { res.new
        ≡ newest_bytes (recovered present (whole_box present (groups present memory.now)) (box_at memory.now disk.now) point time) 0 parts }
{
    let end = versions_search::end_of(memory);
    let mut marks = [0u8; marks::MARKS_SIZE];
    let mut parent = 0;
    let mut next = FIRST_BLOCK as u64;
    for _ in 0..end {
        if next >= end as u64 {
            return;
        }
        let block = next as u32;
        if !goes_on(memory, disk, point, time, parent, &marks, block) {
            return;
        }
        marks::mark(&mut marks, block);
        parent = current_page::entry(memory, disk, block).stamp / 2;
        let content = disk::whole::lend_block(disk, block);
        next = octets::load_u64(content, layout::POINTER_START);
        records::take_records(memory, disk, point, time, end, content, res);
    }
}

// The parts that the log has by the point: their blocks in the result. Where it is refused, no byte is changed.
pub fn recover(
    memory: &[u8],
    disk: &[u8],
    point: u32,
    time: u32,
    res: &mut [u8],
) -> Result<(), Refusal>
    ensures { recovery_at (number_of result) res.new
        ≡ R.recover present (whole_box present (groups present memory.now)) (box_at memory.now disk.now) point time res.old }
{
    check(memory, disk, time, res)?;
    octets::fill(res, 0, RESULT_SIZE, layout::UNUSED);
    walk(memory, disk, point, time, res);
    Ok(())
}
