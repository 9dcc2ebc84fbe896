// Why one of a put's commands will be refused, before the first is given. The contracts cite versions_machine's foreseen, and specs/ for
// the commands and what holds between them.
#![tactic(auto)]

ghost use Rattle.std.specs.Prelude.{◌≡◌, true, [], ◌∷◌, ◌≤◌, ◌^◌, eqb, ltb, length};
ghost use Rattle.lockpage.specs.Geometry.{present};
ghost use Rattle.lockpage.specs.Size.{block_size};
ghost use Rattle.lockpage.specs.Update.{latest_time};
ghost use Rattle.addressing.specs.Map.{data_blocks, group_of};
ghost use Rattle.memory.specs.Layout.{memory_size};
ghost use Rattle.memory.specs.Memory.{count, groups};
ghost use Rattle.memory.specs.Ready.{HasCount};
ghost use Rattle.validity.specs.Valid.{count_limit};
ghost use Rattle.machine.specs.Refusal.{number_of};
ghost use Rattle.machine.specs.Question.{Put, first_no};
ghost use Rattle.machine.specs.Tag.{current_entry};
ghost use Rattle.machine.specs.Call.{box_at};
ghost use Rattle.versions_machine.specs.Plan.{writing, unfreezes};
ghost use Rattle.versions_machine.specs.Foresight.{foreseen};
ghost use Rattle.versions_forecast.specs.Orders.{log_order, put_orders};
ghost use Rattle.versions_forecast.specs.Stages.{last_questions, entries_for, entries_past, raised, raised_for, counts_past};
ghost use Rattle.versions_forecast.specs.Ready.{ForecastReady, EntryReady, UnfreezeReady, ReserveReady};

use lockpage::{Entry, Update, states, updates};
use machine::Refusal;

// Questions 8 to 10 of a command, by its group's count and its block's entry: the first that says no refuses. All are answered first:
// they cost a few comparisons.
#[tactic(auto, unfolding(machine::specs::Question::first_no))]
fn check_order(count: u64, e: Entry, u: Update, time: u32) -> Result<(), Refusal>
    requires { time ≤ latest_time }
    ensures { number_of result ≡ first_no (last_questions count u time e) }
{
    let unexhausted = count < validity::COUNT_LIMIT as u64;
    let allowed = updates::allowed(u, states::state(e, time));
    let within = updates::within_limit(u, time, e);
    if !unexhausted {
        return Err(Refusal::CountExhausted);
    }
    if !allowed {
        return Err(Refusal::StateWrong);
    }
    if !within {
        return Err(Refusal::LimitExceeded);
    }
    Ok(())
}

// Whether a block is one of the box's.
fn is_inside(memory: &[u8], block: u32) -> bool
    requires { length memory.now ≡ memory_size present }
    ensures { result ≡ ltb block (data_blocks present (groups present memory.now)) }
{
    (block as usize) < addressing::data_blocks(memory::groups(memory))
}

// The count of a's group after a command on a block.
fn count_after(memory: &[u8], block: u32, a: u32) -> u64
    requires { HasCount present memory.now (group_of present a) }
    ensures { (result ≡ raised present (count memory.now) block (group_of present a)) × (result ≤ 2 ^ 32) }
{
    let group = addressing::group_of(a);
    let count = memory::count(memory, group) as u64;
    if addressing::group_of(block) == group {
        return count + 1;
    }
    count
}

// The same after a second command too, on the block of the version replaced, if there is one.
fn count_before_log(memory: &[u8], block: u32, replaced: Option<u32>, a: u32) -> u64
    requires { HasCount present memory.now (group_of present a) }
    ensures { result ≡ raised_for present (raised present (count memory.now) block) replaced (group_of present a) }
{
    let written = count_after(memory, block, a);
    let Some(replaced) = replaced else {
        return written;
    };
    if addressing::group_of(replaced) == addressing::group_of(a) {
        return written + 1;
    }
    written
}

// The entry of a after u has changed a block's, or none's.
fn entry_after(
    memory: &[u8],
    disk: &[u8],
    u: Update,
    block: Option<u32>,
    time: u32,
    a: u32,
) -> Entry
    requires { EntryReady present (box_at memory.now disk.now) u block time a }
    ensures { result ≡ entries_for (current_entry present (box_at memory.now disk.now)) u block time a }
{
    let e = current_page::entry(memory, disk, a);
    if block == Some(a) {
        return updates::updated(u, time, e);
    }
    e
}

// The write of the version. Its block is in the box and free, and its lock fits: questions 6 and 8 are left.
#[tactic(auto, unfolding(machine::specs::Question::first_no))]
fn check_write(memory: &[u8], block: u32, content: &[u8]) -> Result<(), Refusal>
    requires { HasCount present memory.now (group_of present block) }
    ensures { number_of result ≡ first_no (Put 6 (eqb (length content.now) (block_size present))
        ∷ Put 8 (ltb (count memory.now (group_of present block)) count_limit) ∷ []) }
{
    if content.len() != addressing::BLOCK_SIZE {
        return Err(Refusal::LengthWrong);
    }
    if memory::count(memory, addressing::group_of(block)) >= validity::COUNT_LIMIT {
        return Err(Refusal::CountExhausted);
    }
    Ok(())
}

// The unfreeze of the version that it replaces, if there is one, after the write.
fn check_unfreeze(
    memory: &[u8],
    disk: &[u8],
    block: u32,
    time: u32,
    lock: u32,
    replaced: Option<u32>,
) -> Result<(), Refusal>
    requires { UnfreezeReady present (box_at memory.now disk.now) time lock }
    ensures { number_of result ≡ foreseen present (groups present memory.now)
        (counts_past present (count memory.now) (writing block time lock [] ∷ []))
        (entries_past (current_entry present (box_at memory.now disk.now)) (writing block time lock [] ∷ []))
        (unfreezes replaced time) }
{
    let Some(replaced) = replaced else {
        return Ok(());
    };
    if !is_inside(memory, replaced) {
        return Err(Refusal::AddressOutOfRange);
    }
    let count = count_after(memory, block, replaced);
    let e = entry_after(
        memory,
        disk,
        Update::Write(lock),
        Some(block),
        time,
        replaced,
    );
    check_order(count, e, Update::Unfreeze, time)
}

// The write of the log block into the reserve, after both. The reserve is not the block that the version is written into, and the log
// block has a block's length.
fn check_log(
    memory: &[u8],
    disk: &[u8],
    block: u32,
    time: u32,
    lock: u32,
    replaced: Option<u32>,
    reserve: u32,
) -> Result<(), Refusal>
    requires { ReserveReady present (box_at memory.now disk.now) block time replaced reserve }
    ensures { number_of result ≡ foreseen present (groups present memory.now)
        (counts_past present (count memory.now) (writing block time lock [] ∷ unfreezes replaced time))
        (entries_past (current_entry present (box_at memory.now disk.now)) (writing block time lock [] ∷ unfreezes replaced time))
        (log_order present true reserve time lock) }
{
    if !is_inside(memory, reserve) {
        return Err(Refusal::AddressOutOfRange);
    }
    let count = count_before_log(memory, block, replaced, reserve);
    let e = entry_after(memory, disk, Update::Unfreeze, replaced, time, reserve);
    check_order(count, e, Update::Write(lock), time)
}

// Why one of a put's commands will be refused, the first in their order. `replaced` is the block of the version that it replaces, if
// there is one; `due` says whether its log block is due.
pub fn forecast(
    memory: &[u8],
    disk: &[u8],
    block: u32,
    time: u32,
    lock: u32,
    content: &[u8],
    replaced: Option<u32>,
    due: bool,
    reserve: u32,
) -> Result<(), Refusal>
    requires { ForecastReady present (box_at memory.now disk.now) block time lock reserve }
    ensures { number_of result ≡ foreseen present (groups present memory.now) (count memory.now)
        (current_entry present (box_at memory.now disk.now))
        (put_orders present block time lock content.now replaced due reserve) }
{
    check_write(memory, block, content)?;
    check_unfreeze(memory, disk, block, time, lock, replaced)?;
    if !due {
        return Ok(());
    }
    check_log(memory, disk, block, time, lock, replaced, reserve)
}
