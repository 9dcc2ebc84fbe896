// The version store: versions of parts in free blocks under one lock, the newest of each known, and a log on the disk. It reads memory and
// disk, and alters them by controller::update alone. Its calls have no precondition, and their contracts fix what is answered and
// every byte of state, memory and disk by the definitions of versions_bytes.
#![tactic(auto)]

ghost use Rattle.std.specs.Prelude.{◌≡◌, IfOk};
ghost use Rattle.lockpage.specs.Geometry.{present};
ghost use Rattle.memory.specs.Memory.{groups};
ghost use Rattle.machine.specs.Refusal.{number_of, answered_or_0};
ghost use Rattle.machine.specs.Call.{box_at};
ghost use Rattle.versions_machine.specs.Allocation.{first_block, whole_box};
ghost use Rattle.versions_state.specs.State.{versions_in};
ghost use Rattle.versions_bytes.specs.Call.{located_of, block_or_0, called_at, started_at, start_bytes, lookup, put_bytes, flush_bytes};

use machine::Refusal;
use versions_steps::{allocation, log, version};

// Starts a store with a lock: its state in buffer.
pub fn start(buffer: &mut [u8], lock: u32) -> Result<(), Refusal>
    ensures { started_at (number_of result) buffer.new ≡ start_bytes present first_block buffer.old lock }
{
    if buffer.len() != versions_state::layout::STATE_SIZE {
        return Err(Refusal::MemoryInvalid);
    }
    if !versions_state::is_lock(lock) {
        return Err(Refusal::LimitExceeded);
    }
    versions_updates::start(buffer, lock);
    Ok(())
}

// The block of a part's newest version, if it has one.
pub fn block(state: &[u8], part: u32) -> Result<Option<u32>, Refusal>
    ensures located { located_of (number_of result) (block_or_0 result) ≡ lookup present state.now part }
    ensures newest { IfOk result (λ block. block ≡ (versions_in state.now).newest part) }
{
    if part > versions_machine::LAST_PART {
        return Err(Refusal::PartOutOfRange);
    }
    if !versions_state::valid(state) {
        return Err(Refusal::MemoryInvalid);
    }
    Ok(versions_state::newest(state, part))
}

// Stores a version of a part, in the block answered. Where it is refused, no byte is changed.
pub fn put(
    state: &mut [u8],
    memory: &mut [u8],
    disk: &mut [u8],
    part: u32,
    time: u32,
    content: &[u8],
) -> Result<u32, Refusal>
    ensures { called_at (number_of result) (answered_or_0 result) state.new memory.new disk.new
        ≡ put_bytes present (whole_box present (groups present memory.old)) state.old (box_at memory.old disk.old)
        part time content.now }
{
    if part > versions_machine::LAST_PART {
        return Err(Refusal::PartOutOfRange);
    }
    if !versions_state::valid(state) {
        return Err(Refusal::MemoryInvalid);
    }
    let block = allocation::allocate(state, memory, disk, time)?;
    version::forecast(state, memory, disk, part, block, time, content)?;
    version::store(state, memory, disk, part, block, time, content);
    Ok(block)
}

// Stores the records that no log block has yet. Where it is refused, no byte is changed.
pub fn flush(state: &mut [u8], memory: &mut [u8], disk: &mut [u8], time: u32) -> Result<(), Refusal>
    ensures { called_at (number_of result) 0 state.new memory.new disk.new
        ≡ flush_bytes present (whole_box present (groups present memory.old)) state.old (box_at memory.old disk.old) time }
{
    if !versions_state::valid(state) {
        return Err(Refusal::MemoryInvalid);
    }
    let is_empty = versions_state::record_count(state) == 0;
    if is_empty {
        return Ok(());
    }
    let pointer = allocation::allocate(state, memory, disk, time)?;
    log::store(state, memory, disk, pointer, time)
}
