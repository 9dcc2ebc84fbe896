// What a start and calls change in the version store's state. The contracts cite specs/, and the definitions of versions_machine and
// versions_state.
#![tactic(auto)]

ghost use Rattle.std.specs.Prelude.{◌≡◌, true, ◌≤◌, length};
ghost use Rattle.octets.specs.Number.{with_number};
ghost use Rattle.lockpage.specs.Geometry.{present};
ghost use Rattle.versions_machine.specs.Versions.{Versions, entered, logged};
ghost use Rattle.versions_machine.specs.Versions as M;
ghost use Rattle.versions_machine.specs.Allocation.{first_block};
ghost use Rattle.versions_machine.specs.Call.{last_part};
ghost use Rattle.versions_state.specs.Layout.{field_size, newest_start, most_records, state_size};
ghost use Rattle.versions_state.specs.State.{state_bytes, versions_in, is_valid};
ghost use Rattle.versions_updates.specs.Ready.{EnterReady};

use versions_machine::FIRST_BLOCK;
use versions_state::layout;

// Makes the state that of a store just started.
pub fn start(state: &mut [u8], lock: u32)
    requires { length state.old ≡ state_size present }
    ensures { state.new ≡ state_bytes present (M.start first_block lock) }
{
    octets::store_u32(state, layout::LOCK_START, lock);
    octets::store_u32(state, layout::RESERVE_START, FIRST_BLOCK);
    octets::store_u32(state, layout::TAKEN_START, FIRST_BLOCK);
    octets::store_u32(state, layout::RECORD_COUNT_START, 0);
    octets::fill(
        state,
        layout::NEWESTS_START,
        layout::STATE_SIZE - layout::NEWESTS_START,
        layout::UNUSED,
    );
}

// Sets a part's newest block.
fn set_newest(state: &mut [u8], part: u32, block: u32)
    requires { (length state.old ≡ state_size present) × (part ≤ last_part) }
    ensures { state.new ≡ with_number state.old (newest_start part) field_size block }
{
    octets::store_u32(state, layout::newest_start(part), block);
}

// Enters a version: its block is the part's newest, and the one last taken, and its record is the last.
pub fn enter(state: &mut [u8], part: u32, block: u32)
    requires { EnterReady present state.old part }
    ensures { state.new ≡ state_bytes present (entered (versions_in state.old) part block) }
{
    let n = versions_state::record_count(state);
    let at = layout::record_start(n);
    set_newest(state, part, block);
    octets::store_u32(state, layout::TAKEN_START, block);
    octets::store_u32(state, at, part);
    octets::store_u32(state, at + layout::RECORD_FIELD, block);
    octets::store_u32(state, layout::RECORD_COUNT_START, n + 1);
}

// Makes a log block's pointer the reserve and the block last taken, and leaves no records.
fn clear_records(state: &mut [u8], pointer: u32)
    requires { length state.old ≡ state_size present }
    ensures { (ν : Versions) → state.old ≡ state_bytes present ν → length ν.records ≤ most_records present
        → state.new ≡ state_bytes present (logged ν pointer) }
{
    octets::store_u32(state, layout::RESERVE_START, pointer);
    octets::store_u32(state, layout::TAKEN_START, pointer);
    octets::store_u32(state, layout::RECORD_COUNT_START, 0);
    octets::fill(
        state,
        layout::RECORDS_START,
        layout::RECORDS_SIZE,
        layout::UNUSED,
    );
}

// A log block was stored with the records and this pointer.
pub fn log(state: &mut [u8], pointer: u32)
    requires { is_valid present state.old ≡ true }
    ensures { state.new ≡ state_bytes present (logged (versions_in state.old) pointer) }
{
    clear_records(state, pointer);
}

// Enters a version whose record is in a log block already, stored with this pointer.
pub fn enter_logged(state: &mut [u8], part: u32, block: u32, pointer: u32)
    requires { (is_valid present state.old ≡ true) × (part ≤ last_part) }
    ensures { state.new ≡ state_bytes present (logged (entered (versions_in state.old) part block) pointer) }
{
    set_newest(state, part, block);
    clear_records(state, pointer);
}
