// A version: whether its commands will be accepted, and the commands.
ghost use Rattle.std.specs.Prelude.{◌≡◌, ◌∷◌};
ghost use Rattle.lockpage.specs.Geometry.{present};
ghost use Rattle.memory.specs.Memory.{groups};
ghost use Rattle.machine.specs.Refusal.{number_of};
ghost use Rattle.machine.specs.Call.{box_at};
ghost use Rattle.versions_machine.specs.Allocation.{whole_box};
ghost use Rattle.versions_machine.specs.Plan.{writing, unfreezes, carried_out};
ghost use Rattle.versions_machine.specs.Call as M;
ghost use Rattle.versions_state.specs.State.{versions_in};
ghost use Rattle.versions_steps.specs.Ready.{Leaves, VersionReady, PutReady, StoreReady};

use crate::log;
use lockpage::Update;
use machine::Refusal;
use versions_state::layout::MOST_RECORDS;

// Why a put will be refused, from what is read before its first command.
pub fn forecast(
    state: &[u8],
    memory: &[u8],
    disk: &[u8],
    part: u32,
    block: u32,
    time: u32,
    content: &[u8],
) -> Result<(), Refusal>
    requires { PutReady present (whole_box present (groups present memory.now)) state.now (box_at memory.now disk.now) part block time }
    ensures { number_of result ≡ (M.put present (whole_box present (groups present memory.now)) (versions_in state.now)
        (box_at memory.now disk.now) part time content.now).number }
{
    versions_forecast::forecast(
        memory,
        disk,
        block,
        time,
        versions_state::lock(state),
        content,
        versions_state::newest(state, part),
        versions_state::record_count(state) == MOST_RECORDS,
        versions_state::reserve(state),
    )
}

// Writes a version, and unfreezes the one that it replaces. Both commands are accepted: the put was forecast.
fn write(
    memory: &mut [u8],
    disk: &mut [u8],
    block: u32,
    time: u32,
    lock: u32,
    content: &[u8],
    replaced: Option<u32>,
)
    requires { VersionReady present (box_at memory.old disk.old) block time lock content.now replaced }
    ensures { box_at memory.new disk.new ≡ (carried_out present (box_at memory.old disk.old)
        (writing block time lock content.now ∷ unfreezes replaced time)).box }
{
    let _ = versions_orders::give(memory, disk, Update::Write(lock), block, time, content);
    if let Some(replaced) = replaced {
        let _ = versions_orders::give(
            memory,
            disk,
            Update::Unfreeze,
            replaced,
            time,
            &content[0..0],
        );
    }
}

// Carries out a put that will be accepted.
pub fn store(
    state: &mut [u8],
    memory: &mut [u8],
    disk: &mut [u8],
    part: u32,
    block: u32,
    time: u32,
    content: &[u8],
)
    requires { StoreReady present (whole_box present (groups present memory.old)) state.old (box_at memory.old disk.old) part block time content.now }
    ensures { Leaves present (M.put present (whole_box present (groups present memory.old)) (versions_in state.old)
        (box_at memory.old disk.old) part time content.now) state.new (box_at memory.new disk.new) }
{
    let lock = versions_state::lock(state);
    let replaced = versions_state::newest(state, part);
    write(memory, disk, block, time, lock, content, replaced);
    let has_room = versions_state::record_count(state) < MOST_RECORDS;
    if has_room {
        versions_updates::enter(state, part, block);
        return;
    }
    log::store_full(state, memory, disk, part, block, time);
}
