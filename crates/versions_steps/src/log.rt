// A log block: filled, stored in the reserve, and the next reserve taken.
ghost use Rattle.std.specs.Prelude.{◌≡◌};
ghost use Rattle.lockpage.specs.Geometry.{present};
ghost use Rattle.memory.specs.Memory.{groups};
ghost use Rattle.machine.specs.Refusal.{number_of};
ghost use Rattle.machine.specs.Call.{box_at};
ghost use Rattle.versions_machine.specs.Versions.{entered};
ghost use Rattle.versions_machine.specs.Allocation.{whole_box};
ghost use Rattle.versions_machine.specs.Plan.{carried_out, log_plan};
ghost use Rattle.versions_machine.specs.Call.{flush};
ghost use Rattle.versions_state.specs.State.{state_bytes, versions_in};
ghost use Rattle.versions_bytes.specs.Call.{called_at, handed};
ghost use Rattle.versions_steps.specs.Ready.{FullLogReady, FlushReady};

use addressing::BLOCK_SIZE;
use lockpage::Update;
use machine::Refusal;

// Stores the log block that the record of a put fills, last in its put. Its command is accepted: the put was forecast.
pub(crate) fn store_full(
    state: &mut [u8],
    memory: &mut [u8],
    disk: &mut [u8],
    part: u32,
    block: u32,
    time: u32,
)
    requires { FullLogReady present (whole_box present (groups present memory.old)) state.old (box_at memory.old disk.old) part block time }
    ensures { (state.new ≡ state_bytes present (log_plan present (whole_box present (groups present memory.old))
        (entered (versions_in state.old) part block) (box_at memory.old disk.old) time).after)
        × (box_at memory.new disk.new ≡ (carried_out present (box_at memory.old disk.old)
        (log_plan present (whole_box present (groups present memory.old)) (entered (versions_in state.old) part block)
        (box_at memory.old disk.old) time).orders).box) }
{
    let reserve = versions_state::reserve(state);
    let pointer = versions_search::next(memory, disk, time, reserve, block);
    let mut content = [0u8; BLOCK_SIZE];
    versions_log::fill_full_log(state, part, block, pointer, &mut content);
    let lock = versions_state::lock(state);
    let _ = versions_orders::give(memory, disk, Update::Write(lock), reserve, time, &content);
    versions_updates::enter_logged(state, part, block, pointer);
}

// Stores the records on demand, with a pointer to the next reserve. Where its command is refused, no byte is changed.
pub fn store(
    state: &mut [u8],
    memory: &mut [u8],
    disk: &mut [u8],
    pointer: u32,
    time: u32,
) -> Result<(), Refusal>
    requires { FlushReady present (whole_box present (groups present memory.old)) state.old (box_at memory.old disk.old) pointer time }
    ensures { called_at (number_of result) 0 state.new memory.new disk.new ≡ handed present state.old
        (flush present (whole_box present (groups present memory.old)) (versions_in state.old) (box_at memory.old disk.old)
        time) }
{
    let mut content = [0u8; BLOCK_SIZE];
    versions_log::fill_log(state, pointer, &mut content);
    let lock = versions_state::lock(state);
    let reserve = versions_state::reserve(state);
    versions_orders::give(memory, disk, Update::Write(lock), reserve, time, &content)?;
    versions_updates::log(state, pointer);
    Ok(())
}
