// The records of a log block, taken into the result. The contracts cite specs/Ready.antt, and the definitions of recovery_machine.
ghost use Rattle.std.specs.Prelude.{◌≡◌, [], ◌∷◌, ◌*◌, ◌<◌};
ghost use Rattle.lockpage.specs.Geometry.{present};
ghost use Rattle.memory.specs.Memory.{groups};
ghost use Rattle.machine.specs.Call.{box_at};
ghost use Rattle.versions_machine.specs.Log.{record_size, record_at, records_per_block, records_read};
ghost use Rattle.versions_machine.specs.Allocation.{whole_box};
ghost use Rattle.recovery_machine.specs.Walk.{is_kept};
ghost use Rattle.recovery.specs.Ready.{KeptReady, TakeReady, Takes, says_kept};

use lockpage::{Entry, states};
use versions_state::layout;

// Whether an entry says that its block is not free, and was written by the point: its stamp is at most that of a block which was unfrozen
// and written at the point.
pub(crate) fn says_kept(e: Entry, point: u32, time: u32) -> bool
    ensures { result ≡ says_kept point time e }
{
    if e.stamp as u64 > 2 * point as u64 + 1 {
        return false;
    }
    if states::is_frozen(e.stamp) {
        return true;
    }
    time < e.word
}

// Whether a block is in range, not free, and was written by the point.
fn is_kept(memory: &[u8], disk: &[u8], point: u32, time: u32, end: u32, block: u32) -> bool
    requires { KeptReady present (box_at memory.now disk.now) end }
    ensures { result ≡ is_kept present (whole_box present (groups present memory.now)) (box_at memory.now disk.now) point time block }
{
    if block >= end {
        return false;
    }
    says_kept(current_page::entry(memory, disk, block), point, time)
}

// Takes record i, if it counts: its block is the part's.
fn take_record(
    memory: &[u8],
    disk: &[u8],
    point: u32,
    time: u32,
    end: u32,
    content: &[u8],
    i: u32,
    res: &mut [u8],
)
    requires { TakeReady present (box_at memory.now disk.now) end content.now res.old × (i < records_per_block present) }
    ensures { Takes present (box_at memory.now disk.now) point time (record_at content.now (record_size * i) ∷ [])
        res.old res.new }
{
    let at = layout::RECORD_SIZE * i as usize;
    let part = octets::load_u32(content, at);
    if part > versions_machine::LAST_PART {
        return;
    }
    let block = octets::load_u32(content, at + layout::RECORD_FIELD);
    if is_kept(memory, disk, point, time, end, block) {
        octets::store_u32(res, layout::FIELD_SIZE * part as usize, block);
    }
}

// Takes the records of a log block, in order.
pub(crate) fn take_records(
    memory: &[u8],
    disk: &[u8],
    point: u32,
    time: u32,
    end: u32,
    content: &[u8],
    res: &mut [u8],
)
    requires { TakeReady present (box_at memory.now disk.now) end content.now res.old }
    ensures { Takes present (box_at memory.now disk.now) point time (records_read present content.now)
        res.old res.new }
{
    for i in 0..layout::RECORDS_PER_BLOCK {
        take_record(memory, disk, point, time, end, content, i, res);
    }
}
