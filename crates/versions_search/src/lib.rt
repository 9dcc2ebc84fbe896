// Which block is allocated next. The contracts cite the definitions of versions_machine, and specs/ what is taken for granted.
#![tactic(auto)]

ghost use Rattle.std.specs.Prelude.{◌≡◌, true, ◌-◌, ◌<◌, IfSome};
ghost use Rattle.std.specs.List.{find};
ghost use Rattle.lockpage.specs.Geometry.{present};
ghost use Rattle.addressing.specs.Map.{data_blocks};
ghost use Rattle.memory.specs.Memory.{groups};
ghost use Rattle.validity.specs.Valid.{valid};
ghost use Rattle.machine.specs.Call.{box_at};
ghost use Rattle.machine.specs.Claims.{ValidBox};
ghost use Rattle.versions_machine.specs.Allocation.{is_available, blocks_from, whole_box, next_available};
ghost use Rattle.versions_search.specs.Ready.{SearchReady, Behind, next_of_two};

use lockpage::{State, states};
use versions_machine::FIRST_BLOCK;

// Whether a block is free, and is not the reserve. Its entry is read where it lies.
#[tactic(auto, using(crate::proofs::IntervalLaw::available_free, crate::proofs::IntervalLaw::not_available))]
fn is_available(memory: &[u8], disk: &[u8], time: u32, reserve: u32, block: u32) -> bool
    requires { ValidBox present (box_at memory.now disk.now) × (block < data_blocks present (groups present memory.now)) }
    ensures { result ≡ is_available present (box_at memory.now disk.now) time reserve block }
{
    let e = current_page::entry(memory, disk, block);
    matches!(states::state(e, time), State::Free) && block != reserve
}

// The first available block from one on, before the end.
fn next_in(memory: &[u8], disk: &[u8], time: u32, reserve: u32, from: u32, end: u32) -> Option<u32>
    requires { SearchReady present (box_at memory.now disk.now) from end }
    ensures found { result ≡ find (is_available present (box_at memory.now disk.now) time reserve) (blocks_from from (end - from)) }
    ensures below { IfSome result (λ r. r < end) }
{
    (from..end).find(|&block| is_available(memory, disk, time, reserve, block))
}

// The number of the box's blocks.
pub fn end_of(memory: &[u8]) -> u32
    requires { valid present memory.now ≡ true }
    ensures { result ≡ data_blocks present (groups present memory.now) }
{
    addressing::data_blocks(memory::groups(memory)) as u32
}

// Where the search begins: behind the block last taken, or at the end where that is none of the box's.
fn behind(taken: u32, end: u32) -> u32
    ensures { Behind taken end result }
{
    if taken < end { taken + 1 } else { end }
}

// The block that is allocated next.
pub fn next(memory: &[u8], disk: &[u8], time: u32, reserve: u32, taken: u32) -> u32
    requires { ValidBox present (box_at memory.now disk.now) }
    ensures { result ≡ next_available present (whole_box present (groups present memory.now)) (box_at memory.now disk.now)
        time reserve taken }
{
    let end = end_of(memory);
    let start = behind(taken, end);
    let later = next_in(memory, disk, time, reserve, start, end);
    let found = later.or_else(|| next_in(memory, disk, time, reserve, FIRST_BLOCK, start));
    found.unwrap_or(taken)
}

// The block that is allocated next: Ok where there is another one besides it, and else Err. The search stops at the second.
pub fn two(memory: &[u8], disk: &[u8], time: u32, reserve: u32, taken: u32) -> Result<u32, u32>
    requires { ValidBox present (box_at memory.now disk.now) }
    ensures { result ≡ next_of_two present (whole_box present (groups present memory.now)) (box_at memory.now disk.now) time reserve taken }
{
    let end = end_of(memory);
    let start = behind(taken, end);
    if let Some(later) = next_in(memory, disk, time, reserve, start, end) {
        return next_in(memory, disk, time, reserve, later + 1, end)
            .or_else(|| next_in(memory, disk, time, reserve, FIRST_BLOCK, start))
            .and(Some(later))
            .ok_or(later);
    }
    let Some(earlier) = next_in(memory, disk, time, reserve, FIRST_BLOCK, start) else {
        return Err(taken);
    };
    next_in(memory, disk, time, reserve, earlier + 1, start)
        .and(Some(earlier))
        .ok_or(earlier)
}
