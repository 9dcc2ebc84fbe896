// The states of many blocks in one go: a query. Its questions first, then each group named is fetched once and its numbers are answered.
// The contract of `states`, which has no precondition, fixes what it answers and every byte of memory and answer by the definitions
// of machine.
#![tactic(auto)]

mod fill;
mod links;

ghost use Rattle.std.specs.Prelude.{◌≡◌};
ghost use Rattle.lockpage.specs.Geometry.{present};
ghost use Rattle.machine.specs.Query.{query_step};
ghost use Rattle.machine.specs.Refusal.{number_of, answered_or_0};
ghost use Rattle.machine.specs.Call.{box_at, query_at, query_outcome_at};

use machine::Refusal;

// One query: answers the pages read. Where it is refused, no byte is changed.
#[tactic(auto, using(lockpage::proofs::GeometryLaw::present_proper, crate::proofs::OutcomeLaw::refused))]
pub fn states(
    memory: &mut [u8],
    disk: &[u8],
    blocks: &[u8],
    time: u32,
    answer: &mut [u8],
) -> Result<u32, Refusal>
    ensures { query_outcome_at (number_of result) (answered_or_0 result) memory.new disk.now answer.new
        ≡ query_step present (box_at memory.old disk.now) (query_at blocks.now time answer.old) }
{
    block_list::check(memory, disk, blocks, time, answer)?;
    memory::set_last_time(memory, time);
    Ok(fill::fill(memory, disk, blocks, time, answer))
}
