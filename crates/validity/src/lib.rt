// The check of a controller memory that comes from outside.
#![tactic(auto)]

ghost use Rattle.std.specs.Prelude.{◌≡◌, ◌-◌, ◌≤◌, length};
ghost use Rattle.lockpage.specs.Geometry.{present};
ghost use Rattle.memory.specs.Layout.{memory_size, count_start, time_start};
ghost use Rattle.memory.specs.Memory.{groups};
ghost use Rattle.validity.specs.Valid.{zero_at, valid_held, valid as is_valid};

use memory::layout;

// A count at this limit is exhausted.
pub const COUNT_LIMIT: u32 = 4294967294;

// With so many groups or fewer, most counts are unused.
const FEW_GROUPS: u32 = 16;

// The bytes of the counts that are unused with FEW_GROUPS.
const PIECE_SIZE: usize = layout::COUNT_SIZE * (layout::MOST_GROUPS - FEW_GROUPS) as usize;

// Whether what is held is valid, a page or none.
#[tactic(auto, using(crate::proofs::CheckLaw::held_tests), unfolding(crate::specs::Valid::valid_held, crate::specs::Valid::every))]
fn valid_held(memory: &[u8]) -> bool
    requires { (length memory.now ≡ memory_size present) × (groups present memory.now ≤ present.most_groups) }
    ensures { result ≡ valid_held present memory.now }
{
    let updates = memory::update_count(memory);
    let Some(group) = memory::held(memory) else {
        return updates == 0 && held_page::is_zero(memory);
    };
    if memory::groups(memory) <= group {
        return false;
    }
    let count = memory::count(memory, group);
    1 <= count && count <= COUNT_LIMIT && 1 <= updates && updates <= layout::MOST_UPDATES
}

// Whether the counts of the groups from first on are 0. With few groups most are, and go in one piece of a fixed size, which a compiler
// takes without a loop; then the last ones, where the piece ends before them.
#[tactic(auto, using(crate::proofs::CheckLaw::piece_used, crate::proofs::CheckLaw::piece_all, crate::proofs::CheckLaw::last_decides))]
fn are_unused(memory: &[u8], first: u32) -> bool
    requires { (length memory.now ≡ memory_size present) × (first ≤ present.most_groups) }
    ensures { result ≡ zero_at memory.now (count_start first) (time_start present - count_start first) }
{
    let mut from = layout::count_start(first);
    if first <= FEW_GROUPS {
        if !octets::filled(memory, from, PIECE_SIZE, 0) {
            return false;
        }
        if first == FEW_GROUPS {
            return true;
        }
        from = layout::COUNTS_START + PIECE_SIZE;
    }
    octets::filled(memory, from, layout::TIME_START - from, 0)
}

// Whether the memory is valid.
#[tactic(auto, using(std::proofs::lemmas::Bool::Decides::nat_tests), unfolding(crate::specs::Valid::valid, crate::specs::Valid::every))]
pub fn valid(memory: &[u8]) -> bool
    ensures { result ≡ is_valid present memory.now }
{
    if memory.len() != layout::MEMORY_SIZE {
        return false;
    }
    let groups = memory::groups(memory);
    1 <= groups
        && groups <= layout::MOST_GROUPS
        && memory::last_time(memory) <= lockpage::updates::LATEST_TIME
        && are_unused(memory, groups)
        && octets::filled(memory, layout::RESERVED_START, layout::RESERVED_SIZE, 0)
        && valid_held(memory)
}
