// The controller memory: 808 bytes that the caller lends. Its fields but the held page, and the memory of formatting. The
// contracts cite specs/.
#![tactic(auto)]

ghost use Rattle.std.specs.Prelude.{◌≡◌, eqb, length};
ghost use Rattle.octets.specs.Part.{equal};
ghost use Rattle.lockpage.specs.Geometry.{present};
ghost use Rattle.memory.specs.Layout.{memory_size, salt_size};
ghost use Rattle.memory.specs.Memory.{last_time, update_count, with_salt, with_count, with_no_counts, with_last_time, formatted_memory, group_held};
ghost use Rattle.memory.specs.Memory as M;
ghost use Rattle.memory.specs.Ready.{HasCount, FormatReady};

pub mod layout;

// The number of groups.
#[tactic(auto, unfolding(crate::specs::Memory::groups))]
pub fn groups(memory: &[u8]) -> u32
    requires { length memory.now ≡ memory_size present }
    ensures { result ≡ M.groups present memory.now }
{
    u32::from(octets::load_u8(memory, layout::GROUPS_START))
}

// The held group, if any.
#[tactic(auto, unfolding(crate::specs::Memory::held, crate::specs::Memory::group_held))]
pub fn held(memory: &[u8]) -> Option<u32>
    requires { length memory.now ≡ memory_size present }
    ensures { result ≡ group_held (M.held present memory.now) }
{
    let group = octets::load_u8(memory, layout::HELD_START);
    if group == layout::NONE {
        return None;
    }
    Some(u32::from(group))
}

// Whether a group is named as the held one.
#[tactic(auto, unfolding(crate::specs::Memory::held))]
pub fn is_held(memory: &[u8], group: u32) -> bool
    requires { length memory.now ≡ memory_size present }
    ensures { result ≡ eqb (M.held present memory.now) group }
{
    u32::from(octets::load_u8(memory, layout::HELD_START)) == group
}

// How many updates the held page has had.
#[tactic(auto, unfolding(crate::specs::Memory::update_count))]
pub fn update_count(memory: &[u8]) -> u32
    requires { length memory.now ≡ memory_size present }
    ensures { result ≡ update_count present memory.now }
{
    u32::from(octets::load_u8(memory, layout::UPDATE_COUNT_START))
}

// The last time.
#[tactic(auto, unfolding(crate::specs::Memory::last_time))]
pub fn last_time(memory: &[u8]) -> u32
    requires { length memory.now ≡ memory_size present }
    ensures { result ≡ last_time present memory.now }
{
    octets::load_u32(memory, layout::TIME_START)
}

// Sets the last time.
#[tactic(auto, unfolding(crate::specs::Memory::with_last_time))]
pub fn set_last_time(memory: &mut [u8], time: u32)
    requires { length memory.old ≡ memory_size present }
    ensures { memory.new ≡ with_last_time present memory.old time }
{
    octets::store_u32(memory, layout::TIME_START, time);
}

// The freshness count of a group.
#[tactic(auto, unfolding(crate::specs::Memory::count))]
pub fn count(memory: &[u8], group: u32) -> u32
    requires { HasCount present memory.now group }
    ensures { result ≡ M.count memory.now group }
{
    octets::load_u32(memory, layout::count_start(group))
}

// Sets the freshness count of a group.
#[tactic(auto, unfolding(crate::specs::Memory::with_count))]
pub fn set_count(memory: &mut [u8], group: u32, n: u32)
    requires { HasCount present memory.old group }
    ensures { memory.new ≡ with_count memory.old group n }
{
    octets::store_u32(memory, layout::count_start(group), n);
}

// Sets all counts to 0.
#[tactic(auto, unfolding(crate::specs::Memory::with_no_counts))]
pub fn clear_counts(memory: &mut [u8])
    requires { length memory.old ≡ memory_size present }
    ensures { memory.new ≡ with_no_counts present memory.old }
{
    octets::fill(
        memory,
        layout::COUNTS_START,
        layout::TIME_START - layout::COUNTS_START,
        0,
    );
}

// The salt, to be read where it lies.
#[tactic(auto, unfolding(crate::specs::Memory::salt, octets::specs::Part::part))]
fn lend_salt(memory: &[u8]) -> &[u8]
    requires { length memory.now ≡ memory_size present }
    ensures { (result.now ≡ M.salt memory.now) × (length result.now ≡ salt_size) }
{
    &memory[layout::SALT_START..layout::SALT_START + layout::SALT_SIZE]
}

// Copies the salt into out.
pub fn copy_salt(memory: &[u8], out: &mut [u8])
    requires { (length memory.now ≡ memory_size present) × (length out.old ≡ salt_size) }
    ensures { out.new ≡ M.salt memory.now }
{
    out.copy_from_slice(lend_salt(memory));
}

// Whether the salt is the one given.
pub fn has_salt(memory: &[u8], salt: &[u8]) -> bool
    requires { length memory.now ≡ memory_size present }
    ensures { result ≡ equal (M.salt memory.now) salt.now }
{
    octets::equal(lend_salt(memory), salt)
}

// Sets the salt.
#[tactic(auto, unfolding(crate::specs::Memory::with_salt))]
pub fn set_salt(memory: &mut [u8], salt: &[u8])
    requires { (length memory.old ≡ memory_size present) × (length salt.now ≡ salt_size) }
    ensures { memory.new ≡ with_salt memory.old salt.now }
{
    octets::store_bytes(memory, layout::SALT_START, salt);
}

// Makes the memory that of a box just formatted.
pub fn format(memory: &mut [u8], groups: u32, salt: &[u8])
    requires { FormatReady present memory.old groups salt.now }
    ensures { memory.new ≡ formatted_memory present groups salt.now }
{
    octets::fill(memory, 0, layout::MEMORY_SIZE, 0);
    set_salt(memory, salt);
    octets::store_u8(memory, layout::GROUPS_START, groups as u8);
    octets::store_u8(memory, layout::HELD_START, layout::NONE);
}
