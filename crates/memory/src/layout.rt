// Where each field stands, its size, and the limits of what it holds.
ghost use Rattle.std.specs.Prelude.{◌≡◌};
ghost use Rattle.memory.specs.Layout.{count_start};

pub const SALT_START: usize = 0;

pub const SALT_SIZE: usize = 32;

pub const COUNTS_START: usize = SALT_START + SALT_SIZE;

pub const COUNT_SIZE: usize = 4;

pub const MOST_GROUPS: u32 = 64;

pub const TIME_START: usize = COUNTS_START + COUNT_SIZE * MOST_GROUPS as usize;

const TIME_SIZE: usize = 4;

pub const GROUPS_START: usize = TIME_START + TIME_SIZE;

pub const HELD_START: usize = GROUPS_START + 1;

pub const UPDATE_COUNT_START: usize = HELD_START + 1;

pub const RESERVED_START: usize = UPDATE_COUNT_START + 1;

pub const RESERVED_SIZE: usize = 1;

pub const PAGE_START: usize = RESERVED_START + RESERVED_SIZE;

pub const MEMORY_SIZE: usize = PAGE_START + lockpage::PAGE_SIZE;

// In the place of a held group: no page is held.
pub const NONE: u8 = 255;

// A held page has had at most this many updates.
pub const MOST_UPDATES: u32 = 63;

// Where a group's count stands.
pub fn count_start(group: u32) -> usize
    ensures { result ≡ count_start group }
{
    COUNTS_START + COUNT_SIZE * group as usize
}
