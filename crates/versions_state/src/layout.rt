// Where each field stands, its size, and the limits of what it holds.
ghost use Rattle.std.specs.Prelude.{◌≡◌};
ghost use Rattle.versions_state.specs.Layout.{newest_start, record_start};

pub const FIELD_SIZE: usize = 4;

pub const LOCK_START: usize = 0;

pub const RESERVE_START: usize = LOCK_START + FIELD_SIZE;

pub const TAKEN_START: usize = RESERVE_START + FIELD_SIZE;

pub const RECORD_COUNT_START: usize = TAKEN_START + FIELD_SIZE;

pub const NEWESTS_START: usize = RECORD_COUNT_START + FIELD_SIZE;

pub const PARTS: u32 = versions_machine::LAST_PART + 1;

// The block numbers of all parts.
pub const NEWESTS_SIZE: usize = FIELD_SIZE * PARTS as usize;

pub const RECORDS_START: usize = NEWESTS_START + NEWESTS_SIZE;

// Of a record: its part, and then its block.
pub const RECORD_FIELD: usize = 4;

pub const RECORD_SIZE: usize = RECORD_FIELD + RECORD_FIELD;

// Of a log block: one less than a page has entries. Its pointer stands behind them.
pub const RECORDS_PER_BLOCK: u32 = lockpage::ENTRIES_PER_PAGE as u32 - 1;

pub const POINTER_START: usize = RECORD_SIZE * RECORDS_PER_BLOCK as usize;

// One less than a log block has.
pub const MOST_RECORDS: u32 = RECORDS_PER_BLOCK - 1;

pub const RECORDS_SIZE: usize = RECORD_SIZE * MOST_RECORDS as usize;

pub const STATE_SIZE: usize = RECORDS_START + RECORDS_SIZE;

// In each byte of a record that is not there.
pub const UNUSED: u8 = 255;

// The data blocks of the largest box.
pub const MOST_BLOCKS: u32 = lockpage::ENTRIES_PER_PAGE as u32 * memory::layout::MOST_GROUPS;

// Where a part's newest block stands.
pub fn newest_start(part: u32) -> usize
    ensures { result ≡ newest_start part }
{
    NEWESTS_START + FIELD_SIZE * part as usize
}

// Where record i stands.
pub fn record_start(i: u32) -> usize
    ensures { result ≡ record_start i }
{
    RECORDS_START + RECORD_SIZE * i as usize
}
