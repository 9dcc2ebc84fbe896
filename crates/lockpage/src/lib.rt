// The lock page: entries, the states that they say, what the commands that change a page store. The contracts cite
// specs/.
#![tactic(auto)]

pub mod entries;
pub mod states;
pub mod updates;

pub const WORD_SIZE: usize = 4;

pub const ENTRY_SIZE: usize = 2 * WORD_SIZE;

// The bits of an entry's index on its page.
pub const INDEX_BITS: u32 = 6;

pub const ENTRIES_PER_PAGE: usize = 1 << INDEX_BITS;

pub const PAGE_SIZE: usize = ENTRY_SIZE * ENTRIES_PER_PAGE;

// An entry: "a 4-byte word, then a 4-byte stamp".
#[derive(Clone, Copy, Debug, PartialEq, Eq)]
pub struct Entry {
    pub word: u32,
    pub stamp: u32,
}

// A block's state.
#[derive(Clone, Copy, Debug, PartialEq, Eq)]
pub enum State {
    Free,
    Frozen,
    Counting,
}

// What changes an entry: kind 4 with its lock, kind 5, kind 6 with its value.
#[derive(Clone, Copy, Debug, PartialEq, Eq)]
pub enum Update {
    Write(u32),
    Unfreeze,
    Increment(u32),
}
