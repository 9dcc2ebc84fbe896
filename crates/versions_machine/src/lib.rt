// The version store above the controller as definitions, specs/, and theorems about them, proofs/. No function: what runs is above this
// crate.
#![tactic(auto)]

// The parts are 0 to this one.
pub const LAST_PART: u32 = 255;

// In the place of a block: none.
pub const NO_BLOCK: u32 = 4294967295;

// The first block that a store may use.
pub const FIRST_BLOCK: u32 = 0;
