// The version store's state: 1,536 bytes that the caller lends, and hands on from call to call. The contracts cite specs/, and the
// definitions of versions_machine.
#![tactic(auto)]

ghost use Rattle.std.specs.Prelude.{◌≡◌, ◌≤◌, ◌<◌, length};
ghost use mathlib.Core.List.{all};
ghost use Rattle.lockpage.specs.Geometry.{present};
ghost use Rattle.versions_machine.specs.Versions.{is_lock};
ghost use Rattle.versions_machine.specs.Call.{last_part};
ghost use Rattle.versions_state.specs.Layout.{most_records, state_size};
ghost use Rattle.versions_state.specs.State.{record_count, record_in, records_in, versions_in, newest_number, is_newest, is_record, newests_fit, is_valid};

pub mod layout;

// The lock R.
#[tactic(auto, unfolding(crate::specs::State::versions_in))]
pub fn lock(state: &[u8]) -> u32
    requires { length state.now ≡ state_size present }
    ensures { result ≡ (versions_in state.now).lock }
{
    octets::load_u32(state, layout::LOCK_START)
}

// The reserved block.
#[tactic(auto, unfolding(crate::specs::State::versions_in))]
pub fn reserve(state: &[u8]) -> u32
    requires { length state.now ≡ state_size present }
    ensures { result ≡ (versions_in state.now).reserve }
{
    octets::load_u32(state, layout::RESERVE_START)
}

// The block last taken.
#[tactic(auto, unfolding(crate::specs::State::versions_in))]
pub fn taken(state: &[u8]) -> u32
    requires { length state.now ≡ state_size present }
    ensures { result ≡ (versions_in state.now).taken }
{
    octets::load_u32(state, layout::TAKEN_START)
}

// How many records no log block has yet.
#[tactic(auto, unfolding(crate::specs::State::record_count))]
pub fn record_count(state: &[u8]) -> u32
    requires { length state.now ≡ state_size present }
    ensures { result ≡ record_count state.now }
{
    octets::load_u32(state, layout::RECORD_COUNT_START)
}

// The block of a part's newest version.
#[tactic(auto, using(crate::proofs::ReadLaw::newest_loaded))]
pub fn newest(state: &[u8], part: u32) -> Option<u32>
    requires { (length state.now ≡ state_size present) × (part ≤ last_part) }
    ensures { result ≡ (versions_in state.now).newest part }
{
    let block = octets::load_u32(state, layout::newest_start(part));
    (block != versions_machine::NO_BLOCK).then_some(block)
}

// Question 10 of a lock.
pub fn is_lock(lock: u32) -> bool
    ensures { result ≡ is_lock lock }
{
    lock >= 1 && lock as u64 <= lockpage::updates::LONGEST_LOCK
}

// Whether a part's newest block, if it has one, is a data block of the largest box.
#[tactic(auto, using(crate::proofs::CheckLaw::none_fits, crate::proofs::CheckLaw::block_fits))]
fn newest_fits(state: &[u8], part: u32) -> bool
    requires { (length state.now ≡ state_size present) × (part ≤ last_part) }
    ensures { result ≡ is_newest present (newest_number state.now part) }
{
    newest(state, part).is_none_or(|block| block < layout::MOST_BLOCKS)
}

// Whether each part's newest block is one. All are looked at, so that the loop has one way out: a compiler takes several at a time.
fn newests_fit(state: &[u8]) -> bool
    requires { length state.now ≡ state_size present }
    ensures { result ≡ newests_fit present state.now }
{
    let mut fit = true;
    for part in 0..layout::PARTS {
        fit &= newest_fits(state, part);
    }
    fit
}

// Whether record i can be one.
#[tactic(auto, using(crate::proofs::CheckLaw::no_part, crate::proofs::CheckLaw::some_part))]
fn record_fits(state: &[u8], i: u32) -> bool
    requires { (length state.now ≡ state_size present) × (i < most_records present) }
    ensures { result ≡ is_record present (record_in state.now i) }
{
    let at = layout::record_start(i);
    let part = octets::load_u32(state, at);
    let block = octets::load_u32(state, at + layout::RECORD_FIELD);
    part <= versions_machine::LAST_PART && block < layout::MOST_BLOCKS
}

// Whether the first n records can be some. All are looked at, as the parts are.
fn records_fit(state: &[u8], n: u32) -> bool
    requires { (length state.now ≡ state_size present) × (n ≤ most_records present) }
    ensures { result ≡ all (records_in state.now 0 n) (is_record present) }
{
    let mut fit = true;
    for i in 0..n {
        fit &= record_fits(state, i);
    }
    fit
}

// Question 1 of the state: whether a start and calls can have left it, as far as its bytes tell.
pub fn valid(state: &[u8]) -> bool
    ensures { result ≡ is_valid present state.now }
{
    if state.len() != layout::STATE_SIZE {
        return false;
    }
    let n = record_count(state);
    if n > layout::MOST_RECORDS {
        return false;
    }
    let rest = layout::RECORD_SIZE * (layout::MOST_RECORDS - n) as usize;
    is_lock(lock(state))
        && newests_fit(state)
        && records_fit(state, n)
        && octets::filled(state, layout::record_start(n), rest, layout::UNUSED)
}
