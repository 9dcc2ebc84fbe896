// What the commands that change a page do to an entry.
ghost use Rattle.std.specs.Prelude.{◌≡◌, true, ◌≤◌};
ghost use Rattle.lockpage.specs.Update.{latest_time, expiry_at, within_limit};
ghost use Rattle.lockpage.specs.Update as U;

use crate::{Entry, State, Update};

pub const LATEST_TIME: u32 = 2147483647;

pub const LONGEST_LOCK: u64 = 2147483647;

const LATEST_EXPIRY: u64 = 4294967295;

// Whether the update may be made in the state.
#[tactic(auto, unfolding(crate::specs::Update::allowed))]
pub fn allowed(u: Update, s: State) -> bool
    ensures { result ≡ U.allowed u s }
{
    match u {
        Update::Write(_) => s == State::Free,
        Update::Unfreeze => s == State::Frozen,
        Update::Increment(_) => s != State::Free,
    }
}

// The expiry of a lock that starts to count at a time: a lock of 1 or more is held for its full seconds after the one in which it starts.
// It may be too large for a word.
fn expiry_at(time: u32, lock: u32) -> u64
    ensures { result ≡ expiry_at time lock }
{
    if lock == 0 {
        return time as u64;
    }
    time as u64 + lock as u64 + 1
}

// The word that the update stores, which may be too large too.
#[tactic(auto, unfolding(crate::specs::Update::updated))]
fn new_word(u: Update, time: u32, e: Entry) -> u64
    ensures { result ≡ (U.updated u time e).word }
{
    match u {
        Update::Write(lock) => lock as u64,
        Update::Unfreeze => expiry_at(time, e.word),
        Update::Increment(value) => e.word as u64 + value as u64,
    }
}

// The stamp that the update stores.
#[tactic(auto, unfolding(crate::specs::Update::updated))]
fn new_stamp(u: Update, time: u32, e: Entry) -> u32
    requires { time ≤ latest_time }
    ensures { result ≡ (U.updated u time e).stamp }
{
    match u {
        Update::Write(_) => 2 * time,
        Update::Unfreeze => e.stamp / 2 * 2 + 1,
        Update::Increment(_) => e.stamp,
    }
}

// Whether the word that the update stores is within its limit.
pub fn within_limit(u: Update, time: u32, e: Entry) -> bool
    requires { time ≤ latest_time }
    ensures { result ≡ within_limit (U.updated u time e) }
{
    let word = new_word(u, time, e);
    let stamp = new_stamp(u, time, e);
    if crate::states::is_frozen(stamp) {
        return word <= LONGEST_LOCK;
    }
    word <= LATEST_EXPIRY
}

// The entry that the update stores.
pub fn updated(u: Update, time: u32, e: Entry) -> Entry
    requires { (time ≤ latest_time) × (within_limit (U.updated u time e) ≡ true) }
    ensures { result ≡ U.updated u time e }
{
    let word = new_word(u, time, e);
    let stamp = new_stamp(u, time, e);
    Entry {
        word: word as u32,
        stamp,
    }
}
