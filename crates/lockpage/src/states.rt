// A block's state and the time left.
ghost use Rattle.std.specs.Prelude.{◌≡◌, ◌+◌, ◌≤◌, length};
ghost use Rattle.octets.specs.Part.{replaced};
ghost use Rattle.lockpage.specs.Entry.{is_frozen};
ghost use Rattle.lockpage.specs.State.{time_left_size, time_left, time_left_bytes, state_number};
ghost use Rattle.lockpage.specs.State as S;

use crate::{Entry, State};

pub const TIME_LEFT_SIZE: usize = 8;

// Whether the stamp says that the word is a lock.
pub fn is_frozen(stamp: u32) -> bool
    ensures { result ≡ is_frozen stamp }
{
    stamp % 2 == 0
}

// The state that an entry says at a time.
pub fn state(e: Entry, time: u32) -> State
    ensures { result ≡ S.state time e }
{
    if is_frozen(e.stamp) {
        return State::Frozen;
    }
    if time < e.word {
        return State::Counting;
    }
    State::Free
}

// The state's number in an answer.
impl From<State> for u8 {
    ghost from_gives = { λ s n. n ≡ state_number s };

    #[tactic(auto, unfolding(crate::specs::State::state_number))]
    fn from(s: State) -> u8 {
        match s {
            State::Free => 0,
            State::Frozen => 1,
            State::Counting => 2,
        }
    }
}

// The time left: the lock, or the expiry less the time, which may be negative.
pub fn time_left(e: Entry, time: u32) -> i64
    ensures { result ≡ time_left time e }
{
    if is_frozen(e.stamp) {
        return e.word as i64;
    }
    (e.word as i64) - (time as i64)
}

// Stores the time left in the eight bytes from at on.
pub fn store_time_left(out: &mut [u8], at: usize, e: Entry, time: u32)
    requires { at + time_left_size ≤ length out.old }
    ensures { out.new ≡ replaced out.old at (time_left_bytes time e) }
{
    octets::store_i64(out, at, time_left(e, time));
}
