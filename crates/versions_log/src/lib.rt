// A log block, filled from the version store's state. The contracts cite specs/, and the definitions of versions_machine and
// versions_state.
#![tactic(auto)]

ghost use Rattle.std.specs.Prelude.{◌≡◌};
ghost use Rattle.lockpage.specs.Geometry.{present};
ghost use Rattle.versions_machine.specs.Versions.{entered};
ghost use Rattle.versions_machine.specs.Log.{log_block};
ghost use Rattle.versions_state.specs.State.{versions_in};
ghost use Rattle.versions_log.specs.Ready.{FillReady, FullReady};

use versions_state::layout;

// Fills out with the log block of the records and a pointer.
pub fn fill_log(state: &[u8], pointer: u32, out: &mut [u8])
    requires { FillReady present state.now out.old }
    ensures { out.new ≡ log_block present (versions_in state.now).records pointer }
{
    let last = layout::RECORDS_SIZE;
    octets::store_bytes(out, 0, &state[layout::RECORDS_START..layout::STATE_SIZE]);
    octets::fill(out, last, layout::RECORD_SIZE, layout::UNUSED);
    octets::store_u64(out, layout::POINTER_START, pointer as u64);
}

// The same, where one record more fills it.
pub fn fill_full_log(state: &[u8], part: u32, block: u32, pointer: u32, out: &mut [u8])
    requires { FullReady present state.now out.old }
    ensures { out.new ≡ log_block present (entered (versions_in state.now) part block).records pointer }
{
    let last = layout::RECORDS_SIZE;
    octets::store_bytes(out, 0, &state[layout::RECORDS_START..layout::STATE_SIZE]);
    octets::store_u32(out, last, part);
    octets::store_u32(out, last + layout::RECORD_FIELD, block);
    octets::store_u64(out, layout::POINTER_START, pointer as u64);
}
