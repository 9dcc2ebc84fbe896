// The migration of an old box's memory to the present one. The contract of `migrate`, which has no precondition, fixes what is answered
// and every byte of the buffer by the definitions of migration_machine.
#![tactic(auto)]

ghost use Rattle.std.specs.Prelude.{◌≡◌};
ghost use Rattle.lockpage.specs.Geometry.{base, present};
ghost use Rattle.machine.specs.Refusal.{number_of};
ghost use Rattle.migration_machine.specs.Migrate.{migrated, migrate as migration, migration_at};
ghost use Rattle.migration.specs.Ready.{LayOutReady};

use machine::Refusal;
use memory::layout;

// The most groups of an old box.
const OLD_MOST_GROUPS: u32 = 16;

// Where the last time stands in an old memory, behind the counts. All behind it stands as in a present one.
const OLD_TIME_START: usize = layout::COUNTS_START + layout::COUNT_SIZE * OLD_MOST_GROUPS as usize;

const OLD_MEMORY_SIZE: usize = OLD_TIME_START + (layout::MEMORY_SIZE - layout::TIME_START);

// Lays an old memory out as a present one, in a buffer of zeros.
#[tactic(auto, using(octets::proofs::RepeatedLaw::repeated_length))]
fn lay_out(old: &[u8], new: &mut [u8])
    requires { LayOutReady old.now new.old }
    ensures { new.new ≡ migrated base present.most_groups old.now }
{
    octets::store_bytes(new, 0, &old[0..OLD_TIME_START]);
    octets::store_bytes(
        new,
        layout::TIME_START,
        &old[OLD_TIME_START..OLD_MEMORY_SIZE],
    );
}

// Migrates an old memory into the buffer; where it is refused, no byte is changed. The old memory is judged by the new one, which is
// valid if and only if the old one is, but for its groups.
#[tactic(auto, using(crate::proofs::AskedLaw::old_memory), unfolding(octets::specs::Part::repeated))]
pub fn migrate(old: &[u8], memory: &mut [u8]) -> Result<(), Refusal>
    ensures { migration_at (number_of result) memory.new ≡ migration base present.most_groups old.now memory.old }
{
    if old.len() != OLD_MEMORY_SIZE || memory.len() != layout::MEMORY_SIZE {
        return Err(Refusal::MemoryInvalid);
    }
    let mut new = [0u8; layout::MEMORY_SIZE];
    lay_out(old, &mut new);
    if OLD_MOST_GROUPS < memory::groups(&new) || !validity::valid(&new) {
        return Err(Refusal::MemoryInvalid);
    }
    memory.copy_from_slice(&new);
    Ok(())
}
