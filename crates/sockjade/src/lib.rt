// The functions that a C service calls, by the exports of sockjade_c. No call has a precondition, and each
// contract fixes the number answered and every byte of each buffer: the digest's by specs/, the version
// store's by the definitions of versions_bytes, recovery's by those of recovery_machine, the migration's by those of migration_machine, the
// others by those of machine.
#![tactic(auto)]

ghost use Rattle.std.specs.Prelude.{◌≡◌};
ghost use Rattle.lockpage.specs.Geometry.{base, present};
ghost use Rattle.machine.specs.Refusal.{number_of, answered_or_0};
ghost use Rattle.machine.specs.Step.{step};
ghost use Rattle.machine.specs.Format.{format};
ghost use Rattle.machine.specs.Query.{query_step};
ghost use Rattle.machine.specs.Call.{box_at, command_at, outcome_at, format_outcome_at, query_at, query_outcome_at, low_half, high_half};
ghost use Rattle.memory.specs.Memory.{groups};
ghost use Rattle.versions_machine.specs.Allocation.{first_block, whole_box};
ghost use Rattle.versions_bytes.specs.Call.{located_of, called_at, started_at, start_bytes, lookup, put_bytes, flush_bytes};
ghost use Rattle.recovery_machine.specs.Recover.{recover, recovery_at};
ghost use Rattle.migration_machine.specs.Migrate.{migrate, migration_at};
ghost use Rattle.sockjade.specs.Digest.{digest_outcome, digest_call};

use machine::Refusal;

const LONGEST_INPUT: usize = 65536;

// Question 6 of a digest, then the digest.
#[tactic(auto, using(crate::proofs::DigestLaw::digest_ends))]
fn digest(input: &[u8], out: &mut [u8]) -> Result<(), Refusal>
    ensures { digest_outcome (number_of result) out.new ≡ digest_call input.now out.old }
{
    if input.len() > LONGEST_INPUT {
        return Err(Refusal::LengthWrong);
    }
    if out.len() != blake3::DIGEST_SIZE {
        return Err(Refusal::LengthWrong);
    }
    blake3::digest(input, out);
    Ok(())
}

// The BLAKE3 digest of the input: 0 and the digest in out; 6 and no byte changed where the input is longer than 65,536
// bytes or out is not 32.
pub fn sockjade_digest(input: &[u8], out: &mut [u8]) -> u32
    ensures { digest_outcome result out.new ≡ digest_call input.now out.old }
{
    machine::number(digest(input, out))
}

// One command: its number, with memory, disk and answer as document 01 has it; where the number is not 0, no byte changed.
pub fn sockjade_command(
    memory: &mut [u8],
    disk: &mut [u8],
    kind: u32,
    block: u32,
    time: u32,
    value: u32,
    content: &[u8],
    proof: &[u8],
    answer: &mut [u8],
) -> u32
    ensures { outcome_at result memory.new disk.new answer.new
        ≡ step present (box_at memory.old disk.old)
        (command_at kind block time value content.now proof.now answer.old) }
{
    machine::number(controller::command(
        memory, disk, kind, block, time, value, content, proof, answer,
    ))
}

// An answer in one number: its own number in the low half, what is answered beside it in the high half.
fn packed(answer: Result<u32, Refusal>) -> u64
    ensures { (low_half result ≡ number_of answer) × (high_half result ≡ answered_or_0 answer) }
{
    match answer {
        Ok(value) => value as u64 * 4294967296,
        Err(refusal) => u32::from(refusal) as u64,
    }
}

// The states of a list of blocks: its number, with memory and answer as document 02 has it, and in the high half the pages read; where
// the number is not 0, no byte changed, and 0 pages.
pub fn sockjade_states(
    memory: &mut [u8],
    disk: &[u8],
    blocks: &[u8],
    time: u32,
    answer: &mut [u8],
) -> u64
    ensures { query_outcome_at (low_half result) (high_half result) memory.new disk.now answer.new
        ≡ query_step present (box_at memory.old disk.now) (query_at blocks.now time answer.old) }
{
    packed(block_states::states(memory, disk, blocks, time, answer))
}

// Starts a version store with a lock: its number, with the state as document 02 has it; where the number is not 0, no byte changed.
pub fn sockjade_versions_start(state: &mut [u8], lock: u32) -> u32
    ensures { started_at result state.new ≡ start_bytes present first_block state.old lock }
{
    machine::number(versions::start(state, lock))
}

// Stores a version of a part: its number, with state, memory and disk as document 02 has it, and in the high half the block; where the
// number is not 0, no byte changed, and block 0.
pub fn sockjade_versions_put(
    state: &mut [u8],
    memory: &mut [u8],
    disk: &mut [u8],
    part: u32,
    time: u32,
    content: &[u8],
) -> u64
    ensures { called_at (low_half result) (high_half result) state.new memory.new disk.new
        ≡ put_bytes present (whole_box present (groups present memory.old)) state.old (box_at memory.old disk.old)
        part time content.now }
{
    packed(versions::put(state, memory, disk, part, time, content))
}

// Stores the records of a version store: its number, with state, memory and disk as document 02 has it; where the number is not 0, no
// byte changed.
pub fn sockjade_versions_flush(
    state: &mut [u8],
    memory: &mut [u8],
    disk: &mut [u8],
    time: u32,
) -> u32
    ensures { called_at result 0 state.new memory.new disk.new
        ≡ flush_bytes present (whole_box present (groups present memory.old)) state.old (box_at memory.old disk.old) time }
{
    machine::number(versions::flush(state, memory, disk, time))
}

// The block of a part's newest version: its number, and in the high half the block, or FF FF FF FF for none.
pub fn sockjade_versions_block(state: &[u8], part: u32) -> u64
    ensures { located_of (low_half result) (high_half result) ≡ lookup present state.now part }
{
    let answered = versions::block(state, part);
    packed(answered.map(|block| block.unwrap_or(versions_machine::NO_BLOCK)))
}

// The parts that the log on the disk has by a point in time, as a box shows them at another: its number, with the result as document 02
// has it; where the number is not 0, no byte changed.
pub fn sockjade_recover(memory: &[u8], disk: &[u8], point: u32, time: u32, res: &mut [u8]) -> u32
    ensures { recovery_at result res.new
        ≡ recover present (whole_box present (groups present memory.now)) (box_at memory.now disk.now) point time
        res.old }
{
    machine::number(recovery::recover(memory, disk, point, time, res))
}

// Formats a box: 0, with memory and disk as document 01 has it; where the number is not 0, no byte changed.
pub fn sockjade_format(memory: &mut [u8], disk: &mut [u8], groups: u32, salt: &[u8]) -> u32
    ensures { format_outcome_at result memory.new disk.new
        ≡ format present (box_at memory.old disk.old) groups salt.now }
{
    machine::number(formatter::format(memory, disk, groups, salt))
}

// Turns the memory of an old box, of 16 groups at most, into that of a present one: 0, with the memory as document 02 has it; where the
// number is not 0, no byte changed.
pub fn sockjade_migrate(old: &[u8], memory: &mut [u8]) -> u32
    ensures { migration_at result memory.new ≡ migrate base present.most_groups old.now memory.old }
{
    machine::number(migration::migrate(old, memory))
}
