// A list of block numbers as a query brings it, 4 bytes each, and the questions that the query is asked. The contracts cite the
// definitions of machine.
#![tactic(auto)]

ghost use Rattle.std.specs.Prelude.{◌≡◌, ◌+◌, ◌*◌, ◌≤◌, ltb, length};
ghost use mathlib.Core.List.{all};
ghost use Rattle.lockpage.specs.Geometry.{present};
ghost use Rattle.machine.specs.Question.{passes};
ghost use Rattle.machine.specs.Refusal.{number_of};
ghost use Rattle.machine.specs.Query.{number_size, number_count, block_number, numbers, question12, query_refusal};
ghost use Rattle.machine.specs.Call.{box_at, query_at};

use lockpage::states;
use machine::Refusal;

const NUMBER_SIZE: usize = 4;

pub const MOST_NUMBERS: usize = 64;

pub const STATE_SIZE: usize = 1;

// The bytes answered for each number: the state, then the time left.
pub const SHOWN_SIZE: usize = STATE_SIZE + states::TIME_LEFT_SIZE;

// How many numbers there are.
#[tactic(auto, unfolding(machine::specs::Query::number_count))]
pub fn count(blocks: &[u8]) -> usize
    ensures { result ≡ number_count blocks.now }
{
    blocks.len() / NUMBER_SIZE
}

// Number i.
#[tactic(auto, unfolding(machine::specs::Query::block_number))]
pub fn number(blocks: &[u8], i: usize) -> u32
    requires { number_size * i + number_size ≤ length blocks.now }
    ensures { result ≡ block_number blocks.now i }
{
    octets::load_u32(blocks, NUMBER_SIZE * i)
}

// Question 12: whether they are 1 to 64, and no byte is left over.
#[tactic(auto, unfolding(machine::specs::Query::number_count))]
fn is_list(blocks: &[u8]) -> bool
    ensures { result ≡ passes (question12 blocks.now) }
{
    let n = count(blocks);
    if blocks.len() != NUMBER_SIZE * n {
        return false;
    }
    if n < 1 {
        return false;
    }
    n <= MOST_NUMBERS
}

// Whether each is below a limit. All are looked at, so that the loop has one way out, which makes a list of 64 some 2 % faster.
fn all_below(blocks: &[u8], limit: u32) -> bool
    ensures { result ≡ all (numbers blocks.now) (λ a. ltb a limit) }
{
    let mut below = true;
    for i in 0..count(blocks) {
        below &= number(blocks, i) < limit;
    }
    below
}

// The first question that says no to a query refuses it. They are, in order, 1, 2, 4, 12, 5 and 6.
#[tactic(auto, using(crate::proofs::RefusalLaw::asked), unfolding(machine::specs::Question::first_no, machine::specs::Query::query_refusal))]
pub fn check(
    memory: &[u8],
    disk: &[u8],
    blocks: &[u8],
    time: u32,
    answer: &[u8],
) -> Result<(), Refusal>
    ensures { number_of result ≡ query_refusal present (box_at memory.now disk.now) (query_at blocks.now time answer.now) }
{
    arguments::box_questions::check(memory, disk, time)?;
    if !is_list(blocks) {
        return Err(Refusal::ListSizeWrong);
    }
    let limit = addressing::data_blocks(memory::groups(memory)) as u32;
    if !all_below(blocks, limit) {
        return Err(Refusal::AddressOutOfRange);
    }
    if answer.len() != SHOWN_SIZE * count(blocks) {
        return Err(Refusal::LengthWrong);
    }
    Ok(())
}
