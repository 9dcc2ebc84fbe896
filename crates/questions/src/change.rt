// Questions 7 to 10, which are put to kinds 4, 5 and 6.
ghost use Rattle.std.specs.Prelude.{◌≡◌, ltb};
ghost use Rattle.lockpage.specs.Geometry.{present};
ghost use Rattle.memory.specs.Memory.{count};
ghost use Rattle.memory.specs.Ready.{HasCount};
ghost use Rattle.validity.specs.Valid.{count_limit};
ghost use Rattle.machine.specs.Refusal.{number_of};
ghost use Rattle.machine.specs.Question.{first_no};
ghost use Rattle.questions.specs.ChangeQuestions.{change_questions};
ghost use Rattle.questions.specs.Ready.{UpdateReady};

use lockpage::{Update, states, updates};
use machine::Refusal;

// Question 8.
fn is_unexhausted(memory: &[u8], group: u32) -> bool
    requires { HasCount present memory.now group }
    ensures { result ≡ ltb (count memory.now group) count_limit }
{
    memory::count(memory, group) < validity::COUNT_LIMIT
}

// The first of questions 7 to 10 that says no refuses. All are answered first: question 7 makes one tag, and the others cost
// a few comparisons.
#[tactic(auto, unfolding(machine::specs::Question::first_no))]
pub fn check(memory: &[u8], u: Update, block: u32, time: u32, proof: &[u8]) -> Result<(), Refusal>
    requires { UpdateReady present memory.now block time proof.now }
    ensures { number_of result ≡ first_no (change_questions present u memory.now block time proof.now) }
{
    let group = addressing::group_of(block);
    let e = arguments::brought_entry(proof, block);
    let matches = tags::matches(memory, group, proof);
    let unexhausted = is_unexhausted(memory, group);
    let allowed = updates::allowed(u, states::state(e, time));
    let within = updates::within_limit(u, time, e);
    if !matches {
        return Err(Refusal::TagWrong);
    }
    if !unexhausted {
        return Err(Refusal::CountExhausted);
    }
    if !allowed {
        return Err(Refusal::StateWrong);
    }
    if !within {
        return Err(Refusal::LimitExceeded);
    }
    Ok(())
}
