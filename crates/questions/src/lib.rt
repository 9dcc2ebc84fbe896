// The questions that a command is asked before it is carried out: 1 to 6, which every kind is asked, in order; 7 to 10 of an update, in
// change; and 11 of a new salt. The contracts cite the definitions of machine, and specs/ for those that are asked together.
#![tactic(auto)]

pub mod change;

ghost use Rattle.std.specs.Prelude.{◌≡◌, [], ◌∷◌, length};
ghost use Rattle.lockpage.specs.Geometry.{present};
ghost use Rattle.memory.specs.Layout.{memory_size};
ghost use Rattle.machine.specs.Command.{kind_numbered};
ghost use Rattle.machine.specs.Call.{box_at, command_at};
ghost use Rattle.machine.specs.Refusal.{number_of};
ghost use Rattle.machine.specs.Question.{question11, first_no};
ghost use Rattle.questions.specs.FirstQuestions.{first_questions};

use machine::{Kind, Refusal};

// Question 11, as it is put to a new salt.
#[tactic(auto, using(crate::proofs::RefusalLaw::equal_swapped), unfolding(machine::specs::Question::first_no))]
pub fn check_salt(memory: &[u8], content: &[u8]) -> Result<(), Refusal>
    requires { length memory.now ≡ memory_size present }
    ensures { number_of result ≡ first_no (question11 present Kind.NewSalt memory.now content.now ∷ []) }
{
    if memory::has_salt(memory, content) {
        return Err(Refusal::SaltUnchanged);
    }
    Ok(())
}

// Questions 1 to 6: the first that says no to a command refuses it.
#[tactic(auto, using(arguments::proofs::ArgumentLaw::memory_sized), unfolding(machine::specs::Question::first_no))]
pub fn check(
    memory: &[u8],
    disk: &[u8],
    kind: u32,
    value: u32,
    block: u32,
    time: u32,
    content: &[u8],
    proof: &[u8],
    answer: &[u8],
) -> Result<(), Refusal>
    ensures { number_of result ≡ first_no (first_questions present (kind_numbered kind value) (box_at memory.now disk.now)
        (command_at 0 block time 0 content.now proof.now answer.now)) }
{
    if !validity::valid(memory) {
        return Err(Refusal::MemoryInvalid);
    }
    arguments::check(
        memory, disk, kind, value, block, time, content, proof, answer,
    )
}
