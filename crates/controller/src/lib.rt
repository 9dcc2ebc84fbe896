// The controller: the questions that a command is asked, then its kind carried out. `command` has no precondition, and its contract
// fixes the number answered and every byte of memory, disk and answer by the definitions of machine. The functions below it get the
// kind in the place of a number and a value; their contracts cite specs/.
#![tactic(auto)]

ghost use Rattle.std.specs.Prelude.{◌≡◌};
ghost use Rattle.lockpage.specs.Geometry.{present};
ghost use Rattle.machine.specs.Question.{first_no};
ghost use Rattle.machine.specs.Refusal.{number_of};
ghost use Rattle.machine.specs.Step.{step};
ghost use Rattle.machine.specs.Call.{box_at, command_at, outcome_at};
ghost use Rattle.questions.specs.FirstQuestions.{first_questions};
ghost use Rattle.controller.specs.ByKind.{ComesTo};

use answers::shows;
use effects::{changes, upkeep};
use lockpage::Update;
use machine::{Kind, Refusal};

// One update, to which questions 1 to 6 say yes: 7 to 10, then the change. Where it is refused, no byte is changed.
#[tactic(auto, using(lockpage::proofs::GeometryLaw::present_proper, crate::proofs::CommandLaw::update_steps))]
pub fn update(
    memory: &mut [u8],
    disk: &mut [u8],
    u: Update,
    block: u32,
    time: u32,
    content: &[u8],
    proof: &[u8],
    answer: &mut [u8],
) -> Result<(), Refusal>
    requires { first_no (first_questions present (Kind.Change u) (box_at memory.old disk.old)
        (command_at 0 block time 0 content.now proof.now answer.old)) ≡ 0 }
    ensures { ComesTo present (Kind.Change u) (box_at memory.old disk.old)
        (command_at 0 block time 0 content.now proof.now answer.old) (outcome_at (number_of result) memory.new disk.new answer.new) }
{
    questions::change::check(memory, u, block, time, proof)?;
    changes::change(memory, disk, u, block, time, content, proof, answer);
    Ok(())
}

// A new salt, to which questions 1 to 6 say yes: 11, then the salt. Where it is refused, no byte is changed.
#[tactic(auto, using(lockpage::proofs::GeometryLaw::present_proper, crate::proofs::CommandLaw::salt_refused))]
fn new_salt(
    memory: &mut [u8],
    disk: &mut [u8],
    block: u32,
    time: u32,
    content: &[u8],
    proof: &[u8],
    answer: &mut [u8],
) -> Result<(), Refusal>
    requires { first_no (first_questions present Kind.NewSalt (box_at memory.old disk.old)
        (command_at 0 block time 0 content.now proof.now answer.old)) ≡ 0 }
    ensures { ComesTo present Kind.NewSalt (box_at memory.old disk.old)
        (command_at 0 block time 0 content.now proof.now answer.old) (outcome_at (number_of result) memory.new disk.new answer.new) }
{
    questions::check_salt(memory, content)?;
    upkeep::new_salt(memory, disk, time, content, answer);
    Ok(())
}

// A command of kind k, to which questions 1 to 6 say yes. Where it is refused, no byte is changed.
fn carry_out(
    memory: &mut [u8],
    disk: &mut [u8],
    k: Kind,
    block: u32,
    time: u32,
    content: &[u8],
    proof: &[u8],
    answer: &mut [u8],
) -> Result<(), Refusal>
    requires { first_no (first_questions present k (box_at memory.old disk.old)
        (command_at 0 block time 0 content.now proof.now answer.old)) ≡ 0 }
    ensures { ComesTo present k (box_at memory.old disk.old)
        (command_at 0 block time 0 content.now proof.now answer.old) (outcome_at (number_of result) memory.new disk.new answer.new) }
{
    match k {
        Kind::Read => shows::read(memory, disk, block, time, answer),
        Kind::Entry => shows::show_entry(memory, disk, block, time, answer),
        Kind::Page => shows::show_page(memory, disk, block, time, answer),
        Kind::Change(u) => update(memory, disk, u, block, time, content, proof, answer)?,
        Kind::Sync => upkeep::sync(memory, disk, time, answer),
        Kind::Restart => upkeep::restart(memory, time, answer),
        Kind::NewSalt => new_salt(memory, disk, block, time, content, proof, answer)?,
        Kind::Identify => shows::identify(memory, time, answer),
        Kind::Unknown => {}
    }
    Ok(())
}

// One command. Where it is refused, no byte is changed.
#[tactic(auto, using(lockpage::proofs::GeometryLaw::present_proper, crate::proofs::CommandLaw::comes_refused))]
pub fn command(
    memory: &mut [u8],
    disk: &mut [u8],
    kind: u32,
    block: u32,
    time: u32,
    value: u32,
    content: &[u8],
    proof: &[u8],
    answer: &mut [u8],
) -> Result<(), Refusal>
    ensures { outcome_at (number_of result) memory.new disk.new answer.new
        ≡ step present (box_at memory.old disk.old)
        (command_at kind block time value content.now proof.now answer.old) }
{
    questions::check(
        memory, disk, kind, value, block, time, content, proof, answer,
    )?;
    let k = arguments::kinds::kind_numbered(kind, value);
    carry_out(memory, disk, k, block, time, content, proof, answer)
}
