// Questions 1, 2 and 4, which are put to every call on a box that is not one command.
ghost use Rattle.std.specs.Prelude.{◌≡◌, [], ◌∷◌};
ghost use Rattle.lockpage.specs.Geometry.{present};
ghost use Rattle.machine.specs.Refusal.{number_of};
ghost use Rattle.machine.specs.Question.{question1, question2, question4, first_no};

use machine::Refusal;

// The first that says no refuses. Compiled where it is called, which keeps a query of one block as fast.
#[inline(always)]
#[tactic(auto, using(crate::proofs::ArgumentLaw::memory_sized), unfolding(machine::specs::Question::first_no))]
pub fn check(memory: &[u8], disk: &[u8], time: u32) -> Result<(), Refusal>
    ensures { number_of result ≡ first_no (question1 present memory.now
        ∷ question2 present memory.now disk.now
        ∷ question4 present memory.now time
        ∷ []) }
{
    if !validity::valid(memory) {
        return Err(Refusal::MemoryInvalid);
    }
    if !crate::disk_fits(memory, disk) {
        return Err(Refusal::DiskSizeWrong);
    }
    if !crate::is_timely(memory, time) {
        return Err(Refusal::TimeOutOfRange);
    }
    Ok(())
}
