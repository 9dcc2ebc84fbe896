// Kinds 7, 8 and 9: the held page leaves, and the answer is zeros.
ghost use Rattle.std.specs.Prelude.{◌≡◌, length};
ghost use Rattle.lockpage.specs.Geometry.{present};
ghost use Rattle.memory.specs.Layout.{salt_size};
ghost use Rattle.machine.specs.Effect.{new_salt};
ghost use Rattle.machine.specs.Effect as E;
ghost use Rattle.machine.specs.Step.{accepted};
ghost use Rattle.machine.specs.Call.{box_at, outcome_at};
ghost use Rattle.answers.specs.Ready.{OnEveryDisk};
ghost use Rattle.effects.specs.Ready.{UpkeepReady, RestartReady};

use answers::tail;

// Kind 7.
pub fn sync(memory: &mut [u8], disk: &mut [u8], time: u32, answer: &mut [u8])
    requires { UpkeepReady present (box_at memory.old disk.old) time answer.old }
    ensures { outcome_at 0 memory.new disk.new answer.new
        ≡ accepted present (E.sync present) (box_at memory.old disk.old) time }
{
    memory::set_last_time(memory, time);
    write_back::put_held(memory, disk);
    held_page::hold_none(memory);
    tail::zero_tail(answer, 0);
}

// Kind 8, whatever the disk.
pub fn restart(memory: &mut [u8], time: u32, answer: &mut [u8])
    requires { RestartReady present memory.old time answer.old }
    ensures { OnEveryDisk present (E.restart present) memory.old time memory.new answer.new }
{
    memory::set_last_time(memory, time);
    write_back::lose_held(memory);
    tail::zero_tail(answer, 0);
}

// Kind 9: a sync first.
pub fn new_salt(memory: &mut [u8], disk: &mut [u8], time: u32, content: &[u8], answer: &mut [u8])
    requires { UpkeepReady present (box_at memory.old disk.old) time answer.old × (length content.now ≡ salt_size) }
    ensures { outcome_at 0 memory.new disk.new answer.new
        ≡ accepted present (λ s. new_salt present s content.now) (box_at memory.old disk.old) time }
{
    sync(memory, disk, time, answer);
    memory::clear_counts(memory);
    memory::set_salt(memory, content);
}
