// Kinds 1, 2, 3 and 10, which show something and change the last time alone.
ghost use Rattle.std.specs.Prelude.{◌≡◌, length};
ghost use Rattle.lockpage.specs.Geometry.{present};
ghost use Rattle.memory.specs.Layout.{memory_size};
ghost use Rattle.machine.specs.Command.{answer_size};
ghost use Rattle.machine.specs.Effect.{entry_answer, show_entry, show_page};
ghost use Rattle.machine.specs.Effect as E;
ghost use Rattle.machine.specs.Step.{padded, accepted};
ghost use Rattle.machine.specs.Call.{box_at, outcome_at};
ghost use Rattle.answers.specs.Ready.{BlockReady, GroupReady, OnEveryDisk};

use crate::tail;
use lockpage::{Entry, PAGE_SIZE, states};

// The bytes of each number that an identify answers.
const IDENTIFY_SIZE: usize = 4;

// Kind 1: a block.
pub fn read(memory: &mut [u8], disk: &[u8], block: u32, time: u32, answer: &mut [u8])
    requires { BlockReady present (box_at memory.old disk.now) block answer.old }
    ensures { outcome_at 0 memory.new disk.now answer.new
        ≡ accepted present (λ s. E.read present s block) (box_at memory.old disk.now) time }
{
    memory::set_last_time(memory, time);
    disk::whole::read_block(disk, block, &mut answer[0..addressing::BLOCK_SIZE]);
    tail::zero_tail(answer, addressing::BLOCK_SIZE);
}

// Answers an entry, the time left and the state. The zeros come first: all of the answer is quicker to fill than a part that
// starts at an odd place.
fn answer_entry(answer: &mut [u8], e: Entry, time: u32)
    requires { length answer.old ≡ answer_size present }
    ensures { answer.new ≡ padded present (entry_answer time e) }
{
    tail::zero_tail(answer, 0);
    lockpage::entries::store_entry(answer, 0, e);
    states::store_time_left(answer, lockpage::ENTRY_SIZE, e, time);
    let at = lockpage::ENTRY_SIZE + states::TIME_LEFT_SIZE;
    octets::store_u8(answer, at, u8::from(states::state(e, time)));
}

// Kind 2: a block's entry.
pub fn show_entry(memory: &mut [u8], disk: &[u8], block: u32, time: u32, answer: &mut [u8])
    requires { BlockReady present (box_at memory.old disk.now) block answer.old }
    ensures { outcome_at 0 memory.new disk.now answer.new
        ≡ accepted present (λ s. show_entry present s block time) (box_at memory.old disk.now) time }
{
    memory::set_last_time(memory, time);
    let e = current_page::entry(memory, disk, block);
    answer_entry(answer, e, time);
}

// Kind 3: the current page of a group and its tag.
pub fn show_page(memory: &mut [u8], disk: &[u8], group: u32, time: u32, answer: &mut [u8])
    requires { GroupReady present (box_at memory.old disk.now) group answer.old }
    ensures { outcome_at 0 memory.new disk.now answer.new
        ≡ accepted present (λ s. show_page present s group) (box_at memory.old disk.now) time }
{
    memory::set_last_time(memory, time);
    current_page::fetch(memory, disk, group, &mut answer[0..PAGE_SIZE]);
    tags::store_tag(memory, group, answer);
}

// Kind 10: the numbers of groups and of data blocks, whatever the disk.
pub fn identify(memory: &mut [u8], time: u32, answer: &mut [u8])
    requires { (length memory.old ≡ memory_size present) × (length answer.old ≡ answer_size present) }
    ensures { OnEveryDisk present (E.identify present) memory.old time memory.new answer.new }
{
    memory::set_last_time(memory, time);
    let groups = memory::groups(memory);
    octets::store_u32(answer, 0, groups);
    octets::store_u32(
        answer,
        IDENTIFY_SIZE,
        addressing::data_blocks(groups) as u32,
    );
    tail::zero_tail(answer, 2 * IDENTIFY_SIZE);
}
