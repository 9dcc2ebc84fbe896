// What becomes of the held page: it is put on the disk, changed or lost. The contracts cite the definitions of machine.
#![tactic(auto)]

ghost use Rattle.std.specs.Prelude.{◌≡◌, true};
ghost use Rattle.lockpage.specs.Geometry.{present};
ghost use Rattle.validity.specs.Valid.{valid};
ghost use Rattle.machine.specs.Effect.{stored, put_held, next_update_count, put_leaving, changed_memory, restarted_memory};
ghost use Rattle.machine.specs.Effect as E;
ghost use Rattle.machine.specs.Call.{box_at};
ghost use Rattle.machine.specs.Claims.{ValidBox};
ghost use Rattle.write_back.specs.Ready.{HoldReady};

use lockpage::PAGE_SIZE;
use memory::layout::MOST_UPDATES;

// Puts the held page, if any, on the disk.
#[tactic(auto, using(crate::proofs::CodeLaw::put_steps), unfolding(machine::specs::Effect::put_held, machine::specs::Effect::stored))]
pub fn put_held(memory: &[u8], disk: &mut [u8])
    requires { ValidBox present (box_at memory.now disk.old) }
    ensures { disk.new ≡ stored present disk.old (put_held present memory.now) }
{
    let Some(held) = memory::held(memory) else {
        return;
    };
    let mut page = [0u8; PAGE_SIZE];
    held_page::copy_page(memory, &mut page);
    disk::whole::store_page(disk, held, &page);
}

// The same, if it is another group's.
#[tactic(auto, using(crate::proofs::CodeLaw::held_tests), unfolding(machine::specs::Effect::evict, machine::specs::Effect::stored))]
pub fn evict(memory: &[u8], disk: &mut [u8], group: u32)
    requires { ValidBox present (box_at memory.now disk.old) }
    ensures { disk.new ≡ stored present disk.old (E.evict present memory.now group) }
{
    if memory::is_held(memory, group) {
        return;
    }
    put_held(memory, disk);
}

// The number of the next update of a group's page, from 1 on where it is not held.
#[tactic(auto, using(crate::proofs::CodeLaw::update_steps), unfolding(machine::specs::Effect::next_update_count))]
fn next_update(memory: &[u8], group: u32) -> u32
    requires { valid present memory.now ≡ true }
    ensures { result ≡ next_update_count present memory.now group }
{
    if !memory::is_held(memory, group) {
        return 1;
    }
    memory::update_count(memory) + 1
}

// The count of a group rises, and its changed page is held or, after the last update that may be, put on the disk.
pub fn hold_or_put(memory: &mut [u8], disk: &mut [u8], group: u32, page: &[u8])
    requires { HoldReady present (box_at memory.old disk.old) group page.now }
    ensures { (memory.new ≡ changed_memory present memory.old group page.now)
        × (disk.new ≡ stored present disk.old (put_leaving present memory.old group page.now)) }
{
    let updates = next_update(memory, group);
    let count = memory::count(memory, group);
    memory::set_count(memory, group, count + 1);
    if updates <= MOST_UPDATES {
        held_page::hold(memory, group, updates, page);
        return;
    }
    disk::whole::store_page(disk, group, page);
    held_page::hold_none(memory);
}

// The held page, if any, is lost.
#[tactic(auto, using(crate::proofs::CodeLaw::loss_steps), unfolding(machine::specs::Effect::restarted_memory))]
pub fn lose_held(memory: &mut [u8])
    requires { valid present memory.old ≡ true }
    ensures { memory.new ≡ restarted_memory present memory.old }
{
    let Some(lost) = memory::held(memory) else {
        return;
    };
    let count = memory::count(memory, lost);
    held_page::hold_none(memory);
    memory::set_count(memory, lost, count + 1);
}
