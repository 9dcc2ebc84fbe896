// The current page of a group, and a block's entry on it. The contracts cite the definitions of machine, and specs/ what is taken for
// granted.
#![tactic(auto)]

ghost use Rattle.std.specs.Prelude.{◌≡◌, length};
ghost use Rattle.lockpage.specs.Geometry.{present};
ghost use Rattle.addressing.specs.Map.{group_of};
ghost use Rattle.disk.specs.Disk.{HasGroup};
ghost use Rattle.memory.specs.Layout.{memory_size};
ghost use Rattle.machine.specs.Tag.{current_page, current_entry};
ghost use Rattle.machine.specs.Call.{box_at};
ghost use Rattle.current_page.specs.Ready.{CurrentReady};

use lockpage::Entry;

// Copies the current page of a group into out. It answers 1, the number of pages read.
#[tactic(auto, using(lockpage::proofs::GeometryLaw::present_proper, crate::proofs::CurrentLaw::page_held, crate::proofs::CurrentLaw::page_other))]
pub fn fetch(memory: &[u8], disk: &[u8], group: u32, out: &mut [u8]) -> u32
    requires { CurrentReady present (box_at memory.now disk.now) group out.old }
    ensures { (result ≡ 1) × (out.new ≡ current_page present (box_at memory.now disk.now) group) }
{
    if memory::is_held(memory, group) {
        held_page::copy_page(memory, out);
        return 1;
    }
    disk::whole::read_page(disk, group, out);
    1
}

// A block's entry on the current page of its group.
pub fn entry(memory: &[u8], disk: &[u8], block: u32) -> Entry
    requires { (length memory.now ≡ memory_size present) × HasGroup present disk.now (group_of present block) }
    ensures { result ≡ current_entry present (box_at memory.now disk.now) block }
{
    let group = addressing::group_of(block);
    let place = addressing::place_of(block);
    let held = memory::is_held(memory, group);
    if held {
        return held_page::load_entry(memory, place);
    }
    disk::whole::load_entry(disk, group, place)
}
