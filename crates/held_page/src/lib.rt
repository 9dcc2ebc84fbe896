// The held page in the controller memory. The contracts cite the definitions of memory.
#![tactic(auto)]

ghost use Rattle.std.specs.Prelude.{◌≡◌, ◌≤◌, ◌<◌, length};
ghost use Rattle.octets.specs.Part.{repeated, equal};
ghost use Rattle.lockpage.specs.Geometry.{present};
ghost use Rattle.lockpage.specs.Size.{page_size};
ghost use Rattle.lockpage.specs.Page.{entry_at};
ghost use Rattle.memory.specs.Layout.{memory_size};
ghost use Rattle.memory.specs.Memory.{most_updates, held_page, holding, holding_none};
ghost use Rattle.memory.specs.Ready.{HasPage};

use lockpage::Entry;
use memory::layout;

// The held page, to be read where it lies.
#[tactic(auto, unfolding(memory::specs::Memory::held_page, octets::specs::Part::part))]
fn lend_page(memory: &[u8]) -> &[u8]
    requires { length memory.now ≡ memory_size present }
    ensures { (result.now ≡ held_page present memory.now) × (length result.now ≡ page_size present) }
{
    let end = layout::PAGE_START + lockpage::PAGE_SIZE;
    &memory[layout::PAGE_START..end]
}

// Copies the held page into out.
pub fn copy_page(memory: &[u8], out: &mut [u8])
    requires { (length memory.now ≡ memory_size present) × (length out.old ≡ page_size present) }
    ensures { out.new ≡ held_page present memory.now }
{
    out.copy_from_slice(lend_page(memory));
}

// Entry i of the held page.
pub fn load_entry(memory: &[u8], i: usize) -> Entry
    requires { (length memory.now ≡ memory_size present) × (i < present.entries) }
    ensures { result ≡ entry_at (held_page present memory.now) i }
{
    lockpage::entries::load_entry(lend_page(memory), i)
}

// Whether the held page is 512 zero bytes.
#[tactic(auto, unfolding(memory::specs::Memory::held_page))]
pub fn is_zero(memory: &[u8]) -> bool
    requires { length memory.now ≡ memory_size present }
    ensures { result ≡ equal (held_page present memory.now) (repeated (page_size present) 0) }
{
    octets::filled(memory, layout::PAGE_START, lockpage::PAGE_SIZE, 0)
}

// Holds a group's page, which has had that many updates.
pub fn hold(memory: &mut [u8], group: u32, updates: u32, page: &[u8])
    requires { HasPage present memory.old group page.now × (updates ≤ most_updates) }
    ensures { memory.new ≡ holding present memory.old group updates page.now }
{
    octets::store_u8(memory, layout::HELD_START, group as u8);
    octets::store_u8(memory, layout::UPDATE_COUNT_START, updates as u8);
    octets::store_bytes(memory, layout::PAGE_START, page);
}

// Holds no page.
pub fn hold_none(memory: &mut [u8])
    requires { length memory.old ≡ memory_size present }
    ensures { memory.new ≡ holding_none present memory.old }
{
    octets::store_u8(memory, layout::HELD_START, layout::NONE);
    octets::store_u8(memory, layout::UPDATE_COUNT_START, 0);
    octets::store_bytes(memory, layout::PAGE_START, &[0u8; lockpage::PAGE_SIZE]);
}
