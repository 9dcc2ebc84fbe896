// Data blocks and pages on the whole disk: a group's extent is cut out and handed to the group's functions.
ghost use Rattle.std.specs.Prelude.{◌≡◌, ◌<◌, ◌+◌, ◌*◌, length};
ghost use Rattle.lockpage.specs.Geometry.{present};
ghost use Rattle.lockpage.specs.Size.{block_size};
ghost use Rattle.lockpage.specs.Page.{entry_at};
ghost use Rattle.addressing.specs.Map.{group_blocks, group_of, physical, page_block};
ghost use Rattle.disk.specs.Disk.{block as block_at, with_block, extent as extentOf, HasGroup};
ghost use Rattle.disk.specs.Ready.{StoreReady};

use lockpage::Entry;

// A group's extent of the disk, to be read.
pub fn extent(disk: &[u8], group: u32) -> &[u8]
    requires { HasGroup present disk.now group }
    ensures { result.now ≡ extentOf present disk.now group }
{
    let from = addressing::group_start(group);
    let to = from + addressing::GROUP_SIZE;
    &disk[from..to]
}

// A data block, to be read where it lies.
pub fn lend_block(disk: &[u8], block: u32) -> &[u8]
    requires { HasGroup present disk.now (group_of present block) }
    ensures { result.now ≡ block_at present disk.now (physical present block) }
{
    let lent = extent(disk, addressing::group_of(block));
    crate::group::lend_block(lent, addressing::place_of(block))
}

// Copies a data block into out.
pub fn read_block(disk: &[u8], block: u32, out: &mut [u8])
    requires { HasGroup present disk.now (group_of present block) × (length out.old ≡ block_size present) }
    ensures { out.new ≡ block_at present disk.now (physical present block) }
{
    let group = extent(disk, addressing::group_of(block));
    crate::group::read_block(group, addressing::place_of(block), out);
}

// Stores the block at a place of a group: the group's extent is lent on to be written, here and nowhere else.
fn store_at(disk: &mut [u8], group: u32, place: usize, content: &[u8])
    requires { StoreReady present disk.old group place content.now }
    ensures { disk.new ≡ with_block present disk.old (group_blocks present * group + place) content.now }
{
    let from = addressing::group_start(group);
    let to = from + addressing::GROUP_SIZE;
    crate::group::store_block(&mut disk[from..to], place, content);
}

// Stores a data block.
pub fn store_block(disk: &mut [u8], block: u32, content: &[u8])
    requires { HasGroup present disk.old (group_of present block) × (length content.now ≡ block_size present) }
    ensures { disk.new ≡ with_block present disk.old (physical present block) content.now }
{
    let group = addressing::group_of(block);
    let place = addressing::place_of(block);
    store_at(disk, group, place, content);
}

// Copies a group's page into out.
pub fn read_page(disk: &[u8], group: u32, out: &mut [u8])
    requires { HasGroup present disk.now group × (length out.old ≡ block_size present) }
    ensures { out.new ≡ block_at present disk.now (page_block present group) }
{
    crate::group::read_block(extent(disk, group), addressing::PAGE_PLACE, out);
}

// Stores a group's page.
pub fn store_page(disk: &mut [u8], group: u32, page: &[u8])
    requires { HasGroup present disk.old group × (length page.now ≡ block_size present) }
    ensures { disk.new ≡ with_block present disk.old (page_block present group) page.now }
{
    store_at(disk, group, addressing::PAGE_PLACE, page);
}

// Entry i of a group's page.
pub fn load_entry(disk: &[u8], group: u32, i: usize) -> Entry
    requires { HasGroup present disk.now group × (i < present.entries) }
    ensures { result ≡ entry_at (block_at present disk.now (page_block present group)) i }
{
    crate::group::load_entry(extent(disk, group), i)
}
