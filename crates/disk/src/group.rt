// The blocks and the page of one group, by their places in its extent of the disk.
ghost use Rattle.std.specs.Prelude.{◌≡◌, ◌<◌, length};
ghost use Rattle.lockpage.specs.Geometry.{present};
ghost use Rattle.lockpage.specs.Page.{entry_at};
ghost use Rattle.addressing.specs.Map.{group_blocks, group_size, page_place};
ghost use Rattle.disk.specs.Disk.{block, with_block};
ghost use Rattle.disk.specs.Ready.{PlaceReady};

use lockpage::Entry;

// The block at a place, to be read where it lies.
pub fn lend_block(group: &[u8], place: usize) -> &[u8]
    requires { (length group.now ≡ group_size present) × (place < group_blocks present) }
    ensures { result.now ≡ block present group.now place }
{
    let from = addressing::block_start(place);
    let to = from + addressing::BLOCK_SIZE;
    &group[from..to]
}

// Copies the block at a place into out.
#[tactic(auto, using(lockpage::proofs::GeometryLaw::present_proper, crate::proofs::LentLaw::place_length))]
pub fn read_block(group: &[u8], place: usize, out: &mut [u8])
    requires { PlaceReady present group.now place out.old }
    ensures { out.new ≡ block present group.now place }
{
    out.copy_from_slice(lend_block(group, place));
}

// Stores the block at a place: its part of the extent is lent on to be written.
#[tactic(auto, using(lockpage::proofs::GeometryLaw::present_proper, addressing::proofs::MapLaw::block_start_place, octets::proofs::ReplacedLaw::replaced_lent), unfolding(crate::specs::Disk::with_block))]
pub fn store_block(group: &mut [u8], place: usize, content: &[u8])
    requires { PlaceReady present group.old place content.now }
    ensures { group.new ≡ with_block present group.old place content.now }
{
    let from = addressing::block_start(place);
    let to = from + addressing::BLOCK_SIZE;
    group[from..to].copy_from_slice(content);
}

// Entry i of the page.
pub fn load_entry(group: &[u8], i: usize) -> Entry
    requires { (length group.now ≡ group_size present) × (i < present.entries) }
    ensures { result ≡ entry_at (block present group.now (page_place present)) i }
{
    lockpage::entries::load_entry(lend_block(group, addressing::PAGE_PLACE), i)
}
