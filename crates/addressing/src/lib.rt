// The address map: where data blocks, lock pages and groups lie on the disk. Its constants are made here, from lockpage's. The
// contracts cite specs/.
#![tactic(auto)]

ghost use Rattle.std.specs.Prelude.{◌≡◌, ◌<◌};
ghost use Rattle.lockpage.specs.Geometry.{present};
ghost use Rattle.addressing.specs.Map.{group_blocks, disk_size, data_blocks, group_of, place_of, group_start, block_start};

pub const BLOCK_SIZE: usize = lockpage::PAGE_SIZE;

// The page's place: after the group's data blocks, each of which has an entry on it.
pub const PAGE_PLACE: usize = lockpage::ENTRIES_PER_PAGE;

// The low bits of a block's number are its place, the others its group.
const PLACE_BITS: u32 = lockpage::INDEX_BITS;

const PLACE_MASK: u32 = PAGE_PLACE as u32 - 1;

const GROUP_BLOCKS: usize = PAGE_PLACE + 1;

pub const GROUP_SIZE: usize = GROUP_BLOCKS * BLOCK_SIZE;

// The bytes of a disk.
pub fn disk_size(groups: u32) -> usize
    ensures { result ≡ disk_size present groups }
{
    groups as usize * GROUP_SIZE
}

// The number of data blocks.
pub fn data_blocks(groups: u32) -> usize
    ensures { result ≡ data_blocks present groups }
{
    PAGE_PLACE * groups as usize
}

// The group of a data block.
pub fn group_of(block: u32) -> u32
    ensures { result ≡ group_of present block }
{
    block >> PLACE_BITS
}

// Its place in the group.
pub fn place_of(block: u32) -> usize
    ensures { result ≡ place_of present block }
{
    (block & PLACE_MASK) as usize
}

// The first byte of a group's extent of the disk.
pub fn group_start(group: u32) -> usize
    ensures { result ≡ group_start present group }
{
    GROUP_SIZE * group as usize
}

// The first byte, within its group, of the block at a place.
pub fn block_start(place: usize) -> usize
    requires { place < group_blocks present }
    ensures { result ≡ block_start present place }
{
    BLOCK_SIZE * place
}
