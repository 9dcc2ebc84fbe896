// The blank pages that formatting stores.
ghost use Rattle.std.specs.Prelude.{◌≡◌, ◌≤◌, length};
ghost use Rattle.lockpage.specs.Geometry.{present};
ghost use Rattle.addressing.specs.Map.{disk_size};
ghost use Rattle.machine.specs.Effect.{stored};
ghost use Rattle.machine.specs.Format.{blank_pages};
ghost use Rattle.formatter.specs.Ready.{PagesReady};

use lockpage::PAGE_SIZE;

// Stores a page on the disk as that of each group.
fn store_pages(disk: &mut [u8], groups: u32, page: &[u8])
    requires { PagesReady present disk.old groups page.now }
    ensures { disk.new ≡ stored present disk.old (blank_pages present groups) }
{
    for g in 0..groups {
        disk::whole::store_page(disk, g, page);
    }
}

// Makes the page of each group the blank one.
pub(crate) fn store_blank_pages(disk: &mut [u8], groups: u32)
    requires { (length disk.old ≡ disk_size present groups) × (groups ≤ present.most_groups) }
    ensures { disk.new ≡ stored present disk.old (blank_pages present groups) }
{
    let mut page = [0u8; PAGE_SIZE];
    lockpage::entries::store_blank(&mut page);
    store_pages(disk, groups, &page);
}
