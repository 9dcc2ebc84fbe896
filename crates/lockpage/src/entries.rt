// The entries of a page.
ghost use Rattle.std.specs.Prelude.{◌≡◌, ◌+◌, ◌*◌, ◌≤◌, length};
ghost use Rattle.lockpage.specs.Geometry.{present};
ghost use Rattle.lockpage.specs.Size.{entry_size, page_size};
ghost use Rattle.lockpage.specs.Page.{entry_at, with_entry, blank_page};

use crate::Entry;

// Entry i.
pub fn load_entry(page: &[u8], i: usize) -> Entry
    requires { entry_size * i + entry_size ≤ length page.now }
    ensures { result ≡ entry_at page.now i }
{
    let at = crate::ENTRY_SIZE * i;
    let word = octets::load_u32(page, at);
    let stamp = octets::load_u32(page, at + crate::WORD_SIZE);
    Entry { word, stamp }
}

// Stores entry i.
pub fn store_entry(page: &mut [u8], i: usize, e: Entry)
    requires { entry_size * i + entry_size ≤ length page.old }
    ensures { page.new ≡ with_entry page.old i e }
{
    let at = crate::ENTRY_SIZE * i;
    octets::store_u32(page, at, e.word);
    octets::store_u32(page, at + crate::WORD_SIZE, e.stamp);
}

// Makes the page the blank one of formatting.
pub fn store_blank(page: &mut [u8])
    requires { length page.old ≡ page_size present }
    ensures { page.new ≡ blank_page present }
{
    for i in 0..crate::ENTRIES_PER_PAGE {
        store_entry(page, i, Entry { word: 0, stamp: 1 });
    }
}
