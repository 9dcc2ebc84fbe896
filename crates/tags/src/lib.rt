// The tag of a page: made, compared with the one that is brought, and put behind the page in an answer. The contracts
// cite the definitions of machine.
#![tactic(auto)]

ghost use Rattle.std.specs.Prelude.{◌≡◌, length};
ghost use Rattle.octets.specs.Part.{part, equal};
ghost use Rattle.lockpage.specs.Geometry.{present};
ghost use Rattle.lockpage.specs.Size.{page_size};
ghost use Rattle.memory.specs.Ready.{HasCount, HasPage};
ghost use Rattle.machine.specs.Command.{tag_size, proof_size, answer_size, brought_page, brought_tag};
ghost use Rattle.machine.specs.Tag.{message_size, tag_message, tagged};
ghost use Rattle.machine.specs.Tag as T;

use lockpage::PAGE_SIZE;
use memory::layout::{COUNT_SIZE, SALT_SIZE};

const TAG_SIZE: usize = blake3::DIGEST_SIZE;

// A page and its tag, as they are brought.
pub const PROOF_SIZE: usize = PAGE_SIZE + TAG_SIZE;

// An answer: a page and its tag too.
pub const ANSWER_SIZE: usize = PAGE_SIZE + TAG_SIZE;

const GROUP_NUMBER_SIZE: usize = 8;

const MESSAGE_SIZE: usize = SALT_SIZE + GROUP_NUMBER_SIZE + COUNT_SIZE + PAGE_SIZE;

// Stores the message of a tag: the salt, the group, its count, the page.
fn store_message(out: &mut [u8], memory: &[u8], group: u32, page: &[u8])
    requires { HasPage present memory.now group page.now × (length out.old ≡ message_size present) }
    ensures { out.new ≡ tag_message present memory.now group page.now }
{
    memory::copy_salt(memory, &mut out[0..SALT_SIZE]);
    octets::store_u64(out, SALT_SIZE, group as u64);
    let count = memory::count(memory, group);
    octets::store_u32(out, SALT_SIZE + GROUP_NUMBER_SIZE, count);
    octets::store_bytes(out, SALT_SIZE + GROUP_NUMBER_SIZE + COUNT_SIZE, page);
}

// Fills out with the tag of a group's page.
fn tag(memory: &[u8], group: u32, page: &[u8], out: &mut [u8])
    requires { HasPage present memory.now group page.now × (length out.old ≡ tag_size) }
    ensures { out.new ≡ T.tag present memory.now group page.now }
{
    let mut message = [0u8; MESSAGE_SIZE];
    store_message(&mut message, memory, group, page);
    blake3::digest(&message, out);
}

// Whether the tag brought is that of the page brought.
pub fn matches(memory: &[u8], group: u32, proof: &[u8]) -> bool
    requires { HasCount present memory.now group × (length proof.now ≡ proof_size present) }
    ensures { result ≡ equal (brought_tag present proof.now)
        (T.tag present memory.now group (brought_page present proof.now)) }
{
    let mut own = [0u8; TAG_SIZE];
    tag(memory, group, &proof[0..PAGE_SIZE], &mut own);
    octets::equal(&proof[PAGE_SIZE..PROOF_SIZE], &own)
}

// Stores the tag of the page that stands at the front of the answer behind it.
pub fn store_tag(memory: &[u8], group: u32, answer: &mut [u8])
    requires { HasCount present memory.now group × (length answer.old ≡ answer_size present) }
    ensures { answer.new ≡ tagged present memory.now group (part answer.old 0 (page_size present)) }
{
    let mut own = [0u8; TAG_SIZE];
    tag(memory, group, &answer[0..PAGE_SIZE], &mut own);
    octets::store_bytes(answer, PAGE_SIZE, &own);
}
