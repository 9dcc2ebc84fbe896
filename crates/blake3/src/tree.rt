// The tree over the chunks.
ghost use Rattle.std.specs.Prelude.{◌≡◌, ◌+◌, ◌*◌, ◌^◌, ◌≤◌, ◌<◌, length};
ghost use Rattle.octets.specs.Part.{replaced};
ghost use Rattle.blake3.specs.Blake3 as B;

use crate::chunk::{BLOCK, chain};
use octets::store_u32;

const CHUNK: usize = 1024;

const CHUNK_START: u32 = 1;

const CHUNK_END: u32 = 2;

const PARENT: u32 = 4;

// Stores eight words in the 32 bytes from at on.
pub(crate) fn store_words(out: &mut [u8], at: usize, h: [u32; 8])
    requires { at + 32 ≤ length out.old }
    ensures { out.new ≡ replaced out.old at (B.bytes_of h) }
{
    for (i, word) in h.iter().enumerate() {
        store_u32(out, at + 4 * i, *word);
    }
}

// Of n bytes, how many go to the left.
#[tactic(auto, using(crate::proofs::LeftLaw::left_of))]
fn left_size(n: usize) -> usize
    requires { (B.chunk_size < n) × (n < 2 ^ 32) }
    ensures { (result ≡ B.left_size n) × (B.chunk_size ≤ result) × (result < n) }
{
    1 << (n - 1).ilog2()
}

// The parent of two chaining values: their 64 bytes are its one block, the first and the last.
fn parent(l: [u32; 8], r: [u32; 8], root: u32) -> [u32; 8]
    requires { root ≤ 8 }
    ensures { result ≡ B.parent l r root }
{
    let mut b = [0u8; BLOCK];
    store_words(&mut b, 0, l);
    store_words(&mut b, 32, r);
    chain(&b, 0, PARENT, root)
}

// The output of the subtree over s, whose first chunk is number t of the input.
pub(crate) fn node(s: &[u8], t: u32, root: u32) -> [u32; 8]
    requires { (t * B.chunk_size + length s.now < 2 ^ 32) × (root ≤ 8) }
    ensures { result ≡ B.subtree s.now t root }
{
    if s.len() <= CHUNK {
        chain(s, t, CHUNK_START, CHUNK_END + root)
    } else {
        let l = left_size(s.len());
        let a = node(&s[..l], t, 0);
        let b = node(&s[l..], t + (l / CHUNK) as u32, 0);
        parent(a, b, root)
    }
}
