// BLAKE3, the plain hash of 32 bytes. The contracts cite specs/Blake3.antt.
#![tactic(auto)]

mod chunk;
mod tree;

ghost use Rattle.std.specs.Prelude.{◌≡◌, ◌^◌, ◌<◌, length};
ghost use Rattle.blake3.specs.Blake3 as B;

pub const DIGEST_SIZE: usize = 32;

const ROOT: u32 = 8;

// Fills out with the digest of the input.
pub fn digest(input: &[u8], out: &mut [u8])
    requires { (length input.now < 2 ^ 32) × (length out.old ≡ B.digest_size) }
    ensures { out.new ≡ B.digest input.now }
{
    let h = tree::node(input, 0, ROOT);
    tree::store_words(out, 0, h);
}
