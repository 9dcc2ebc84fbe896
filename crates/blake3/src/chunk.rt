// A chunk: its blocks compressed one after the other.
ghost use Rattle.std.specs.Prelude.{◌≡◌, ◌+◌, ◌-◌, ◌≤◌, ◌<◌, min, length, drop};
ghost use Rattle.octets.specs.Part.{part};
ghost use Rattle.blake3.specs.Blake3 as B;
ghost use Rattle.blake3.specs.Ready.{ChunkReady, FlagsReady};

use blake3_compress::{IV, compress};
use octets::load_u32;

pub(crate) const BLOCK: usize = 64;

// The message words of the whole block from at on.
#[tactic(auto, using(crate::proofs::MessageLaw::words_of))]
fn words(s: &[u8], at: usize) -> [u32; 16]
    requires { at + B.block_size ≤ length s.now }
    ensures { result ≡ B.words 16 (drop at s.now) }
{
    let mut words = [0u32; 16];
    for (i, word) in words.iter_mut().enumerate() {
        *word = load_u32(s, at + 4 * i);
    }
    words
}

// The message words of a short block, which starts at at.
fn tail(s: &[u8], at: usize) -> [u32; 16]
    requires { (at ≤ length s.now) × (length s.now ≤ at + B.block_size) }
    ensures { result ≡ B.message (part s.now at B.block_size) }
{
    let mut b = [0u8; BLOCK];
    // (not by `copy_from_slice`: with it the compression takes 4 % more instructions)
    for (i, byte) in s[at..].iter().enumerate() {
        b[i] = *byte;
    }
    words(&b, 0)
}

// The message words of the block that starts at at.
fn message(s: &[u8], at: usize) -> [u32; 16]
    requires { at ≤ length s.now }
    ensures { result ≡ B.message (part s.now at B.block_size) }
{
    if s.len() - at < BLOCK {
        tail(s, at)
    } else {
        words(s, at)
    }
}

// How many blocks n bytes have.
fn blocks(n: usize) -> usize
    ensures { result ≡ B.blocks n }
{
    if n == 0 { 1 } else { (n - 1) / BLOCK + 1 }
}

// The length of a block from which n bytes are left.
fn block_len(n: usize) -> u32
    ensures { result ≡ min B.block_size n }
{
    if n < BLOCK { n as u32 } else { BLOCK as u32 }
}

// The flags of block k of n.
fn flags(first: u32, last: u32, n: usize, k: usize) -> u32
    requires { FlagsReady first last n k }
    ensures { result ≡ B.flags first last n k }
{
    if k == 0 {
        if n == 1 { first + last } else { first }
    } else if k + 1 == n {
        last
    } else {
        0
    }
}

// The chaining value after all blocks of s, whose counter is t. It is the one place that compresses, a chunk's blocks
// and a parent's: so the compression is compiled in place, and the chaining value stays in registers.
pub(crate) fn chain(s: &[u8], t: u32, first: u32, last: u32) -> [u32; 8]
    requires { ChunkReady s.now first last }
    ensures { result ≡ B.chain s.now t first last (B.blocks (length s.now)) }
{
    let mut h = IV;
    let n = blocks(s.len());
    for k in 0..n {
        let at = BLOCK * k;
        let next = compress(
            h,
            message(s, at),
            t,
            block_len(s.len() - at),
            flags(first, last, n, k),
        );
        h = next;
    }
    h
}
