// Prints the digest of each length of BLAKE3's published test vectors that the digest takes, and of the longest input:
// a line is the length, a space and the digest. Byte i of the input is i mod 251, as in the published vectors. The file
// `stdout` beside src/ was written by b3sum: the script `expected` beside it writes it again.
#![tactic(auto)]

use sockjade::sockjade_digest;
use std::io::Result;

const LENGTHS: [usize; 35] = [
    0, 1, 2, 3, 4, 5, 6, 7, 8, 63, 64, 65, 127, 128, 129, 1023, 1024, 1025, 2048, 2049, 3072, 3073,
    4096, 4097, 5120, 5121, 6144, 6145, 7168, 7169, 8192, 8193, 16384, 31744, 65536,
];

fn fill(input: &mut [u8]) {
    for (i, byte) in input.iter_mut().enumerate() {
        *byte = (i % 251) as u8;
    }
}

fn print_bytes(rt: &impl Print, bytes: &[u8]) -> Result<()> {
    for byte in bytes {
        print!(rt; "{byte:02x}")?;
    }
    Ok(())
}

// A length that the input does not have, or a refusal, prints another line than the digest's.
fn print_vector(rt: &impl Print, input: &[u8], n: usize) -> Result<()> {
    let Some(message) = input.get(..n) else {
        return println!(rt; "no such length");
    };
    let mut out = [0u8; 32];
    if sockjade_digest(message, &mut out) != 0 {
        return println!(rt; "refused");
    }
    print!(rt; "{n} ")?;
    print_bytes(rt, &out)?;
    println!(rt;)
}

fn main(rt: HostRuntime) -> Result<()> {
    let mut input = io::large_buffer();
    fill(&mut input);
    for n in LENGTHS {
        print_vector(&rt, &input, n)?;
    }
    Ok(())
}
