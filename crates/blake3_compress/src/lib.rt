// BLAKE3's compression function: seven rounds, and the message words permuted between them. The contracts cite specs/Compress.antt.
#![tactic(auto)]

ghost use Rattle.std.specs.Prelude.{◌≡◌};
ghost use Rattle.blake3_compress.specs.Compress as C;

use blake3_round::{columns, diagonals};

// The chaining value that a chunk starts from.
pub const IV: [u32; 8] = [
    0x6A09E667, 0xBB67AE85, 0x3C6EF372, 0xA54FF53A, 0x510E527F, 0x9B05688C, 0x1F83D9AB, 0x5BE0CD19,
];

#[tactic(auto, unfolding(crate::specs::Compress::permuted))]
fn permute(m: [u32; 16]) -> [u32; 16]
    ensures { result ≡ C.permuted m }
{
    [
        m[2], m[6], m[3], m[10], m[7], m[0], m[4], m[13], m[1], m[11], m[12], m[5], m[9], m[14],
        m[15], m[8],
    ]
}

// Seven rounds, written out: the half-rounds are then compiled in place and no message word is moved.
fn rounds(s: [[u32; 4]; 4], m: [u32; 16]) -> [[u32; 4]; 4]
    ensures { result ≡ C.rounds 7 s m }
{
    let s1 = diagonals(columns(s, m), m);
    let m1 = permute(m);
    let s2 = diagonals(columns(s1, m1), m1);
    let m2 = permute(m1);
    let s3 = diagonals(columns(s2, m2), m2);
    let m3 = permute(m2);
    let s4 = diagonals(columns(s3, m3), m3);
    let m4 = permute(m3);
    let s5 = diagonals(columns(s4, m4), m4);
    let m5 = permute(m4);
    let s6 = diagonals(columns(s5, m5), m5);
    let m6 = permute(m5);
    diagonals(columns(s6, m6), m6)
}

// The chaining value after a block: h is the one before it, m its message words, t the counter, b its length, d its
// flags. The counter's upper word is 0: a u32 counts far more chunks than an input has.
#[tactic(auto, using(crate::proofs::CompressLaw::compress_of), unfolding(crate::specs::Compress::output))]
pub fn compress(h: [u32; 8], m: [u32; 16], t: u32, b: u32, d: u32) -> [u32; 8]
    ensures { result ≡ C.compress h m t b d }
{
    let s = rounds(
        [
            [h[0], h[1], h[2], h[3]],
            [h[4], h[5], h[6], h[7]],
            [IV[0], IV[1], IV[2], IV[3]],
            [t, 0, b, d],
        ],
        m,
    );
    [
        s[0][0] ^ s[2][0],
        s[0][1] ^ s[2][1],
        s[0][2] ^ s[2][2],
        s[0][3] ^ s[2][3],
        s[1][0] ^ s[3][0],
        s[1][1] ^ s[3][1],
        s[1][2] ^ s[3][2],
        s[1][3] ^ s[3][3],
    ]
}
