// A round of BLAKE3's compression, as two half-rounds. The state is four rows of four words, by value; the four columns of a
// half-round are mixed side by side, a row at a time. The contracts cite specs/Round.antt.
#![tactic(auto)]

ghost use Rattle.std.specs.Prelude.{◌≡◌, ◌<◌};
ghost use Rattle.blake3_round.specs.Round as R;

use std::array;

#[tactic(auto, unfolding(crate::specs::Round::sums))]
fn sum(x: [u32; 4], y: [u32; 4]) -> [u32; 4]
    ensures { result ≡ R.sums x y }
{
    array::from_fn(|i| x[i].wrapping_add(y[i]))
}

// A word rotated right: by a helper of the program's own, as the papers have it.
#[tactic(auto, using(crate::proofs::WordLaw::rotr_or))]
fn rotr(x: u32, n: u32) -> u32
    requires { (0 < n) × (n < 32) }
    ensures { result ≡ R.rotr x n }
{
    (x >> n) | (x << (32 - n))
}

#[tactic(auto, unfolding(crate::specs::Round::turned))]
fn turn(x: [u32; 4], y: [u32; 4], n: u32) -> [u32; 4]
    requires { (0 < n) × (n < 32) }
    ensures { result ≡ R.turned x y n }
{
    array::from_fn(|i| rotr(x[i] ^ y[i], n))
}

// The mixing function on the four columns at once.
fn mix(s: [[u32; 4]; 4], x: [u32; 4], y: [u32; 4]) -> [[u32; 4]; 4]
    ensures { result ≡ R.mixed s x y }
{
    let a = s[0];
    let b = s[1];
    let c = s[2];
    let d = s[3];
    let a1 = sum(sum(a, b), x);
    let d1 = turn(d, a1, 16);
    let c1 = sum(c, d1);
    let b1 = turn(b, c1, 12);
    let a2 = sum(sum(a1, b1), y);
    let d2 = turn(d1, a2, 8);
    let c2 = sum(c1, d2);
    let b2 = turn(b1, c2, 7);
    [a2, b2, c2, d2]
}

// The columns mixed, with the first eight message words.
#[tactic(auto, unfolding(crate::specs::Round::columns))]
pub fn columns(s: [[u32; 4]; 4], m: [u32; 16]) -> [[u32; 4]; 4]
    ensures { result ≡ R.columns s m }
{
    mix(s, [m[0], m[2], m[4], m[6]], [m[1], m[3], m[5], m[7]])
}

// The diagonals mixed, with the last eight: row i turned left by i places has them as its columns.
#[tactic(auto, using(crate::proofs::RoundLaw::diagonals_of))]
pub fn diagonals(s: [[u32; 4]; 4], m: [u32; 16]) -> [[u32; 4]; 4]
    ensures { result ≡ R.diagonals s m }
{
    let t = mix(
        [
            [s[0][0], s[0][1], s[0][2], s[0][3]],
            [s[1][1], s[1][2], s[1][3], s[1][0]],
            [s[2][2], s[2][3], s[2][0], s[2][1]],
            [s[3][3], s[3][0], s[3][1], s[3][2]],
        ],
        [m[8], m[10], m[12], m[14]],
        [m[9], m[11], m[13], m[15]],
    );
    [
        [t[0][0], t[0][1], t[0][2], t[0][3]],
        [t[1][3], t[1][0], t[1][1], t[1][2]],
        [t[2][2], t[2][3], t[2][0], t[2][1]],
        [t[3][1], t[3][2], t[3][3], t[3][0]],
    ]
}
