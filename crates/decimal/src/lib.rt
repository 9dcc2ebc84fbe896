// Numbers as text, in decimal. The contracts cite specs/.
#![tactic(auto)]

ghost use Rattle.std.specs.Prelude.{◌≡◌, ◌+◌, ◌≤◌, length};
ghost use Rattle.octets.specs.Part.{replaced};
ghost use Rattle.decimal.specs.Decimal.{decimal, signed_decimal};

pub const ZERO_DIGIT: u8 = b'0';

const MINUS: u8 = b'-';

// Puts n's digits into out from place at on, and answers the place behind them. Digit by digit, and not by the kit's `itoa`: that
// proves too, but leaves no digit, magnitude or sign here for an edit of must-fail/ to get wrong.
#[tactic(auto, using(crate::proofs::PutLaw::put_steps))]
pub fn put(out: &mut [u8], at: usize, n: u64) -> usize
    requires { at + length (decimal n) ≤ length out.old }
    ensures { (out.new ≡ replaced out.old at (decimal n)) × (result ≡ at + length (decimal n)) }
{
    if n < 10 {
        out[at] = ZERO_DIGIT + n as u8;
        return at + 1;
    }
    let last = put(out, at, n / 10);
    out[last] = ZERO_DIGIT + (n % 10) as u8;
    last + 1
}

// The same of a signed number.
pub fn put_signed(out: &mut [u8], at: usize, z: i64) -> usize
    requires { at + length (signed_decimal z) ≤ length out.old }
    ensures { (out.new ≡ replaced out.old at (signed_decimal z)) × (result ≡ at + length (signed_decimal z)) }
{
    if z < 0 {
        out[at] = MINUS;
        return put(out, at + 1, !z as u64 + 1);
    }
    put(out, at, z as u64)
}
