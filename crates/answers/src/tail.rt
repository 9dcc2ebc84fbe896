// The answer's tail.
ghost use Rattle.std.specs.Prelude.{◌≡◌, ◌-◌, ◌≤◌, length};
ghost use Rattle.octets.specs.Part.{replaced, repeated};
ghost use Rattle.lockpage.specs.Geometry.{present};
ghost use Rattle.machine.specs.Command.{answer_size};

// Makes the answer zeros from a place on.
pub fn zero_tail(answer: &mut [u8], from: usize)
    requires { (length answer.old ≡ answer_size present) × (from ≤ answer_size present) }
    ensures { answer.new ≡ replaced answer.old from (repeated (answer_size present - from) 0) }
{
    let zeros = [0u8; tags::ANSWER_SIZE];
    octets::store_bytes(answer, from, &zeros[from..]);
}
