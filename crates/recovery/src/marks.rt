// The blocks already walked, a bit for each. The contracts cite specs/Marks.antt.
ghost use Rattle.std.specs.Prelude.{◌≡◌, ◌*◌, ◌<◌, length};
ghost use Rattle.recovery.specs.Marks.{bits_per_byte, is_marked, marked};

const BITS_PER_BYTE: u32 = 8;

// The bytes of the marks of the largest box.
pub(crate) const MARKS_SIZE: usize = (versions_state::layout::MOST_BLOCKS / BITS_PER_BYTE) as usize;

// Whether a block is marked.
pub(crate) fn is_marked(marks: &[u8], block: u32) -> bool
    requires { block < bits_per_byte * length marks.now }
    ensures { result ≡ is_marked marks.now block }
{
    let byte = marks[(block / BITS_PER_BYTE) as usize];
    (byte >> (block % BITS_PER_BYTE)) % 2 == 1
}

// Marks a block.
pub(crate) fn mark(marks: &mut [u8], block: u32)
    requires { block < bits_per_byte * length marks.old }
    ensures { marks.new ≡ marked marks.old block }
{
    let at = (block / BITS_PER_BYTE) as usize;
    marks[at] = marks[at] | (1 << (block % BITS_PER_BYTE));
}
