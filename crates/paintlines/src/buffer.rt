// What a lent buffer holds before each request, and the checksum that stands for it in the short form.
ghost use Rattle.std.specs.Prelude.{ℕ, ◌≡◌, ◌≤◌, ◌<◌, length, map};
ghost use Rattle.paintlines.specs.Lent.{pattern, output_pattern, checksum};
ghost use Rattle.paintlines.specs.Request.{most_lent, most_output};

// The buffers by their places in refusal 12.

pub const CELLS: usize = 1;

pub const COLOURS: usize = 2;

pub const STAMPS: usize = 3;

pub const SCRATCH: usize = 4;

// Every word of a buffer as it stands before a request: no two words of the buffers are alike.
pub fn fill_pattern(buffer: usize, lent: &mut [u32])
    requires { (buffer ≤ 4) × (length lent.old ≤ most_lent) }
    ensures { lent.new ≡ pattern buffer (length lent.old) }
{
    let start = 0x5000_0000 + 0x100_0000 * buffer;
    for (k, word) in lent.iter_mut().enumerate() {
        *word = (start + k) as u32;
    }
}

// Every byte of the output as it stands before a request.
pub fn fill_output(out: &mut [u8])
    requires { length out.old ≤ most_output }
    ensures { out.new ≡ output_pattern (length out.old) }
{
    for (k, byte) in out.iter_mut().enumerate() {
        *byte = ((0x50 + k) % 256) as u8;
    }
}

// Sums are made below this prime.
const PRIME: usize = 4294967291;

// A word or a byte of a buffer.
pub trait Item: Copy {
    ghost value: { Self → ℕ };

    // It as a number, of so few digits that no sum wraps.
    fn number(self) -> usize
        ensures { (result ≡ value self) × (result < 4294967296) };

    // Such items as text, as many as have room; answers how many bytes they take.
    fn spell(items: &[Self], text: &mut [u8]) -> usize
        ensures { result ≤ length text.new };
}

impl Item for u32 {
    ghost value = { λ word. word };

    fn number(self) -> usize {
        ground::number(self)
    }

    fn spell(items: &[u32], text: &mut [u8]) -> usize {
        hexrow::spell(items, text)
    }
}

impl Item for u8 {
    ghost value = { λ byte. byte };

    fn number(self) -> usize {
        self as usize
    }

    fn spell(items: &[u8], text: &mut [u8]) -> usize {
        hexrow::spell_bytes(items, text)
    }
}

// The checksum of words, or of bytes.
pub fn checksum<T: Item>(items: &[T]) -> u32
    ensures { result ≡ checksum (map T.value items.now) }
{
    let mut sum: usize = 0;
    for item in items {
        sum = (31 * sum + item.number() + 1) % PRIME;
    }
    sum as u32
}
