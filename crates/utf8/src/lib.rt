// A character in UTF-8.
#![tactic(auto)]

ghost use Rattle.std.specs.Prelude.{◌≡◌, ◌+◌, ◌%◌, ◌≤◌, ◌<◌, length};
ghost use Rattle.utf8.specs.Utf8.{utf8, written_at};

// The first character that takes two bytes.
const TWO_BYTES: u32 = 0x80;

// The first that takes three.
const THREE_BYTES: u32 = 0x800;

// The first that takes four.
const FOUR_BYTES: u32 = 0x10000;

// Bytes from a place on; answers the place after them.
pub fn put_bytes<const N: usize>(bytes: &[u8; N], out: &mut [u8], at: usize) -> usize
    requires { at + length bytes.now ≤ length out.old }
    ensures value { result ≡ at + length bytes.now }
    ensures out_after { out.new ≡ written_at at bytes.now out.old }
{
    for (k, byte) in bytes.iter().enumerate() {
        out[at + k] = *byte;
    }
    at + bytes.len()
}

fn byte(x: u32) -> u8
    requires { x < 256 }
    ensures { result ≡ x }
{
    x as u8
}

// A byte after the first: the six low bits.
fn tail(x: u32) -> u8
    ensures { result ≡ 0x80 + x % 0x40 }
{
    byte(0x80 + x % 0x40)
}

// The bytes of a character from a place on, and the place after them. The value has at most 21 bits.
pub fn put(ch: u32, out: &mut [u8], at: usize) -> usize
    requires { (ch < 0x200000) × (at + length (utf8 ch) ≤ length out.old) }
    ensures value { result ≡ at + length (utf8 ch) }
    ensures out_after { out.new ≡ written_at at (utf8 ch) out.old }
{
    if ch < TWO_BYTES {
        return put_bytes(&[byte(ch)], out, at);
    }
    if ch < THREE_BYTES {
        return put_bytes(&[byte(0xC0 + ch / 0x40), tail(ch)], out, at);
    }
    if ch < FOUR_BYTES {
        return put_bytes(
            &[byte(0xE0 + ch / 0x1000), tail(ch / 0x40), tail(ch)],
            out,
            at,
        );
    }
    put_bytes(
        &[
            byte(0xF0 + ch / 0x40000),
            tail(ch / 0x1000),
            tail(ch / 0x40),
            tail(ch),
        ],
        out,
        at,
    )
}
