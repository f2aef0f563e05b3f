// The ECMA-48 sequence of a colour.
#![tactic(auto)]

ghost use Rattle.std.specs.Prelude.{◌≡◌, ◌+◌, ◌≤◌, ◌<◌, length};
ghost use Rattle.utf8.specs.Utf8.{written_at};
ghost use Rattle.sequence.specs.Sequence.{decimal, numeral, red_green_blue, sequence};

use utf8::put_bytes;

// The first colour that is one of a palette of 256: those below are ECMA-48's own.
const FIRST_INDEXED: u32 = 8;

// The first that is told by its red, green and blue.
const FIRST_DIRECT: u32 = 0x100;

// ESC `[0m`
const RESET: [u8; 4] = *b"\x1b[0m";

// ESC `[3`
const BASIC: [u8; 3] = *b"\x1b[3";

// ESC `[38;5;`
const INDEXED: [u8; 7] = *b"\x1b[38;5;";

// ESC `[38;2;`
const DIRECT: [u8; 7] = *b"\x1b[38;2;";

// A digit: `0` is 48.
fn digit(n: u32) -> u8
    requires { n < 10 }
    ensures { result ≡ 48 + n }
{
    48 + n as u8
}

// The digits of a number.
fn put_decimal(n: u32, out: &mut [u8], at: usize) -> usize
    requires { (n < 256) × (at + length (decimal n) ≤ length out.old) }
    ensures value { result ≡ at + length (decimal n) }
    ensures out_after { out.new ≡ written_at at (decimal n) out.old }
{
    if n < 10 {
        return put_bytes(&[digit(n)], out, at);
    }
    if n < 100 {
        return put_bytes(&[digit(n / 10), digit(n % 10)], out, at);
    }
    put_bytes(
        &[digit(n / 100), digit(n / 10 % 10), digit(n % 10)],
        out,
        at,
    )
}

// Digits and a byte after them.
fn put_numeral(n: u32, byte: u8, out: &mut [u8], at: usize) -> usize
    requires { (n < 256) × (at + length (numeral n byte) ≤ length out.old) }
    ensures value { result ≡ at + length (numeral n byte) }
    ensures out_after { out.new ≡ written_at at (numeral n byte) out.old }
{
    let end = put_decimal(n, out, at);
    put_bytes(&[byte], out, end)
}

fn put_red_green_blue(colour: u32, out: &mut [u8], at: usize) -> usize
    requires { at + length (red_green_blue colour) ≤ length out.old }
    ensures value { result ≡ at + length (red_green_blue colour) }
    ensures out_after { out.new ≡ written_at at (red_green_blue colour) out.old }
{
    let red = put_numeral(colour / 0x10000 % 0x100, b';', out, at);
    let green = put_numeral(colour / 0x100 % 0x100, b';', out, red);
    put_numeral(colour % 0x100, b'm', out, green)
}

// The sequence of a colour from a place on; answers the place after it.
pub fn put_sequence(colour: u32, out: &mut [u8], at: usize) -> usize
    requires { at + length (sequence colour) ≤ length out.old }
    ensures value { result ≡ at + length (sequence colour) }
    ensures out_after { out.new ≡ written_at at (sequence colour) out.old }
{
    if colour == 0 {
        return put_bytes(&RESET, out, at);
    }
    if colour < FIRST_INDEXED {
        let number = put_bytes(&BASIC, out, at);
        return put_numeral(colour, b'm', out, number);
    }
    if colour < FIRST_DIRECT {
        let number = put_bytes(&INDEXED, out, at);
        return put_numeral(colour, b'm', out, number);
    }
    let number = put_bytes(&DIRECT, out, at);
    put_red_green_blue(colour, out, number)
}
