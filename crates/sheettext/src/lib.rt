// The leaves of a sheet's text: numbers, characters in UTF-8, and the escapes of a label. Every call takes any bytes: a byte past the end reads 255, which
// no text in UTF-8 has.
#![tactic(auto)]

ghost use Rattle.std.specs.Prelude.{◌≡◌, ◌+◌, ◌*◌, ◌≤◌, ◌<◌, min, length, get_or};
ghost use Rattle.sheettext.specs.Numbers.{digit_of, reading_of, read_digits, in_base, number_of};
ghost use Rattle.sheettext.specs.Parts.{part, until};
ghost use Rattle.sheettext.specs.Scalars.{is_scalar, tail_of, shortest, decoded, unescaped, by_number, label_glyph, scalar_read};

use layout::{FIRST_SURROGATE, LAST_SURROGATE, MAX_SCALAR};

// A byte of a text, and 255 past its end.
pub fn byte_at(text: &[u8], at: usize) -> u8
    ensures { result ≡ get_or text.now at 255 }
{
    text.get(at).copied().unwrap_or(255)
}

// The part of a text from one place to another, as much of it as there is.
pub fn part(text: &[u8], from: usize, to: usize) -> &[u8]
    ensures { result.now ≡ part text.now from to }
{
    let end = to.min(text.len());
    &text[from.min(end)..end]
}

// How many bytes stand before the first of this value; all of them where there is none.
pub fn until(byte: u8, text: &[u8]) -> usize
    ensures { (result ≡ until byte text.now) × (result ≤ length text.now) }
{
    for (k, found) in text.iter().enumerate() {
        if *found == byte {
            return k;
        }
    }
    text.len()
}

// Why a word is no number of 32 bits.
#[derive(Clone, Copy)]
pub enum NumberError {
    // a number over 4294967295
    TooLarge,
    // no digits, or a byte that is no digit
    NotANumber,
}

// What a byte counts as a digit: ten to fifteen are letters, small or large; 16 is no digit.
#[tactic(auto, unfolding(crate::specs::Numbers::digit_of))]
fn digit_of(byte: u8) -> usize
    ensures { (result ≡ digit_of byte) × (result ≤ 16) }
{
    match byte {
        b'0'..=b'9' => usize::from(byte) - 48,
        b'A'..=b'F' => usize::from(byte) - 55,
        b'a'..=b'f' => usize::from(byte) - 87,
        _ => 16,
    }
}

// The least number that has more than 32 bits. A value stays there once it has come so far.
const OVER: usize = 4294967296;

// A value with one digit more.
fn more(value: usize, base: usize, digit: usize) -> usize
    requires { (value ≤ 4294967296) × (base ≤ 16) × (digit ≤ 16) }
    ensures { (result ≡ min (value * base + digit) 4294967296) × (result ≤ 4294967296) }
{
    (value * base + digit).min(OVER)
}

#[tactic(auto, unfolding(crate::specs::Numbers::reading_of))]
fn reading_of(value: usize) -> Result<u32, NumberError>
    ensures { result ≡ reading_of value }
{
    u32::try_from(value).map_err(|_| NumberError::TooLarge)
}

// Digits, the most significant first, to the last of them.
fn read_digits(digits: &[u8], base: usize) -> Result<u32, NumberError>
    requires { (0 < base) × (base ≤ 16) }
    ensures { result ≡ read_digits base 0 digits.now }
{
    let mut value: usize = 0;
    for byte in digits {
        let digit = digit_of(*byte);
        if base <= digit {
            return Err(NumberError::NotANumber);
        }
        value = more(value, base, digit);
    }
    reading_of(value)
}

// Digits in a base, of which there is one at least.
fn in_base(digits: &[u8], base: usize) -> Result<u32, NumberError>
    requires { (0 < base) × (base ≤ 16) }
    ensures { result ≡ in_base base digits.now }
{
    if digits.is_empty() {
        return Err(NumberError::NotANumber);
    }
    read_digits(digits, base)
}

// A number: hexadecimal after `0x`, else decimal.
#[tactic(auto, unfolding(crate::specs::Numbers::number_of))]
pub fn number(word: &[u8]) -> Result<u32, NumberError>
    ensures { result ≡ number_of word.now }
{
    match word {
        [b'0', b'x', digits @ ..] => in_base(digits, 16),
        _ => in_base(word, 10),
    }
}

// One character of a text, and how many bytes it stands in.
#[derive(Clone, Copy)]
pub struct Glyph {
    // its Unicode scalar value
    pub value: u32,
    // its bytes, one at least
    pub size: usize,
}

// Why bytes begin with no character of a label.
#[derive(Clone, Copy)]
pub enum GlyphError {
    // the bytes are not UTF-8
    NotUtf8,
    // a backslash with something else after it than an escape has
    NotAnEscape,
}

// "a Unicode scalar value": to 10FFFF, and no surrogate.
#[tactic(auto, unfolding(crate::specs::Scalars::is_scalar))]
fn is_scalar(value: u32) -> bool
    ensures { result ≡ is_scalar value }
{
    value < FIRST_SURROGATE || LAST_SURROGATE < value && value <= MAX_SCALAR
}

// What a byte after the first adds; one that cannot stand there makes the sum no scalar value.
#[tactic(auto, unfolding(crate::specs::Scalars::tail_of))]
fn tail_of(byte: u8) -> usize
    ensures { (result ≡ tail_of byte) × (result ≤ 0x110000) }
{
    match byte {
        0x80..0xC0 => usize::from(byte) - 0x80,
        _ => 0x110000,
    }
}

// A scalar value that is written in no more bytes than it takes.
#[tactic(auto, unfolding(crate::specs::Scalars::shortest))]
fn shortest(from: usize, size: usize, value: usize) -> Result<Glyph, GlyphError>
    ensures { result ≡ shortest from size value }
{
    match u32::try_from(value) {
        Ok(scalar) if from <= value && is_scalar(scalar) => Ok(Glyph {
            value: scalar,
            size,
        }),
        _ => Err(GlyphError::NotUtf8),
    }
}

// The character that the bytes begin with.
#[tactic(auto, unfolding(crate::specs::Scalars::decoded))]
pub fn decode(bytes: &[u8]) -> Result<Glyph, GlyphError>
    ensures { result ≡ decoded bytes.now }
{
    let lead = usize::from(byte_at(bytes, 0));
    let one = tail_of(byte_at(bytes, 1));
    let two = tail_of(byte_at(bytes, 2));
    let three = tail_of(byte_at(bytes, 3));
    if lead < 0x80 {
        return shortest(0, 1, lead);
    }
    if lead < 0xE0 {
        return shortest(0x80, 2, lead.saturating_sub(0xC0) * 0x40 + one);
    }
    if lead < 0xF0 {
        return shortest(0x800, 3, (lead - 0xE0) * 0x1000 + one * 0x40 + two);
    }
    shortest(
        0x10000,
        4,
        (lead - 0xF0) * 0x40000 + one * 0x1000 + two * 0x40 + three,
    )
}

// The character of hexadecimal digits, so many bytes of them with what stands round them.
#[tactic(auto, unfolding(crate::specs::Scalars::scalar_read))]
fn scalar_read(reading: Result<u32, NumberError>, size: usize) -> Result<Glyph, GlyphError>
    ensures { result ≡ scalar_read reading size }
{
    match reading {
        Ok(value) if is_scalar(value) => Ok(Glyph { value, size }),
        _ => Err(GlyphError::NotAnEscape),
    }
}

// `\u{6F22}`, from the backslash on.
#[tactic(auto, unfolding(crate::specs::Scalars::by_number))]
fn by_number(bytes: &[u8]) -> Result<Glyph, GlyphError>
    ensures { result ≡ by_number bytes.now }
{
    let rest = part(bytes, 3, bytes.len());
    let digits = until(b'}', rest);
    if digits == rest.len() {
        return Err(GlyphError::NotAnEscape);
    }
    scalar_read(in_base(part(rest, 0, digits), 16), digits + 4)
}

// The escape that the bytes begin with, from the backslash on: `\"`, `\\` or `\u{6F22}`.
#[tactic(auto, unfolding(crate::specs::Scalars::unescaped))]
fn unescape(bytes: &[u8]) -> Result<Glyph, GlyphError>
    ensures { result ≡ unescaped bytes.now }
{
    match byte_at(bytes, 1) {
        b'"' => Ok(Glyph { value: 34, size: 2 }),
        b'\\' => Ok(Glyph { value: 92, size: 2 }),
        b'u' if byte_at(bytes, 2) == b'{' => by_number(bytes),
        _ => Err(GlyphError::NotAnEscape),
    }
}

// The character of a label that the bytes begin with.
#[tactic(auto, unfolding(crate::specs::Scalars::label_glyph))]
pub fn label_glyph(bytes: &[u8]) -> Result<Glyph, GlyphError>
    ensures { result ≡ label_glyph bytes.now }
{
    if byte_at(bytes, 0) == b'\\' {
        unescape(bytes)
    } else {
        decode(bytes)
    }
}
