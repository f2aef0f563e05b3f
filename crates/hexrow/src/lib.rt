// Words as text: "each cell eight upper-case hex digits, single-spaced"; and bytes, two digits each.
#![tactic(auto)]

ghost use Rattle.std.specs.Prelude.{◌≡◌, ◌∷◌, ◌++◌, ◌+◌, ◌*◌, ◌≤◌, ◌<◌, length, take, drop};
ghost use Rattle.hexrow.specs.Hex.{digit, hex_digits, spelled, words_with_room, byte_digits, spelled_bytes, bytes_with_room};

// How many bytes a word takes: eight digits, and what stands after them.
pub const WORD_BYTES: usize = 9;

// A digit, by its number below 16: `0` is 48 and `A` is 65.
fn digit(n: u32) -> u8
    requires { n < 16 }
    ensures { result ≡ digit n }
{
    if n < 10 { 48 + n as u8 } else { 55 + n as u8 }
}

// The digits of a word from a place of the text on, and a space.
fn spell_word(word: u32, text: &mut [u8], at: usize)
    requires { at + 9 ≤ length text.old }
    ensures { text.new ≡ take at text.old ++ (hex_digits word ++ (32 ∷ drop (at + 9) text.old)) }
{
    text[at] = digit(word / 0x1000_0000);
    text[at + 1] = digit(word / 0x100_0000 % 16);
    text[at + 2] = digit(word / 0x10_0000 % 16);
    text[at + 3] = digit(word / 0x1_0000 % 16);
    text[at + 4] = digit(word / 0x1000 % 16);
    text[at + 5] = digit(word / 0x100 % 16);
    text[at + 6] = digit(word / 0x10 % 16);
    text[at + 7] = digit(word % 16);
    text[at + 8] = b' ';
}

// As many words as have room, each with a space after it; answers how many bytes they take.
pub fn spell(words: &[u32], text: &mut [u8]) -> usize
    ensures value { result ≡ 9 * words_with_room words.now text.old }
    ensures text_after { text.new ≡ spelled (take (words_with_room words.now text.old) words.now) ++ drop (9 * words_with_room words.now text.old) text.old }
{
    let count = ground::min(words.len(), text.len() / WORD_BYTES);
    for k in 0..count {
        spell_word(words[k], text, WORD_BYTES * k);
    }
    WORD_BYTES * count
}

// How many bytes of text a byte takes: two digits, and what stands after them.
pub const BYTE_BYTES: usize = 3;

// A byte as the number that digits are made of.
fn number(b: u8) -> u32
    ensures { (result ≡ b) × (result < 256) }
{
    b as u32
}

// The digits of a byte from a place of the text on, and a space.
fn spell_byte(byte: u8, text: &mut [u8], at: usize)
    requires { at + 3 ≤ length text.old }
    ensures { text.new ≡ take at text.old ++ (byte_digits byte ++ (32 ∷ drop (at + 3) text.old)) }
{
    let n = number(byte);
    text[at] = digit(n / 16);
    text[at + 1] = digit(n % 16);
    text[at + 2] = b' ';
}

// As many bytes as have room, each with a space after it; answers how many bytes of text they take.
pub fn spell_bytes(bytes: &[u8], text: &mut [u8]) -> usize
    ensures value { result ≡ 3 * bytes_with_room bytes.now text.old }
    ensures text_after { text.new ≡ spelled_bytes (take (bytes_with_room bytes.now text.old) bytes.now) ++ drop (3 * bytes_with_room bytes.now text.old) text.old }
{
    let count = ground::min(bytes.len(), text.len() / BYTE_BYTES);
    for k in 0..count {
        spell_byte(bytes[k], text, BYTE_BYTES * k);
    }
    BYTE_BYTES * count
}
