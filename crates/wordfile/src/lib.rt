// An image as a file: words of four bytes, most significant byte first.
#![tactic(auto)]

ghost use Rattle.std.specs.Prelude.{◌≡◌, ◌+◌, ◌*◌, ◌/◌, ◌≤◌, ◌<◌, min, length, get_or};
ghost use Rattle.wordfile.specs.Words.{word_at, filled, byte_of, with_word, stored};

// A byte as a number: four of them, each at its own place, make a word that does not wrap.
fn number(b: u8) -> u32
    ensures { (result ≡ b) × (result < 256) }
{
    b as u32
}

// Word k of the bytes.
pub fn word_at(bytes: &[u8], k: usize) -> u32
    requires { 4 * k + 3 < length bytes.now }
    ensures { result ≡ word_at bytes.now k }
{
    let at = 4 * k;
    0x100_0000 * number(bytes[at])
        + 0x1_0000 * number(bytes[at + 1])
        + 0x100 * number(bytes[at + 2])
        + number(bytes[at + 3])
}

// Reads the bytes' words into the lent ones, as many as both have room for, and answers how many.
pub fn fill(bytes: &[u8], words: &mut [u32]) -> usize
    ensures value { result ≡ min (length bytes.now / 4) (length words.old) }
    ensures words_after { words.new ≡ filled bytes.now words.old 0 (min (length bytes.now / 4) (length words.old)) }
{
    let count = ground::min(bytes.len() / 4, words.len());
    for k in 0..count {
        words[k] = word_at(bytes, k);
    }
    count
}

// One byte of a word, by the value of its lowest bit.
fn byte_of(word: u32, step: u32) -> u8
    requires { 0 < step }
    ensures { result ≡ byte_of word step }
{
    (word / step % 256) as u8
}

// Stores word k.
fn put_word(bytes: &mut [u8], k: usize, word: u32)
    requires { 4 * k + 3 < length bytes.old }
    ensures { bytes.new ≡ with_word bytes.old k word }
{
    let at = 4 * k;
    bytes[at] = byte_of(word, 0x100_0000);
    bytes[at + 1] = byte_of(word, 0x1_0000);
    bytes[at + 2] = byte_of(word, 0x100);
    bytes[at + 3] = byte_of(word, 1);
}

// Stores the words as bytes, as many as there is room for, and answers how many bytes they take.
pub fn store(words: &[u32], bytes: &mut [u8]) -> usize
    ensures value { result ≡ 4 * min (length words.now) (length bytes.old / 4) }
    ensures bytes_after { bytes.new ≡ stored words.now (min (length words.now) (length bytes.old / 4)) bytes.old }
{
    let count = ground::min(words.len(), bytes.len() / 4);
    for k in 0..count {
        put_word(bytes, k, words[k]);
    }
    4 * count
}
