// What stands on a line: words, labels in quotes, and its end.
ghost use Rattle.std.specs.Prelude.{◌≤◌, length};

#[derive(Clone, Copy)]
pub enum Kind {
    // bytes with no space, quote or number sign among them
    Word,
    // a label between two quotes
    Quoted,
    // a quote that nothing closes
    Unclosed,
    // nothing but spaces, and a comment perhaps
    End,
}

// A thing on a line.
#[derive(Clone, Copy)]
pub struct Token<'a> {
    // what it is
    pub kind: Kind,
    // its bytes, with the quotes of a label; none at the end of the line
    pub bytes: &'a [u8],
    // what stands behind it
    pub rest: &'a [u8],
}

// Spaces, tabs, and what ends a line under Windows.
fn is_space(byte: u8) -> bool {
    matches!(byte, b' ' | b'\t' | b'\r')
}

// What cannot stand in a word.
fn ends_word(byte: u8) -> bool {
    matches!(byte, b'#' | b'"') || is_space(byte)
}

// The bytes before the first that is such, and those from it on.
fn cut_before<F: Fn(u8) -> bool>(bytes: &[u8], stops: F) -> (&[u8], &[u8])
    requires { F.IsAlwaysCallable stops }
{
    for (at, byte) in bytes.iter().enumerate() {
        if stops(*byte) {
            return bytes.split_at(at);
        }
    }
    bytes.split_at(bytes.len())
}

// The label that begins with the quote here. What follows a backslash closes nothing.
fn quoted(line: &[u8]) -> Token<'_> {
    let mut open = false;
    let mut escaped = false;
    for (at, byte) in line.iter().enumerate() {
        if escaped {
            escaped = false;
        } else if *byte == b'\\' {
            escaped = true;
        } else if *byte == b'"' {
            if open {
                return cut(Kind::Quoted, line, at + 1);
            }
            open = true;
        }
    }
    cut(Kind::Unclosed, line, line.len())
}

// The first bytes of a line, so many of them, as a thing of this kind.
fn cut(kind: Kind, line: &[u8], size: usize) -> Token<'_>
    requires { size ≤ length line.now }
{
    let (bytes, rest) = line.split_at(size);
    Token { kind, bytes, rest }
}

// The first thing on a line.
pub fn next(line: &[u8]) -> Token<'_> {
    let (_, line) = cut_before(line, |byte| !is_space(byte));
    match line.first() {
        None | Some(b'#') => Token {
            kind: Kind::End,
            bytes: &[],
            rest: &[],
        },
        Some(b'"') => quoted(line),
        Some(_) => {
            let (bytes, rest) = cut_before(line, ends_word);
            Token {
                kind: Kind::Word,
                bytes,
                rest,
            }
        }
    }
}
