// An image on standard input: words of four bytes each, the most significant first.
#![tactic(auto)]

ghost use Rattle.std.specs.Prelude.{◌≡◌, ◌<◌, Ok, length};
ghost use Rattle.image_input.specs.Came.{Came};
ghost use Rattle.image_input.specs.declared.Unread.TheVariants.{Failed};

use std::{fmt, io};

// The words of nodes, edges, subgraphs and placed labels, each as many as there may be.
const THING_WORDS: usize = layout::MAX_THINGS as usize
    * (layout::NODE_SIZE + layout::EDGE_SIZE + layout::SUBGRAPH_SIZE + layout::LABEL_SIZE);

// The words of the header and of every table at its limit: 81,932.
pub const MOST_WORDS: usize = layout::HEADER_SIZE
    + THING_WORDS
    + layout::MAX_ELEMENTS as usize * layout::ELEMENT_SIZE
    + layout::MAX_POINTS as usize * layout::POINT_SIZE
    + layout::MAX_GLYPHS as usize * layout::GLYPH_SIZE
    + layout::MAX_RANGES as usize * layout::RANGE_SIZE;

// Why no image was read.
#[derive(Clone, Copy, Debug)]
pub enum Unread {
    // the system refused to read
    Failed,
    // there are more bytes than an image may have
    TooLong,
    // so many bytes came, and the last word is not whole
    Broken(usize),
}

impl From<io::Error> for Unread {
    ghost from_gives = { λ _ why. why ≡ Failed };

    fn from(_refusal: io::Error) -> Unread {
        Unread::Failed
    }
}

impl fmt::Display for Unread {
    fn fmt<W: fmt::Write>(&self, f: &mut fmt::Formatter<W>) -> fmt::Result {
        match *self {
            Unread::Failed => write!(
                f,
                "the input cannot be read; standard input may be closed, or a folder"
            ),
            Unread::TooLong => write!(
                f,
                "the input has over {} bytes; an image has at most {MOST_WORDS} words, of four bytes each",
                4 * MOST_WORDS
            ),
            Unread::Broken(got) => {
                let s = if got == 1 { "" } else { "s" };
                write!(
                    f,
                    "the input has {got} byte{s}, no whole number of words; a word has four bytes"
                )
            }
        }
    }
}

// The words of the first so many bytes, which are not all of them.
fn fill_words(bytes: &[u8], got: usize, words: &mut [u32]) -> usize
    requires { got < length bytes.now }
    ensures { Came (Ok result) bytes.now words.old words.new }
{
    wordfile::fill(&bytes[..got], words)
}

// Reads an image into the lent words. The lent bytes have room for one more than the largest image has: where they are filled the input is longer, and is never taken for a whole one.
pub fn read_image<R: io::Read>(
    from: &mut R,
    bytes: &mut [u8],
    words: &mut [u32],
) -> Result<usize, Unread>
    ensures { Came result bytes.new words.old words.new }
{
    let got = input::read_all(from, bytes)?;
    if bytes.len() <= got {
        return Err(Unread::TooLong);
    }
    if got % 4 != 0 {
        return Err(Unread::Broken(got));
    }
    Ok(fill_words(bytes, got, words))
}
