// For each image of a stream on standard input, a line with code, place and run count. An image is a word n, then n words, each word four bytes, the most
// significant first. An image of over 131,072 words, and a stream that breaks off inside an image, end the answers with `unread`.
#![tactic(auto)]

ghost use Rattle.std.specs.Prelude.{◌≡◌, ◌≤◌, length};
ghost use Rattle.checklines.specs.Stream.{Fitting};

use std::io;

// The most words of an image.
const MOST_WORDS: usize = 131072;

// Why the images of a stream are not all answered.
enum Stop {
    // the stream breaks off, or an image is too long for this program
    Unread,
    // an answer cannot be written
    Unwritten(io::Error),
}

impl From<io::Error> for Stop {
    fn from(refusal: io::Error) -> Stop {
        Stop::Unwritten(refusal)
    }
}

// How many words the next image has; none where the stream ends.
fn next_count<R: io::Read>(from: &mut R) -> Result<Option<usize>, Stop>
    ensures { Fitting result }
{
    let mut head = [0u8; 4];
    let got = input::read_full(from, &mut head);
    if got == 0 {
        return Ok(None);
    }
    let count = ground::number(wordfile::word_at(&head, 0));
    if got < 4 || MOST_WORDS < count {
        return Err(Stop::Unread);
    }
    Ok(Some(count))
}

// Reads an image of so many words and answers it.
fn answer_image<R: io::Read>(
    rt: &impl Print,
    from: &mut R,
    count: usize,
    bytes: &mut [u8],
    words: &mut [u32],
) -> Result<(), Stop>
    requires { (count ≤ 131072) × (length bytes.old ≡ 524288) × (length words.old ≡ 131072) }
{
    let size = 4 * count;
    if input::read_full(from, &mut bytes[..size]) < size {
        return Err(Stop::Unread);
    }
    wordfile::fill(&bytes[..size], words);
    let answer = refusals::check(&words[..count]);
    println!(rt; "{} {} {}", answer.code, answer.place, answer.runs)?;
    Ok(())
}

// Answers the images of the stream. A proved loop has to end, and nothing says that a stream does: the turns are counted up to a number that no stream reaches.
fn answer_all<R: io::Read>(
    rt: &impl Print,
    from: &mut R,
    bytes: &mut [u8],
    words: &mut [u32],
) -> Result<(), Stop>
    requires { (length bytes.old ≡ 524288) × (length words.old ≡ 131072) }
{
    for _ in 0..u64::MAX {
        let Some(count) = next_count(from)? else {
            break;
        };
        answer_image(rt, from, count, bytes, words)?;
    }
    Ok(())
}

// The buffers as slices. An array is handed on whole and becomes a slice here, where its length is known from its type: the prover would count a local array's elements.
fn lend_all<R: io::Read>(
    rt: &impl Print,
    from: &mut R,
    bytes: &mut [u8; 4 * MOST_WORDS],
    words: &mut [u32; MOST_WORDS],
) -> io::Result<()> {
    match answer_all(rt, from, bytes, words) {
        Ok(()) => Ok(()),
        Err(Stop::Unread) => println!(rt; "unread"),
        Err(Stop::Unwritten(refusal)) => Err(refusal),
    }
}

fn main(rt: HostRuntime) -> io::Result<()> {
    let mut bytes = [0u8; 4 * MOST_WORDS];
    let mut words = [0u32; MOST_WORDS];
    lend_all(&rt, &mut rt.stdin(), &mut bytes, &mut words)
}
