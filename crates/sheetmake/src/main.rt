// Writes a sheet image. A text with a record on each line is read from standard input, and the image's words are written to standard output, four bytes
// each, the most significant first. Where a line cannot be read nothing is written there: which line, what stands there and what was expected is said on
// standard error. The text's form is in docs/SHEETMAKE.md.
#![tactic(auto)]

use layout::word;
use sheetdraft::MOST_WORDS;
use sheettext::part;
use sheetvalues::fields::{DRAFT_WORDS, FILL_ELEMENTS, FILL_RUNS};
use std::io;

// A text of at most 1 MiB.
const MOST_BYTES: usize = 1048576;

// Lists the elements, if the sheet line asks for that.
fn fill_elements(image: &[u32], draft: &mut [u32]) {
    if word(draft, FILL_ELEMENTS) != 0 {
        sheetdraft::fill_elements(image, draft);
    }
}

// Sets the run capacity, if the sheet line asks for that.
fn fill_runs(image: &[u32], draft: &mut [u32]) {
    if word(draft, FILL_RUNS) != 0 {
        sheetdraft::fill_runs(image, draft);
    }
}

// Fills in what the sheet line asks for, and closes the draft up; answers how many words the image has.
fn finish(draft: &mut [u32], image: &mut [u32]) -> usize {
    sheetdraft::close_up(draft, image);
    fill_elements(image, draft);
    fill_runs(image, draft);
    sheetdraft::close_up(draft, image)
}

// Writes the words of an image.
fn write_words(
    out: &impl Print,
    err: &impl Print,
    words: &[u32],
    bytes: &mut [u8],
) -> io::Result<()> {
    let count = wordfile::store(words, bytes);
    out.write_all(part(bytes, 0, count)).or_else(|_| err.write_all(
        b"unwritten\nstandard output cannot be written\n",
    ))
}

// Makes the image of a text, or says why there is none.
fn make(out: &impl Print, err: &impl Print, text: &[u8], bytes: &mut [u8]) -> io::Result<()> {
    let mut draft = [0u32; DRAFT_WORDS];
    let mut image = [0u32; MOST_WORDS];
    match sheetlines::read_text(text, &mut draft) {
        Ok(()) => {
            let count = finish(&mut draft, &mut image);
            write_words(out, err, sheetdraft::first_words(&image, count), bytes)
        }
        Err(unread) => print!(err; "unread\n{unread}\n"),
    }
}

// The text goes on behind the most that is read.
fn say_too_long(err: &impl Print, text: &[u8]) -> io::Result<()> {
    let lines = text.iter().filter(|byte| **byte == b'\n').count();
    let line = lines.saturating_add(1);
    print!(err;
        "unread\nline {line}: expected the end of the text within {MOST_BYTES} bytes, found more\n"
    )
}

// The lent bytes have room for one more than the longest text has: where they are filled the input is longer, and is never taken for a whole one.
fn make_input<R: io::Read>(
    from: &mut R,
    out: &impl Print,
    err: &impl Print,
    text: &mut [u8],
    bytes: &mut [u8],
) -> io::Result<()> {
    match input::read_all(from, text) {
        Ok(got) if MOST_BYTES < got => say_too_long(err, text),
        Ok(got) => make(out, err, part(text, 0, got), bytes),
        Err(_) => err.write_all(b"unread\nstandard input cannot be read\n"),
    }
}

fn main(rt: HostRuntime) -> io::Result<()> {
    let mut text = [0u8; MOST_BYTES + 1];
    let mut bytes = [0u8; 4 * MOST_WORDS];
    make_input(
        &mut rt.stdin(),
        &rt.stdout(),
        &rt.stderr(),
        &mut text,
        &mut bytes,
    )
}
