// For each request of a stream on standard input, what painting answers and every lent word and byte afterwards. Words are of four bytes, the most significant first.
//
// A request is twelve words and the words of an image:
// 0: how many words the image has, at most 131,072
// 1: flags, bit 0 for coloured, bit 1 for the short form, bit 2 for text and bit 3 for the whole sheet in one call, which is no text
// 2 and 3: the first row, its high word and its low word; 0 for the whole sheet
// 4 and 5: how many rows, high word and low word; for the whole sheet the band height
// 6 to 9: how many words are lent of cells, colours, stamps and scratch, each at most 147,456
// 10: how many bytes are lent of the output, at most 1,048,576; 0 where no text is asked for
// 11: 0
// A plain request is lent cells and scratch alone, a request for text the output besides. So a whole sheet can be had that has at most 147,456 cells; a larger one is refused for want of room.
// Before each request word i of lent buffer b (1 cells, 2 colours, 3 stamps, 4 scratch) holds 0x50000000 + 0x1000000 b + i, and byte i of the output (0x50 + i) mod 256.
//
// The answer is a line with code and place, for text also the number of bytes written, and a line for each lent buffer: its name, and its words as eight upper-case hex digits each, single-spaced;
// or in the short form its name and one checksum, also as hex digits: h begins as 0 and becomes (31 h + w + 1) mod 4294967291 for each word w. The output is the last of them, named `out`: its
// bytes are two digits each, and its checksum goes over bytes.
// A request over a limit, or with another flag, or for the whole sheet as text or from another row than 0, or with a word 11 that is not 0, or with bytes of output where no text is asked for, and a
// stream that breaks off inside a request, end the answers with `unread`.
#![tactic(auto)]

ghost use Rattle.std.specs.Prelude.{◌*◌, ◌≤◌, length, IfOk};
ghost use Rattle.paintlines.specs.Request.{HasRoom, Fitting, Planes, Buffers};

use std::io;

mod answers;
mod buffer;
mod say;

// The most words of an image.
const MOST_WORDS: usize = 131072;

// The most words lent of a buffer.
const MOST_LENT: usize = 147456;

// The most bytes lent of the output.
const MOST_OUTPUT: usize = 1048576;

// Words of a request before the image.
const HEAD_WORDS: usize = 12;

// The greatest word of flags: the whole sheet, coloured and in the short form. Beyond it a sheet would be asked for as text, or another flag be set.
const MOST_FLAGS: u32 = 11;

// What is asked of painting.
#[derive(Clone, Copy)]
struct Request {
    // words of the image
    words: usize,
    // whether colours and stamps are lent too
    coloured: bool,
    // whether a checksum stands for each buffer
    short: bool,
    // whether the band is written as text too
    text: bool,
    // whether all rows are painted in one call
    sheet: bool,
    // first row of the band
    first: usize,
    // rows of the band, or the band height of the sheet
    rows: usize,
    // words lent of cells
    cells: usize,
    // words lent of colours
    colours: usize,
    // words lent of stamps
    stamps: usize,
    // words lent of scratch
    scratch: usize,
    // bytes lent of the output
    output: usize,
}

// Why the requests of a stream are not all answered.
enum Stop {
    // the stream breaks off, or what it asks is not to be answered
    Unread,
    // an answer cannot be written
    Unwritten(io::Error),
}

impl From<io::Error> for Stop {
    fn from(refusal: io::Error) -> Stop {
        Stop::Unwritten(refusal)
    }
}

// A number of two words, the high one first.
fn long(high: u32, low: u32) -> usize {
    0x1_0000_0000 * ground::number(high) + ground::number(low)
}

// The words of a request before its image, as they stand above.
fn request_of(head: &[u32; HEAD_WORDS]) -> Request {
    let flags = head[1];
    Request {
        words: ground::number(head[0]),
        coloured: flags % 2 == 1,
        short: flags / 2 % 2 == 1,
        text: flags / 4 % 2 == 1,
        sheet: flags / 8 % 2 == 1,
        first: long(head[2], head[3]),
        rows: long(head[4], head[5]),
        cells: ground::number(head[6]),
        colours: ground::number(head[7]),
        stamps: ground::number(head[8]),
        scratch: ground::number(head[9]),
        output: ground::number(head[10]),
    }
}

// The most words that are lent of one buffer.
fn most_lent(r: Request) -> usize
    ensures { (r.cells ≤ result) × (r.colours ≤ result) × (r.stamps ≤ result) × (r.scratch ≤ result) }
{
    ground::max(
        ground::max(r.cells, r.colours),
        ground::max(r.stamps, r.scratch),
    )
}

// A request over a limit is not to be answered.
fn within_limits(r: Request) -> Result<Request, Stop>
    ensures { IfOk result HasRoom }
{
    if MOST_WORDS < r.words || MOST_LENT < most_lent(r) || MOST_OUTPUT < r.output {
        return Err(Stop::Unread);
    }
    Ok(r)
}

// What the words before an image ask. Where flags are set that do not go together, or others, or the last word is not 0, it is not to be answered: only a request for text
// is lent an output, and a whole sheet begins at row 0.
fn asked(head: &[u32; HEAD_WORDS]) -> Result<Request, Stop>
    ensures { IfOk result HasRoom }
{
    if MOST_FLAGS < head[1] || head[11] != 0 {
        return Err(Stop::Unread);
    }
    let r = request_of(head);
    if (!r.text && r.output != 0) || (r.sheet && r.first != 0) {
        return Err(Stop::Unread);
    }
    within_limits(r)
}

// The next request; none where the stream ends.
fn next_request<R: io::Read>(from: &mut R) -> Result<Option<Request>, Stop>
    ensures { Fitting result }
{
    let mut bytes = [0u8; 4 * HEAD_WORDS];
    let got = input::read_full(from, &mut bytes);
    if got == 0 {
        return Ok(None);
    }
    if got < 4 * HEAD_WORDS {
        return Err(Stop::Unread);
    }
    let mut head = [0u32; HEAD_WORDS];
    wordfile::fill(&bytes, &mut head);
    Ok(Some(asked(&head)?))
}

// Reads so many words of an image.
fn read_image<R: io::Read>(
    from: &mut R,
    count: usize,
    bytes: &mut [u8],
    image: &mut [u32],
) -> Result<(), Stop>
    requires { 4 * count ≤ length bytes.old }
{
    let size = 4 * count;
    if input::read_full(from, &mut bytes[..size]) < size {
        return Err(Stop::Unread);
    }
    wordfile::fill(&bytes[..size], image);
    Ok(())
}

// Answers a request whose image was read, in parts of the buffers.
fn answer_read(
    rt: &impl Print,
    r: Request,
    image: &[u32],
    cells: &mut [u32],
    colours: &mut [u32],
    stamps: &mut [u32],
    scratch: &mut [u32],
    out: &mut [u8],
) -> io::Result<()>
    requires { HasRoom r × Planes cells.old colours.old stamps.old scratch.old out.old }
{
    let cell_count = r.cells;
    let colour_count = r.colours;
    let stamp_count = r.stamps;
    let scratch_count = r.scratch;
    let byte_count = r.output;
    answers::answer_in(
        rt,
        r,
        image,
        &mut cells[..cell_count],
        &mut colours[..colour_count],
        &mut stamps[..stamp_count],
        &mut scratch[..scratch_count],
        &mut out[..byte_count],
    )
}

// Reads the image of a request and answers it.
fn answer<R: io::Read>(
    rt: &impl Print,
    from: &mut R,
    r: Request,
    bytes: &mut [u8],
    image: &mut [u32],
    cells: &mut [u32],
    colours: &mut [u32],
    stamps: &mut [u32],
    scratch: &mut [u32],
    out: &mut [u8],
) -> Result<(), Stop>
    requires { HasRoom r × Buffers bytes.old image.old cells.old colours.old stamps.old scratch.old out.old }
{
    let words = r.words;
    read_image(from, words, bytes, image)?;
    answer_read(rt, r, &image[..words], cells, colours, stamps, scratch, out)?;
    Ok(())
}

// Answers the requests of the stream. A proved loop has to end, and nothing says that a stream does: the turns are counted up to a number that no stream reaches.
fn answer_all<R: io::Read>(
    rt: &impl Print,
    from: &mut R,
    bytes: &mut [u8],
    image: &mut [u32],
    cells: &mut [u32],
    colours: &mut [u32],
    stamps: &mut [u32],
    scratch: &mut [u32],
    out: &mut [u8],
) -> Result<(), Stop>
    requires { Buffers bytes.old image.old cells.old colours.old stamps.old scratch.old out.old }
{
    for _ in 0..u64::MAX {
        let Some(r) = next_request(from)? else {
            break;
        };
        answer(
            rt, from, r, bytes, image, cells, colours, stamps, scratch, out,
        )?;
    }
    Ok(())
}

// The buffers as slices. An array is handed on whole and becomes a slice here, where its length is known from its type: the prover would count a local array's elements.
fn lend_all<R: io::Read>(
    rt: &impl Print,
    from: &mut R,
    bytes: &mut [u8; 4 * MOST_WORDS],
    image: &mut [u32; MOST_WORDS],
    cells: &mut [u32; MOST_LENT],
    colours: &mut [u32; MOST_LENT],
    stamps: &mut [u32; MOST_LENT],
    scratch: &mut [u32; MOST_LENT],
    out: &mut [u8; MOST_OUTPUT],
) -> io::Result<()> {
    match answer_all(rt, from, bytes, image, cells, colours, stamps, scratch, out) {
        Ok(()) => Ok(()),
        Err(Stop::Unread) => println!(rt; "unread"),
        Err(Stop::Unwritten(refusal)) => Err(refusal),
    }
}

fn main(rt: HostRuntime) -> io::Result<()> {
    let mut bytes = [0u8; 4 * MOST_WORDS];
    let mut image = [0u32; MOST_WORDS];
    let mut cells = [0u32; MOST_LENT];
    let mut colours = [0u32; MOST_LENT];
    let mut stamps = [0u32; MOST_LENT];
    let mut scratch = [0u32; MOST_LENT];
    let mut out = [0u8; MOST_OUTPUT];
    lend_all(
        &rt,
        &mut rt.stdin(),
        &mut bytes,
        &mut image,
        &mut cells,
        &mut colours,
        &mut stamps,
        &mut scratch,
        &mut out,
    )
}
