// A band of any image, painted and written as text in UTF-8, plain or coloured. Every image, row number and lent length is answered; a refusal changes no word and no byte of any
// lent buffer.
#![tactic(auto)]

ghost use Rattle.std.specs.Prelude.{◌≡◌, ◌≤◌};
ghost use Rattle.refusals.specs.FirstBroken.{first_broken};
ghost use Rattle.rowtext.specs.Text.{text_room};
ghost use Rattle.rowtext.specs.Coloured.{coloured_room};
ghost use Rattle.painttext.specs.PaintedText.{output_rules, text_verdict, text_coloured_verdict, written_of, TextPainted, TextPaintedColoured};

use layout::{HEADER_WIDTH, word};
use refusals::Refusal;

// "output under rows × (4 × width + 1) bytes"
pub const TOO_LITTLE_OUTPUT: u32 = 20;

// What the calls for text answer.
#[derive(Clone, Copy)]
pub struct Written {
    // 0 where the band was written, else the code of the first rule that is broken
    pub code: u32,
    // where it is broken, 0 where the band was written
    pub place: usize,
    // how many bytes were written
    pub bytes: usize,
}

// "rows × (4 × width + 1) bytes", of a sheet within its limits
fn text_room(width: usize, rows: usize) -> usize
    requires { (width ≤ 1024) × (rows ≤ 32767) }
    ensures { result ≡ text_room width rows }
{
    rows * (4 * width + 1)
}

// The room of the coloured form: a sequence and a character for each cell, a reset and a line feed for each row.
fn coloured_room(width: usize, rows: usize) -> usize
    requires { (width ≤ 1024) × (rows ≤ 32767) }
    ensures { result ≡ coloured_room width rows }
{
    rows * (23 * width + 5)
}

// Code 20: an output that is shorter than is wanted.
fn output_verdict(wanted: usize, out: &[u8]) -> Result<(), Refusal>
    ensures { result ≡ first_broken (output_rules wanted out.now) }
{
    if out.len() < wanted {
        return Err(Refusal {
            code: TOO_LITTLE_OUTPUT,
            place: 0,
        });
    }
    Ok(())
}

// Painting's codes, then 20, of a plain text.
fn text_verdict(
    image: &[u32],
    first: usize,
    rows: usize,
    cells: &[u32],
    scratch: &[u32],
    out: &[u8],
) -> Result<(), Refusal>
    ensures { result ≡ text_verdict image.now first rows cells.now scratch.now out.now }
{
    paint::plain_verdict(image, first, rows, cells, scratch)?;
    let width = ground::number(word(image, HEADER_WIDTH));
    output_verdict(text_room(width, rows), out)
}

// Painting's codes, then 20, of a coloured text.
fn text_coloured_verdict(
    image: &[u32],
    first: usize,
    rows: usize,
    cells: &[u32],
    colours: &[u32],
    stamps: &[u32],
    scratch: &[u32],
    out: &[u8],
) -> Result<(), Refusal>
    ensures { result ≡ text_coloured_verdict image.now first rows cells.now colours.now stamps.now scratch.now out.now }
{
    paint::coloured_verdict(image, first, rows, cells, colours, stamps, scratch)?;
    let width = ground::number(word(image, HEADER_WIDTH));
    output_verdict(coloured_room(width, rows), out)
}

// "The bytes written are answered"; where it is refused, none is.
fn written_of(verdict: Result<(), Refusal>, bytes: usize) -> Written
    ensures { result ≡ written_of verdict bytes }
{
    match verdict {
        Ok(()) => Written {
            code: 0,
            place: 0,
            bytes: bytes,
        },
        Err(refusal) => Written {
            code: refusal.code,
            place: refusal.place,
            bytes: 0,
        },
    }
}

// "a call that paints a band and writes it as UTF-8 text"
pub fn paint_text(
    image: &[u32],
    first: usize,
    rows: usize,
    cells: &mut [u32],
    scratch: &mut [u32],
    out: &mut [u8],
) -> Written
    ensures { TextPainted image.now first rows cells.old scratch.old out.old result cells.new scratch.new out.new }
{
    let verdict = text_verdict(image, first, rows, cells, scratch, out);
    let Ok(()) = verdict else {
        return written_of(verdict, 0);
    };
    paint::accepted::paint_plain(image, first, rows, cells, scratch);
    let width = ground::number(word(image, HEADER_WIDTH));
    // without colours it is the plain text
    let no_colours = [0u32; 0];
    let bytes = rowtext::write_band(cells, &no_colours, width, rows, out);
    written_of(verdict, bytes)
}

// "The coloured form": with colours and stamps lent too.
pub fn paint_text_coloured(
    image: &[u32],
    first: usize,
    rows: usize,
    cells: &mut [u32],
    colours: &mut [u32],
    stamps: &mut [u32],
    scratch: &mut [u32],
    out: &mut [u8],
) -> Written
    ensures { TextPaintedColoured image.now first rows cells.old colours.old stamps.old scratch.old out.old result cells.new colours.new stamps.new scratch.new out.new }
{
    let verdict = text_coloured_verdict(image, first, rows, cells, colours, stamps, scratch, out);
    let Ok(()) = verdict else {
        return written_of(verdict, 0);
    };
    paint::accepted::paint_planes(image, first, rows, cells, colours, stamps, scratch);
    let width = ground::number(word(image, HEADER_WIDTH));
    let bytes = rowtext::write_band(cells, colours, width, rows, out);
    written_of(verdict, bytes)
}
