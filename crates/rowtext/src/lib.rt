// A band's cells as text in UTF-8: plain, or with an ECMA-48 sequence wherever the colour changes. One writer serves both: without colours every cell has colour 0, and no sequence is written.
#![tactic(auto)]

ghost use Rattle.std.specs.Prelude.{◌≡◌, [], ◌+◌, ◌*◌, ◌≤◌, ◌<◌, length, take, drop};
ghost use Rattle.cell.specs.OneCell.{read};
ghost use Rattle.shapes.specs.Shapes.{stroke_table, shape_of};
ghost use Rattle.utf8.specs.Utf8.{written_at};
ghost use Rattle.rowtext.specs.Coloured.{change_to, shape_coloured, colour_after, coloured_from, coloured_row, band_text};

use layout::word;

// Where a text is written on, and the colour in force there.
#[derive(Clone, Copy)]
struct Pen {
    // the place of the next byte
    at: usize,
    // the colour of the characters that follow
    colour: u32,
}

// The change to a colour, where another is in force: "sequences only where a written cell's colour changes"; answers the place after it. A call for each cell would cost.
#[inline(always)]
fn change_to(colour: u32, pen: Pen, out: &mut [u8]) -> usize
    requires { pen.at + length (change_to pen.colour colour) ≤ length out.old }
    ensures value { result ≡ pen.at + length (change_to pen.colour colour) }
    ensures out_after { out.new ≡ written_at pen.at (change_to pen.colour colour) out.old }
{
    if pen.colour == colour {
        return pen.at;
    }
    sequence::put_sequence(colour, out, pen.at)
}

// A character in its colour.
fn put_character(ch: u32, colour: u32, pen: Pen, out: &mut [u8]) -> Pen
    requires { (ch < 0x200000) × (pen.at + length (shape_coloured pen.colour colour (Some ch)) ≤ length out.old) }
    ensures at_value { (result.at ≡ pen.at + length (shape_coloured pen.colour colour (Some ch))) × (result.colour ≡ colour) }
    ensures out_after { out.new ≡ written_at pen.at (shape_coloured pen.colour colour (Some ch)) out.old }
{
    let begin = change_to(colour, pen, out);
    Pen {
        at: utf8::put(ch, out, begin),
        colour,
    }
}

// What a cell is written as, in its colour. The colour of a continuation does not count.
fn write_cell(cell: u32, colour: u32, pen: Pen, strokes: &[u16; 256], out: &mut [u8]) -> Pen
    requires { (strokes.now ≡ stroke_table) × (pen.at + length (shape_coloured pen.colour colour (shape_of (read cell))) ≤ length out.old) }
    ensures at_value { (result.at ≡ pen.at + length (shape_coloured pen.colour colour (shape_of (read cell)))) × (result.colour ≡ colour_after pen.colour colour (shape_of (read cell))) }
    ensures out_after { out.new ≡ written_at pen.at (shape_coloured pen.colour colour (shape_of (read cell))) out.old }
{
    let Some(ch) = shapes::shape_of(cell, strokes) else {
        return pen;
    };
    put_character(ch, colour, pen, out)
}

// The end of a row: colour 0 again, and the line feed.
fn end_row(pen: Pen, out: &mut [u8]) -> usize
    requires { pen.at + length (coloured_from pen.colour [] []) ≤ length out.old }
    ensures value { result ≡ pen.at + length (coloured_from pen.colour [] []) }
    ensures out_after { out.new ≡ written_at pen.at (coloured_from pen.colour [] []) out.old }
{
    let end = change_to(0, pen, out);
    utf8::put_bytes(b"\n", out, end)
}

// "each row starting and ending at 0"
fn write_row(row: &[u32], colours: &[u32], strokes: &[u16; 256], out: &mut [u8], at: usize) -> usize
    requires { (strokes.now ≡ stroke_table) × (at + length (coloured_row row.now colours.now) ≤ length out.old) }
    ensures value { result ≡ at + length (coloured_row row.now colours.now) }
    ensures out_after { out.new ≡ written_at at (coloured_row row.now colours.now) out.old }
{
    let mut pen = Pen { at, colour: 0 };
    for (x, cell) in row.iter().enumerate() {
        pen = write_cell(*cell, word(colours, x), pen, strokes, out);
    }
    end_row(pen, out)
}

// A row of the band, as a part of its cells and, as far as they go, of its colours.
fn write_part(
    cells: &[u32],
    colours: &[u32],
    start: usize,
    width: usize,
    strokes: &[u16; 256],
    out: &mut [u8],
    at: usize,
) -> usize
    requires { (strokes.now ≡ stroke_table) × (start + width ≤ length cells.now) × (at + length (coloured_row (take width (drop start cells.now)) (take width (drop start colours.now))) ≤ length out.old) }
    ensures value { result ≡ at + length (coloured_row (take width (drop start cells.now)) (take width (drop start colours.now))) }
    ensures out_after { out.new ≡ written_at at (coloured_row (take width (drop start cells.now)) (take width (drop start colours.now))) out.old }
{
    let end = start + width;
    let from = ground::min(start, colours.len());
    let to = ground::min(end, colours.len());
    write_row(&cells[start..end], &colours[from..to], strokes, out, at)
}

// The rows of a band, from the start of the output on; answers how many bytes they take. The table of strokes is made once: a constant is made anew wherever it is named.
pub fn write_band(
    cells: &[u32],
    colours: &[u32],
    width: usize,
    rows: usize,
    out: &mut [u8],
) -> usize
    requires { (width * rows ≤ length cells.now) × (length (band_text width rows cells.now colours.now) ≤ length out.old) }
    ensures value { result ≡ length (band_text width rows cells.now colours.now) }
    ensures out_after { out.new ≡ written_at 0 (band_text width rows cells.now colours.now) out.old }
{
    let strokes = shapes::strokes();
    let mut at: usize = 0;
    for r in 0..rows {
        let start = width * r;
        at = write_part(cells, colours, start, width, &strokes, out, at);
    }
    at
}
