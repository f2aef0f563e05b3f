// One row of cells, lent whole: a cell put into it, and a stroke, a marker and a glyph at a column. "Writes off the band vanish": a column past the row's
// end changes nothing.
ghost use Rattle.std.specs.Prelude.{◌≡◌, ◌+◌, ◌-◌, ◌≤◌, ◌<◌, length};
ghost use Rattle.canvas.specs.Row.{is_wide_lead, is_continuation, empty_continuation, blank_lead};
ghost use Rattle.canvas.specs.Row.{put, stroke_row, marker_row, letter_row, wide_row, text_row};

use cell::{Arms, Cell, Dir, MarkerKind, Parts};

const SPACE: u32 = 0x20;

fn is_wide_lead(word: u32, ranges: &[u32]) -> bool
    ensures { result ≡ is_wide_lead word ranges.now }
{
    let Parts::Text(ch) = Parts::read(word) else {
        return false;
    };
    let width = glyph::char_width(ranges, ch);
    width == 2
}

fn is_continuation(word: u32) -> bool
    ensures { result ≡ is_continuation word }
{
    let parts = Parts::read(word);
    if let Parts::Continuation = parts {
        true
    } else {
        false
    }
}

// "Overwriting a wide lead empties its continuation"
fn empty_continuation(row: &mut [u32], ranges: &[u32], x: usize)
    requires { x < length row.old }
    ensures { row.new ≡ empty_continuation row.old ranges.now x }
{
    let next = x + 1;
    if next < row.len() {
        if is_wide_lead(row[x], ranges) {
            if is_continuation(row[next]) {
                row[next] = Cell::EMPTY.0;
            }
        }
    }
}

// "overwriting a continuation by another cell turns its lead into a space": half a glyph cannot be drawn.
fn blank_lead(row: &mut [u32], ranges: &[u32], x: usize)
    requires { x < length row.old }
    ensures { row.new ≡ blank_lead row.old ranges.now x }
{
    if 0 < x {
        let before = x - 1;
        if is_continuation(row[x]) {
            if is_wide_lead(row[before], ranges) {
                row[before] = Cell::text(SPACE).0;
            }
        }
    }
}

// Every write goes through here, so that wide glyphs stay whole.
fn put(row: &mut [u32], ranges: &[u32], x: usize, new: u32)
    requires { x < length row.old }
    ensures { row.new ≡ put row.old ranges.now x new }
{
    if row[x] == new {
        return;
    }
    empty_continuation(row, ranges, x);
    blank_lead(row, ranges, x);
    row[x] = new;
}

pub fn stroke(row: &mut [u32], ranges: &[u32], x: usize, arms: Arms)
    ensures { row.new ≡ stroke_row row.old ranges.now x arms }
{
    if x < row.len() {
        let old = Cell(row[x]);
        let new = old.painted_stroke(arms);
        put(row, ranges, x, new.0);
    }
}

pub fn marker(row: &mut [u32], ranges: &[u32], x: usize, kind: MarkerKind, dir: Dir, dashed: bool)
    ensures { row.new ≡ marker_row row.old ranges.now x kind dir dashed }
{
    if x < row.len() {
        let old = Cell(row[x]);
        let new = old.painted_marker(kind, dir, dashed);
        put(row, ranges, x, new.0);
    }
}

// A glyph whatever its width, in one column.
fn letter(row: &mut [u32], ranges: &[u32], x: usize, ch: u32)
    ensures { row.new ≡ letter_row row.old ranges.now x ch }
{
    if x < row.len() {
        put(row, ranges, x, Cell::text(ch).0);
    }
}

// "width 2 in the last column paints a space, elsewhere lead and continuation"
fn wide(row: &mut [u32], ranges: &[u32], x: usize, ch: u32)
    ensures { row.new ≡ wide_row row.old ranges.now x ch }
{
    let columns = ground::minus(row.len(), x);
    if 1 < columns {
        let next = x + 1;
        letter(row, ranges, x, ch);
        put(row, ranges, next, Cell::CONTINUATION.0);
    } else {
        letter(row, ranges, x, SPACE);
    }
}

// A glyph with the width that the image gives it: "Width 0 paints nothing".
pub fn text(row: &mut [u32], ranges: &[u32], x: usize, ch: u32)
    ensures { row.new ≡ text_row row.old ranges.now x ch }
{
    let width = glyph::char_width(ranges, ch);
    match width {
        0 => {}
        2 => wide(row, ranges, x, ch),
        _ => letter(row, ranges, x, ch),
    }
}
