// Glyphs side by side in a row of a window: a whole stretch, or those before a closing column.
#![tactic(auto)]

ghost use Rattle.std.specs.Prelude.{◌≡◌, true, ◌+◌, ◌≤◌, length, take};
ghost use Rattle.glyph.specs.Fitting.{columns_of};
ghost use Rattle.rows.specs.Window.{in_window};
ghost use Rattle.window.specs.Writes.{tinted};
ghost use Rattle.window.specs.Window.{on_part, ink_window, canvas_of, Ready};
ghost use Rattle.frame.specs.Frames.{text};
ghost use Rattle.frame.specs.Nodes.{text_until};
ghost use Rattle.text.specs.Text.{text_cells, glyphs_until, Placed};

use canvas::row;
use rows::Window;
use window::{Lent, Tint, fill};

// The glyphs in a row, each after the columns of the one before. Answers the column after them.
fn glyphs_in(row: &mut [u32], ranges: &[u32], x: usize, glyphs: &[u32]) -> usize
    requires { Placed x glyphs.now }
    ensures value { result ≡ x + columns_of glyphs.now ranges.now }
    ensures row_after { row.new ≡ text_cells ranges.now x glyphs.now row.old }
{
    let mut column = x;
    for ch in glyphs {
        row::text(row, ranges, column, *ch);
        column += ground::number(glyph::char_width(ranges, *ch));
    }
    column
}

// The row is a part of the lent cells.
fn glyphs_part(
    cells: &mut [u32],
    ranges: &[u32],
    start: usize,
    width: usize,
    x: usize,
    glyphs: &[u32],
) -> usize
    requires { (start + width ≤ length cells.old) × Placed x glyphs.now }
    ensures value { result ≡ x + columns_of glyphs.now ranges.now }
    ensures cells_after { cells.new ≡ on_part start width (text_cells ranges.now x glyphs.now) cells.old }
{
    let end = start + width;
    glyphs_in(&mut cells[start..end], ranges, x, glyphs)
}

// Glyphs side by side from a column on. Answers the column after them where the row is the window's.
pub fn text_at(
    cells: &mut [u32],
    colours: &mut [u32],
    stamps: &mut [u32],
    lent: Lent,
    ranges: &[u32],
    v: Window,
    x: usize,
    y: usize,
    glyphs: &[u32],
    tint: Tint,
) -> usize
    requires { Ready lent v cells.old colours.old stamps.old × Placed x glyphs.now }
    ensures value { in_window v y ≡ true → result ≡ x + columns_of glyphs.now ranges.now }
    ensures stamps_after { canvas_of lent cells.new colours.new stamps.new ≡ ink_window v ranges.now (tinted tint (text ranges.now x y glyphs.now)) (canvas_of lent cells.old colours.old stamps.old) }
{
    let width = v.width;
    if v.has(y) {
        let start = window::row_at(v, y);
        let end = glyphs_part(cells, ranges, start, width, x, glyphs);
        fill::tint_part(colours, stamps, lent, v, start, x, end - x, tint);
        return end;
    }
    x
}

// How many glyphs come before "the first that would reach the closing column".
fn count_until(ranges: &[u32], close: usize, x: usize, glyphs: &[u32]) -> usize
    requires { Placed x glyphs.now }
    ensures { (result ≤ length glyphs.now) × (take result glyphs.now ≡ glyphs_until ranges.now close x glyphs.now) }
{
    let mut column = x;
    for (k, ch) in glyphs.iter().enumerate() {
        column += ground::number(glyph::char_width(ranges, *ch));
        if close < column {
            return k;
        }
    }
    glyphs.len()
}

// "glyphs until the first that would reach the closing column"
pub fn text_until(
    cells: &mut [u32],
    colours: &mut [u32],
    stamps: &mut [u32],
    lent: Lent,
    ranges: &[u32],
    v: Window,
    close: usize,
    x: usize,
    y: usize,
    glyphs: &[u32],
    tint: Tint,
)
    requires { Ready lent v cells.old colours.old stamps.old × Placed x glyphs.now }
    ensures { canvas_of lent cells.new colours.new stamps.new ≡ ink_window v ranges.now (tinted tint (text_until ranges.now close x y glyphs.now)) (canvas_of lent cells.old colours.old stamps.old) }
{
    let count = count_until(ranges, close, x, glyphs);
    text_at(
        cells,
        colours,
        stamps,
        lent,
        ranges,
        v,
        x,
        y,
        &glyphs[..count],
        tint,
    );
}
