// Writes into a window of rows, over planes that are lent: cells alone, or cells with colours and stamps.
#![tactic(auto)]

ghost use Rattle.std.specs.Prelude.{◌≡◌, true, [], ◌∷◌, ◌+◌, ◌*◌, ◌≤◌, ◌<◌};
ghost use Rattle.glyph.specs.Width.{width_of};
ghost use Rattle.rows.specs.Spots.{at, stroke, marker, glyph};
ghost use Rattle.rows.specs.Window.{in_window};
ghost use Rattle.window.specs.Writes.{tinted};
ghost use Rattle.window.specs.Window.{row_start, ink_window, canvas_of, Ready};

use cell::{Arms, Dir, MarkerKind};
use rows::Window;

pub mod cells;
pub mod fill;

// Which planes are lent. What is written to a plane that is not lent vanishes.
#[derive(Clone, Copy)]
pub enum Lent {
    // the cells alone
    Cells,
    // the cells, their colours and their stamps
    All,
}

// The colour and the stamp of a write: what the words of its columns become in a plane besides the cells. Where there is none, they stay.
#[derive(Clone, Copy)]
pub struct Tint {
    // its colour
    pub colour: Option<u32>,
    // the number of the edge that makes it
    pub stamp: Option<u32>,
}

// Where a row of a window begins, by its number from the window's first row. The one product stands alone: whoever calls this has linear facts.
pub fn row_start(r: usize, width: usize, rows: usize) -> usize
    requires { (r < rows) × (rows * width ≤ 0xFFFFFFFFFFFFFFFF) }
    ensures { (result ≡ r * width) × (result + width ≤ rows * width) }
{
    r * width
}

// Where a row of the sheet begins, of those that the window has.
pub fn row_at(v: Window, y: usize) -> usize
    requires { (in_window v y ≡ true) × (v.rows * v.width ≤ 0xFFFFFFFFFFFFFFFF) }
    ensures { (result ≡ row_start v y) × (result + v.width ≤ v.rows * v.width) }
{
    let width = v.width;
    let rows = v.rows;
    row_start(y - v.first, width, rows)
}

// One write: a stroke, a marker and a glyph at a place. "Writes off the band vanish."

pub fn stroke_at(
    cells: &mut [u32],
    colours: &mut [u32],
    stamps: &mut [u32],
    lent: Lent,
    ranges: &[u32],
    v: Window,
    x: usize,
    y: usize,
    arms: Arms,
    tint: Tint,
)
    requires { Ready lent v cells.old colours.old stamps.old }
    ensures { canvas_of lent cells.new colours.new stamps.new ≡ ink_window v ranges.now (tinted tint (at x y (stroke arms) ∷ [])) (canvas_of lent cells.old colours.old stamps.old) }
{
    let width = v.width;
    if v.has(y) {
        let start = row_at(v, y);
        cells::stroke_part(cells, ranges, start, width, x, arms);
        fill::tint_part(colours, stamps, lent, v, start, x, 1, tint);
    }
}

pub fn marker_at(
    cells: &mut [u32],
    colours: &mut [u32],
    stamps: &mut [u32],
    lent: Lent,
    ranges: &[u32],
    v: Window,
    x: usize,
    y: usize,
    kind: MarkerKind,
    dir: Dir,
    dashed: bool,
    tint: Tint,
)
    requires { Ready lent v cells.old colours.old stamps.old }
    ensures { canvas_of lent cells.new colours.new stamps.new ≡ ink_window v ranges.now (tinted tint (at x y (marker kind dir dashed) ∷ [])) (canvas_of lent cells.old colours.old stamps.old) }
{
    let width = v.width;
    if v.has(y) {
        let start = row_at(v, y);
        cells::marker_part(cells, ranges, start, width, x, kind, dir, dashed);
        fill::tint_part(colours, stamps, lent, v, start, x, 1, tint);
    }
}

// Answers the glyph's width.
pub fn glyph_at(
    cells: &mut [u32],
    colours: &mut [u32],
    stamps: &mut [u32],
    lent: Lent,
    ranges: &[u32],
    v: Window,
    x: usize,
    y: usize,
    ch: u32,
    tint: Tint,
) -> usize
    requires { Ready lent v cells.old colours.old stamps.old }
    ensures value { (result ≡ width_of ranges.now ch) × (result ≤ 2) }
    ensures stamps_after { canvas_of lent cells.new colours.new stamps.new ≡ ink_window v ranges.now (tinted tint (at x y (glyph ch) ∷ [])) (canvas_of lent cells.old colours.old stamps.old) }
{
    let width = v.width;
    let columns = ground::number(glyph::char_width(ranges, ch));
    if v.has(y) {
        let start = row_at(v, y);
        cells::glyph_part(cells, ranges, start, width, x, ch);
        fill::tint_part(colours, stamps, lent, v, start, x, columns, tint);
    }
    columns
}
