// A band of an image that is known to be accepted.
ghost use Rattle.std.specs.Prelude.{◌≡◌, ◌+◌, ◌≤◌, length, replicate};
ghost use Rattle.layout.specs.Small.{AllSmall};
ghost use Rattle.layout.specs.Tables.{tables_of};
ghost use Rattle.selection.specs.Selection.{Marked};
ghost use Rattle.refusals.specs.Accepted.{Keeps};
ghost use Rattle.window.specs.Window.{canvas_of};
ghost use Rattle.picture.specs.Picture.{height, picture_cells, picture_colours};
ghost use Rattle.picture.specs.Painted.{room, scratch_room};
ghost use Rattle.compose.specs.Painting.{LentBand};

use crate::{clear, stages};
use layout::{HEADER_WIDTH, Tables, word};
use rows::Window;
use window::Lent;

// A band whose things are marked: the needed cells and colours hold it afterwards, the stamps zeros. The scratch is left as the runs leave it.
pub fn paint_selected(
    image: &[u32],
    ts: Tables,
    first: usize,
    rows: usize,
    lent: Lent,
    marks: &[u8],
    cells: &mut [u32],
    colours: &mut [u32],
    stamps: &mut [u32],
    scratch: &mut [u32],
)
    requires { Keeps image.now × (ts ≡ tables_of image.now) × AllSmall ts × (first + rows ≤ height image.now) × Marked image.now ts first (first + rows) marks.now ts.elements.count × LentBand image.now rows lent cells.old colours.old stamps.old scratch.old }
    ensures stamps_after { canvas_of lent cells.new colours.new stamps.new ≡ canvas_of lent (picture_cells image.now first rows) (picture_colours image.now first rows) (replicate (room image.now rows) 0) }
    ensures scratch_len_unchanged { length scratch.new ≡ length scratch.old }
{
    let ranges = image::table_words(image, ts.ranges);
    let v = Window {
        width: ground::number(word(image, HEADER_WIDTH)),
        first,
        rows,
    };
    clear::clear(cells);
    clear::clear_plane(colours, lent);
    clear::clear_plane(stamps, lent);
    stages::paint_stages(
        image, ts, v, lent, ranges, marks, cells, colours, stamps, scratch,
    );
    clear::clear_plane(stamps, lent);
}

// The needed parts of the lent buffers, and no more: the cells and colours hold the band afterwards, the stamps and the scratch zeros.
pub fn paint_band(
    image: &[u32],
    first: usize,
    rows: usize,
    lent: Lent,
    cells: &mut [u32],
    colours: &mut [u32],
    stamps: &mut [u32],
    scratch: &mut [u32],
)
    requires { Keeps image.now × (first + rows ≤ height image.now) × LentBand image.now rows lent cells.old colours.old stamps.old scratch.old }
    ensures stamps_after { canvas_of lent cells.new colours.new stamps.new ≡ canvas_of lent (picture_cells image.now first rows) (picture_colours image.now first rows) (replicate (room image.now rows) 0) }
    ensures scratch_after { scratch.new ≡ replicate (scratch_room image.now) 0 }
{
    let ts = layout::tables_of(image);
    let mut marks = [0u8; elements::SLOT_COUNT];
    selection::mark_listed(image, ts, first, first + rows, &mut marks);
    paint_selected(
        image, ts, first, rows, lent, &marks, cells, colours, stamps, scratch,
    );
    clear::clear(scratch);
}
