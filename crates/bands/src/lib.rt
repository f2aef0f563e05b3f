// A whole sheet of an accepted image, band by band, with one sweep.
#![tactic(auto)]

ghost use Rattle.std.specs.Prelude.{◌≡◌, ◌+◌, ◌≤◌, ◌<◌, length, replicate};
ghost use Rattle.layout.specs.Small.{AllSmall};
ghost use Rattle.layout.specs.Tables.{tables_of};
ghost use Rattle.refusals.specs.Accepted.{Keeps};
ghost use Rattle.selection.specs.Selection.{Marked};
ghost use Rattle.window.specs.declared.Lent.TheVariants as lents;
ghost use Rattle.window.specs.Window.{canvas_of};
ghost use Rattle.picture.specs.Picture.{height, picture_cells, picture_colours};
ghost use Rattle.picture.specs.Painted.{room, scratch_room};
ghost use Rattle.compose.specs.Painting.{LentPlanes};
ghost use Rattle.bands.specs.Sheet.{sheet_room, sheet_scratch};
ghost use Rattle.bands.specs.Stepped.{WithBand, LentSheet, band_rows, Steppable, Stepped};

use compose::{band, clear};
use layout::{HEADER_HEIGHT, Tables, word};
use sweep::Sweep;
use window::Lent;

// Where a band's words lie in a plane of the sheet.
#[derive(Clone, Copy)]
struct Part {
    // the first word of its first row
    start: usize,
    // the word behind its last row
    end: usize,
}

// The part of the band of so many rows from a row on.
fn part_of(image: &[u32], top: usize, rows: usize) -> Part
    requires { Keeps image.now × (top + rows ≤ height image.now) }
    ensures { (result.start ≡ room image.now top) × (result.end ≡ room image.now top + room image.now rows) × (result.end ≤ sheet_room image.now) }
{
    let start = lending::room(image, top);
    let words = lending::room(image, rows);
    Part {
        start,
        end: start + words,
    }
}

// The band of so many rows from a row on, in its part of the cells.
fn paint_cells(
    image: &[u32],
    ts: Tables,
    top: usize,
    rows: usize,
    marks: &[u8],
    cells: &mut [u32],
    colours: &mut [u32],
    stamps: &mut [u32],
    scratch: &mut [u32],
)
    requires keeps { Keeps image.now × (ts ≡ tables_of image.now) × AllSmall ts × (top + rows ≤ height image.now) × Marked image.now ts top (top + rows) marks.now ts.elements.count }
    requires cells_len { (length cells.old ≡ sheet_room image.now) × (length scratch.old ≡ scratch_room image.now) }
    ensures with_band { WithBand image.now lents.Cells top rows cells.old colours.old stamps.old cells.new colours.new stamps.new }
    ensures scratch_len_unchanged { length scratch.new ≡ length scratch.old }
{
    let part = part_of(image, top, rows);
    let start = part.start;
    let end = part.end;
    band::paint_selected(
        image,
        ts,
        top,
        rows,
        Lent::Cells,
        marks,
        &mut cells[start..end],
        colours,
        stamps,
        scratch,
    );
}

// The same in its part of each plane.
fn paint_planes(
    image: &[u32],
    ts: Tables,
    top: usize,
    rows: usize,
    marks: &[u8],
    cells: &mut [u32],
    colours: &mut [u32],
    stamps: &mut [u32],
    scratch: &mut [u32],
)
    requires keeps { Keeps image.now × (ts ≡ tables_of image.now) × AllSmall ts × (top + rows ≤ height image.now) × Marked image.now ts top (top + rows) marks.now ts.elements.count }
    requires cells_len { (length cells.old ≡ sheet_room image.now) × (length colours.old ≡ sheet_room image.now) × (length stamps.old ≡ sheet_room image.now) × (length scratch.old ≡ scratch_room image.now) }
    ensures with_band { WithBand image.now lents.All top rows cells.old colours.old stamps.old cells.new colours.new stamps.new }
    ensures scratch_len_unchanged { length scratch.new ≡ length scratch.old }
{
    let part = part_of(image, top, rows);
    let start = part.start;
    let end = part.end;
    band::paint_selected(
        image,
        ts,
        top,
        rows,
        Lent::All,
        marks,
        &mut cells[start..end],
        &mut colours[start..end],
        &mut stamps[start..end],
        scratch,
    );
}

// The band in the planes that are lent.
fn paint_rows(
    image: &[u32],
    ts: Tables,
    top: usize,
    rows: usize,
    lent: Lent,
    marks: &[u8],
    cells: &mut [u32],
    colours: &mut [u32],
    stamps: &mut [u32],
    scratch: &mut [u32],
)
    requires keeps { Keeps image.now × (ts ≡ tables_of image.now) × AllSmall ts × (top + rows ≤ height image.now) × Marked image.now ts top (top + rows) marks.now ts.elements.count }
    requires cells_len { (length cells.old ≡ sheet_room image.now) × LentPlanes (sheet_room image.now) lent colours.old stamps.old × (length scratch.old ≡ scratch_room image.now) }
    ensures with_band { WithBand image.now lent top rows cells.old colours.old stamps.old cells.new colours.new stamps.new }
    ensures scratch_len_unchanged { length scratch.new ≡ length scratch.old }
{
    match lent {
        Lent::Cells => paint_cells(image, ts, top, rows, marks, cells, colours, stamps, scratch),
        Lent::All => paint_planes(image, ts, top, rows, marks, cells, colours, stamps, scratch),
    }
}

// How many rows the band from a row on has: the stated height, or what is left of the sheet.
fn rows_from(image: &[u32], band: usize, top: usize) -> usize
    ensures { result ≡ band_rows image.now band top }
{
    let height = ground::number(word(image, HEADER_HEIGHT));
    ground::min(band, ground::minus(height, top))
}

// The next band: what it may show is carried by the sweep, its rows are painted, and the sweep passes it. The covered step, by value.
fn paint_next(
    sweep: Sweep,
    image: &[u32],
    band: usize,
    lent: Lent,
    cells: &mut [u32],
    colours: &mut [u32],
    stamps: &mut [u32],
    scratch: &mut [u32],
    marks: &mut [u8],
) -> Sweep
    requires { Steppable image.now lent sweep cells.old colours.old stamps.old scratch.old marks.old }
    ensures { Stepped image.now band lent sweep cells.old colours.old stamps.old result cells.new colours.new stamps.new scratch.new marks.new }
{
    let ts = layout::tables_of(image);
    let top = sweep.next;
    let rows = rows_from(image, band, top);
    let needed = lending::scratch_room(image);
    let elements = ts.elements;
    let end = needed + elements.count;
    let shown = sweep::select(image, ts, sweep, rows, &mut scratch[needed..end], marks);
    paint_rows(
        image,
        ts,
        top,
        rows,
        lent,
        marks,
        cells,
        colours,
        stamps,
        &mut scratch[..needed],
    );
    sweep::pass(image, ts, shown, rows, &mut scratch[needed..end], marks)
}

// "a sweep record lent to each band's step and changed by it"
fn step(
    sweep: &mut Sweep,
    image: &[u32],
    band: usize,
    lent: Lent,
    cells: &mut [u32],
    colours: &mut [u32],
    stamps: &mut [u32],
    scratch: &mut [u32],
    marks: &mut [u8],
)
    requires { Steppable image.now lent sweep.old cells.old colours.old stamps.old scratch.old marks.old }
    ensures { Stepped image.now band lent sweep.old cells.old colours.old stamps.old sweep.new cells.new colours.new stamps.new scratch.new marks.new }
{
    *sweep = paint_next(
        *sweep, image, band, lent, cells, colours, stamps, scratch, marks,
    );
}

// The record is lent to a step, and handed back.
fn step_from(
    mut sweep: Sweep,
    image: &[u32],
    band: usize,
    lent: Lent,
    cells: &mut [u32],
    colours: &mut [u32],
    stamps: &mut [u32],
    scratch: &mut [u32],
    marks: &mut [u8],
) -> Sweep
    requires { Steppable image.now lent sweep cells.old colours.old stamps.old scratch.old marks.old }
    ensures { Stepped image.now band lent sweep cells.old colours.old stamps.old result cells.new colours.new stamps.new scratch.new marks.new }
{
    step(
        &mut sweep, image, band, lent, cells, colours, stamps, scratch, marks,
    );
    sweep
}

// All rows of an accepted image, in bands of a stated height: the needed parts of the lent buffers hold the sheet afterwards, and zeros in stamps and scratch.
pub fn paint_bands(
    image: &[u32],
    band: usize,
    lent: Lent,
    cells: &mut [u32],
    colours: &mut [u32],
    stamps: &mut [u32],
    scratch: &mut [u32],
)
    requires { Keeps image.now × (0 < band) × LentSheet image.now lent cells.old colours.old stamps.old scratch.old }
    ensures stamps_after { canvas_of lent cells.new colours.new stamps.new ≡ canvas_of lent (picture_cells image.now 0 (height image.now)) (picture_colours image.now 0 (height image.now)) (replicate (sheet_room image.now) 0) }
    ensures scratch_after { scratch.new ≡ replicate (sheet_scratch image.now) 0 }
{
    let height = ground::number(word(image, HEADER_HEIGHT));
    // made once for the sheet: each band takes its own marks back
    let mut marks = [0u8; elements::SLOT_COUNT];
    let mut sweep = sweep::start();
    // each step leaves in the record where the next band begins: no range says so
    while sweep.next < height {
        sweep = step_from(
            sweep, image, band, lent, cells, colours, stamps, scratch, &mut marks,
        );
    }
    clear::clear(scratch);
}
