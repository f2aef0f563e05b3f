// Prints the cells of one sheet. An image of at most 16,384 words is read from standard input; a line with width, height and run count is printed, then a line for
// each row. What the check refuses, and a scratch of 16,384 words that does not do, is printed with code and place; an input that is longer, ends inside a
// word or cannot be read, as `unread`. A sheet is painted whole, by one call, where its cells and the scratch of that call have room, else in bands.
#![tactic(auto)]

ghost use Rattle.std.specs.Prelude.{◌≡◌, ◌+◌, ◌*◌, ◌≤◌, ◌<◌, length};
ghost use Rattle.refusals.specs.Accepted.{Keeps};
ghost use Rattle.picture.specs.Picture as picture;
ghost use Rattle.picture.specs.Painted.{scratch_room};
ghost use Rattle.sheetcells.specs.Bands.{band_rows, band_cells};

use layout::{HEADER_HEIGHT, HEADER_WIDTH, MAX_WIDTH, word};
use std::io;

mod say;

// "an image of at most 16,384 words"
const MOST_WORDS: usize = 16384;

// "wanting over 16,384 scratch words"
const SCRATCH_WORDS: usize = 16384;

// How many rows are painted at a time where the sheet is not painted whole.
const BAND_ROWS: usize = 64;

// Cells of the widest band. A sheet of no more cells is painted whole.
const BAND_CELLS: usize = BAND_ROWS * MAX_WIDTH as usize;

// The band height of a sheet that is painted whole: the picture is the same for any. Lower bands are selected more often; of higher ones, a long line that goes down
// all rows touches so many cells that they do not stay near the processor. Measured, this one is within 4 in a hundred of the quickest.
const SWEPT_ROWS: usize = 128;

// Where row k of so many begins in their cells.
fn row_start(width: usize, rows: usize, k: usize) -> usize
    requires { (k < rows) × (width * rows ≤ band_cells) }
    ensures { (result ≡ width * k) × (result + width ≤ width * rows) }
{
    width * k
}

// A line for each of so many rows, which the cells begin with.
fn print_lines(rt: &impl Print, cells: &[u32], width: usize, rows: usize) -> io::Result<()>
    requires { (width * rows ≤ band_cells) × (length cells.now ≡ band_cells) }
{
    for k in 0..rows {
        let from = row_start(width, rows, k);
        let to = from + width;
        say::row(rt, &cells[from..to])?;
    }
    Ok(())
}

// Paints so many rows of an accepted image from a first one on, and prints them. The cells have room for the widest band, and the scratch has as much as the image wants: nothing is refused.
fn print_band(
    rt: &impl Print,
    image: &[u32],
    first: usize,
    rows: usize,
    width: usize,
    cells: &mut [u32],
    scratch: &mut [u32],
) -> io::Result<()>
    requires keeps { Keeps image.now × (width ≡ picture.width image.now) × (first + rows ≤ picture.height image.now) × (scratch_room image.now ≤ length scratch.old) }
    requires rows_le_band_rows { (rows ≤ band_rows) × (length cells.old ≡ band_cells) }
{
    paint::accepted::paint_plain(image, first, rows, cells, scratch);
    print_lines(rt, cells, width, rows)
}

// All rows, band after band.
fn print_rows(
    rt: &impl Print,
    image: &[u32],
    width: usize,
    height: usize,
    cells: &mut [u32],
    scratch: &mut [u32],
) -> io::Result<()>
    requires { Keeps image.now × (width ≡ picture.width image.now) × (height ≡ picture.height image.now) × (scratch_room image.now ≤ length scratch.old) × (length cells.old ≡ band_cells) }
{
    // no `for`: a band is as high as is left, and `first` goes up by its rows
    let mut first: usize = 0;
    while first < height {
        let rows = ground::min(BAND_ROWS, height - first);
        print_band(rt, image, first, rows, width, cells, scratch)?;
        first += rows;
    }
    Ok(())
}

// Prints an accepted image band after band, or that the scratch is short for it: a band of no rows wants nothing else.
fn print_bands(
    rt: &impl Print,
    image: &[u32],
    runs: usize,
    cells: &mut [u32],
    scratch: &mut [u32],
) -> io::Result<()>
    requires { Keeps image.now × (length cells.old ≡ band_cells) }
{
    let tried = lending::check_plain(image, 0, 0, cells, scratch);
    if let Err(refusal) = tried {
        return say::refused(rt, refusal.code, refusal.place);
    }
    let width = ground::number(word(image, HEADER_WIDTH));
    let height = ground::number(word(image, HEADER_HEIGHT));
    say::sheet(rt, width, height, runs)?;
    print_rows(rt, image, width, height, cells, scratch)
}

// Prints a sheet all of whose rows are in the cells.
fn print_whole(rt: &impl Print, image: &[u32], runs: usize, cells: &[u32]) -> io::Result<()>
    requires { (picture.width image.now * picture.height image.now ≤ band_cells) × (length cells.now ≡ band_cells) }
{
    let width = ground::number(word(image, HEADER_WIDTH));
    let height = ground::number(word(image, HEADER_HEIGHT));
    say::sheet(rt, width, height, runs)?;
    print_lines(rt, cells, width, height)
}

// Prints an accepted image. What the call for a whole sheet refuses of it is for lack of room, and bands want less of that.
fn print_accepted(
    rt: &impl Print,
    image: &[u32],
    runs: usize,
    cells: &mut [u32],
    scratch: &mut [u32],
) -> io::Result<()>
    requires { Keeps image.now × (length cells.old ≡ band_cells) }
{
    let painted = paintsheet::paint_sheet(image, SWEPT_ROWS, cells, scratch);
    if painted.code == 0 {
        print_whole(rt, image, runs, cells)
    } else {
        print_bands(rt, image, runs, cells, scratch)
    }
}

fn print_image(rt: &impl Print, image: &[u32]) -> io::Result<()> {
    let answer = refusals::check(image);
    if answer.code != 0 {
        return say::refused(rt, answer.code, answer.place);
    }
    let mut cells = [0u32; BAND_CELLS];
    let mut scratch = [0u32; SCRATCH_WORDS];
    print_accepted(rt, image, answer.runs, &mut cells, &mut scratch)
}

fn print_input<R: io::Read>(
    rt: &impl Print,
    from: &mut R,
    bytes: &mut [u8],
    words: &mut [u32],
) -> io::Result<()> {
    let Ok(count) = image_input::read_image(from, bytes, words) else {
        return say::unread(rt);
    };
    print_image(rt, &words[..count])
}

fn main(rt: HostRuntime) -> io::Result<()> {
    let mut bytes = [0u8; 4 * MOST_WORDS + 1];
    let mut words = [0u32; MOST_WORDS];
    print_input(&rt, &mut rt.stdin(), &mut bytes, &mut words)
}
