// Shows one sheet. An image is read from standard input, and its rows are written as text in UTF-8; with the argument --colour, with the sequences of ECMA-48 that set its
// colours. What the check refuses is said with code and place; an input that is longer than an image may be, ends inside a word or cannot be read, as `unread`. With any other
// argument nothing is read, and the way to call the program is said. A sheet is painted whole, by one call, where its cells have room, else in bands.
#![tactic(auto)]

ghost use Rattle.std.specs.Prelude.{◌≡◌, ◌+◌, ◌*◌, ◌≤◌, length};
ghost use Rattle.layout.specs.Layout.{max_width};
ghost use Rattle.picture.specs.Picture as picture;
ghost use Rattle.refusals.specs.Accepted.{Keeps};
ghost use Rattle.sheetshow.specs.Room.{band_rows, band_cells, Answered};

use image_input::MOST_WORDS;
use layout::{HEADER_HEIGHT, HEADER_WIDTH, MAX_ELEMENTS, MAX_RUNS, MAX_WIDTH, word};
use paint::Outcome;
use std::env::{Env, FillError};
use std::io;

mod say;

// "scratch twice 01's element part besides its run part", both at their limit: it is short for no sheet.
const SCRATCH_WORDS: usize = 8 * MAX_RUNS as usize + 2 * MAX_ELEMENTS as usize;

// How many rows are written at a time; and painted, where the sheet is not painted whole.
const BAND_ROWS: usize = 32;

// Cells of the widest band. A sheet of no more cells is painted whole.
const BAND_CELLS: usize = BAND_ROWS * MAX_WIDTH as usize;

// The band height of a sheet that is painted whole: the picture is the same for any. Lower bands are selected more often; of higher ones, a long line that goes down
// all rows touches so many cells that they do not stay near the processor. Measured, this one is within 4 in a hundred of the quickest.
const SWEPT_ROWS: usize = 128;

// The room of the widest band as coloured text.
const BAND_BYTES: usize = BAND_ROWS * (23 * MAX_WIDTH as usize + 5);

// The form of the text.
#[derive(Clone, Copy)]
enum Form {
    // without colours
    Plain,
    // with the sequences that set its colours
    Coloured,
}

// The form that the arguments ask for: plain with none, coloured with --colour alone. `arg` answers no byte of an argument that is longer than its room, and that there is a
// second one is known without reading it.
fn form_asked(rt: &impl Env) -> Option<Form> {
    let mut argument = [0u8; 8];
    match rt.arg(1, &mut argument) {
        Ok(size) => (argument[..size] == b"--colour"[..] && is_only_one(rt)).then_some(
            Form::Coloured,
        ),
        Err(FillError::NotPresent) => Some(Form::Plain),
        Err(FillError::TooLong) => None,
    }
}

// Whether there is no second argument.
fn is_only_one(rt: &impl Env) -> bool {
    matches!(rt.arg(2, &mut [0u8; 1]), Err(FillError::NotPresent))
}

// The colours that the form shows. Without any, the text is the plain one.
fn shown_colours(colours: &[u32], form: Form) -> &[u32] {
    match form {
        Form::Plain => &colours[..0],
        Form::Coloured => colours,
    }
}

// Writes so many painted rows from a first one on to standard output.
fn show_rows(
    rt: &impl Print,
    form: Form,
    width: usize,
    first: usize,
    rows: usize,
    cells: &[u32; BAND_CELLS],
    colours: &[u32; BAND_CELLS],
    out: &mut [u8; BAND_BYTES],
) -> io::Result<()>
    requires { (width * (first + rows) ≤ band_cells) × (width ≤ max_width) × (rows ≤ band_rows) }
{
    let start = width * first;
    let shown = shown_colours(&colours[start..], form);
    let bytes = rowtext::write_band(&cells[start..], shown, width, rows, out);
    rt.write_all(&out[..bytes])
}

// Shows a sheet that is painted whole, so many rows at a time.
fn show_whole(
    rt: &impl Print,
    image: &[u32],
    form: Form,
    cells: &[u32; BAND_CELLS],
    colours: &[u32; BAND_CELLS],
    out: &mut [u8; BAND_BYTES],
) -> io::Result<()>
    requires { (picture.width image.now ≤ max_width) × (picture.width image.now * picture.height image.now ≤ band_cells) }
{
    let width = ground::number(word(image, HEADER_WIDTH));
    let height = ground::number(word(image, HEADER_HEIGHT));
    let mut first: usize = 0;
    // `while`: each step is as many rows as are written at a time, the last one fewer.
    while first < height {
        let rows = ground::min(BAND_ROWS, height - first);
        show_rows(rt, form, width, first, rows, cells, colours, out)?;
        first += rows;
    }
    Ok(())
}

// Paints so many rows of an accepted image from a first one on, in the planes that the form shows. They have room for the widest band: nothing is refused.
fn paint_rows(
    image: &[u32],
    first: usize,
    rows: usize,
    form: Form,
    cells: &mut [u32; BAND_CELLS],
    colours: &mut [u32; BAND_CELLS],
    stamps: &mut [u32; BAND_CELLS],
    scratch: &mut [u32; SCRATCH_WORDS],
)
    requires { Keeps image.now × (first + rows ≤ picture.height image.now) × (rows ≤ band_rows) }
{
    match form {
        Form::Plain => paint::accepted::paint_plain(image, first, rows, cells, scratch),
        Form::Coloured => paint::accepted::paint_planes(
            image, first, rows, cells, colours, stamps, scratch,
        ),
    }
}

// Shows an accepted image, band after band.
fn show_bands(
    rt: &impl Print,
    image: &[u32],
    form: Form,
    cells: &mut [u32; BAND_CELLS],
    colours: &mut [u32; BAND_CELLS],
    stamps: &mut [u32; BAND_CELLS],
    scratch: &mut [u32; SCRATCH_WORDS],
    out: &mut [u8; BAND_BYTES],
) -> io::Result<()>
    requires { Keeps image.now }
{
    let width = ground::number(word(image, HEADER_WIDTH));
    let height = ground::number(word(image, HEADER_HEIGHT));
    let mut first: usize = 0;
    // `while`: each step is a band, the last one lower.
    while first < height {
        let rows = ground::min(BAND_ROWS, height - first);
        paint_rows(image, first, rows, form, cells, colours, stamps, scratch);
        show_rows(rt, form, width, 0, rows, cells, colours, out)?;
        first += rows;
    }
    Ok(())
}

// Paints all rows, in the planes that the form shows.
fn paint_whole(
    image: &[u32],
    form: Form,
    cells: &mut [u32; BAND_CELLS],
    colours: &mut [u32; BAND_CELLS],
    stamps: &mut [u32; BAND_CELLS],
    scratch: &mut [u32; SCRATCH_WORDS],
) -> Outcome
    ensures { Answered image.now cells.old result }
{
    match form {
        Form::Plain => paintsheet::paint_sheet(image, SWEPT_ROWS, cells, scratch),
        Form::Coloured => paintsheet::paint_sheet_coloured(
            image, SWEPT_ROWS, cells, colours, stamps, scratch,
        ),
    }
}

// Shows an image, or says that it is refused. What is refused for lack of room is accepted, and bands have room. Where the output takes no more, the rest is left.
fn show_image(
    rt: &(impl Print + Eprint),
    image: &[u32],
    form: Form,
    cells: &mut [u32; BAND_CELLS],
    colours: &mut [u32; BAND_CELLS],
    stamps: &mut [u32; BAND_CELLS],
    scratch: &mut [u32; SCRATCH_WORDS],
    out: &mut [u8; BAND_BYTES],
) -> io::Result<()> {
    let painted = paint_whole(image, form, cells, colours, stamps, scratch);
    let shown = if painted.code == 0 {
        show_whole(rt, image, form, cells, colours, out)
    } else if painted.code == lending::TOO_LITTLE_ROOM {
        show_bands(rt, image, form, cells, colours, stamps, scratch, out)
    } else {
        return say::refused(rt, painted.code, painted.place);
    };
    if shown.is_err() {
        say::not_written(rt);
    }
    Ok(())
}

fn show_input<R: io::Read>(
    rt: &(impl Print + Eprint),
    from: &mut R,
    form: Form,
    bytes: &mut [u8; 4 * MOST_WORDS + 1],
    words: &mut [u32; MOST_WORDS],
    cells: &mut [u32; BAND_CELLS],
    colours: &mut [u32; BAND_CELLS],
    stamps: &mut [u32; BAND_CELLS],
    scratch: &mut [u32; SCRATCH_WORDS],
    out: &mut [u8; BAND_BYTES],
) -> io::Result<()> {
    let Ok(count) = image_input::read_image(from, bytes, words) else {
        return say::unread(rt);
    };
    show_image(
        rt,
        &words[..count],
        form,
        cells,
        colours,
        stamps,
        scratch,
        out,
    )
}

fn show<R: io::Read>(rt: &(impl Print + Eprint), from: &mut R, form: Form) -> io::Result<()> {
    let mut bytes = [0u8; 4 * MOST_WORDS + 1];
    let mut words = [0u32; MOST_WORDS];
    let mut cells = [0u32; BAND_CELLS];
    let mut colours = [0u32; BAND_CELLS];
    let mut stamps = [0u32; BAND_CELLS];
    let mut scratch = [0u32; SCRATCH_WORDS];
    let mut out = [0u8; BAND_BYTES];
    show_input(
        rt,
        from,
        form,
        &mut bytes,
        &mut words,
        &mut cells,
        &mut colours,
        &mut stamps,
        &mut scratch,
        &mut out,
    )
}

fn main(rt: HostRuntime) -> io::Result<()> {
    match form_asked(&rt) {
        Some(form) => show(&rt, &mut rt.stdin(), form),
        None => say::usage(&rt),
    }
}
