// Codes 11 and 12: a band that leaves the sheet, and a lent buffer that is short.
#![tactic(auto)]

ghost use Rattle.std.specs.Prelude.{◌≡◌, false, not, [], ◌∷◌, ◌+◌, ◌<◌, leb, length};
ghost use Rattle.refusals.specs.FirstBroken.{Refused, rule, first_broken};
ghost use Rattle.picture.specs.Picture.{height};
ghost use Rattle.picture.specs.Painted.{too_little_room, room, scratch_room, plain_rooms, coloured_rooms, plain_judged, coloured_judged, band_rules};

use layout::{HEADER_ELEMENTS, HEADER_HEIGHT, HEADER_RUNS, HEADER_WIDTH, word};
use refusals::Refusal;

// "first band row + rows > height"
pub const OUTSIDE_SHEET: u32 = 11;

// "a lent buffer is short"
pub const TOO_LITTLE_ROOM: u32 = 12;

// The places of code 12.

pub const CELLS: usize = 1;

pub const COLOURS: usize = 2;

pub const STAMPS: usize = 3;

pub const SCRATCH: usize = 4;

// Whether "first band row + rows > height": the true sum, whatever the two numbers, so that none is made that could wrap.
fn is_outside(image: &[u32], first: usize, rows: usize) -> bool
    ensures { (result ≡ not (leb (first + rows) (height image.now))) × (result ≡ false → rows < 0x100000000) }
{
    let height = ground::number(word(image, HEADER_HEIGHT));
    if rows <= height {
        height - rows < first
    } else {
        true
    }
}

// Whether a lent buffer has fewer words than are wanted.
fn is_short(lent: &[u32], wanted: usize) -> bool
    ensures { result ≡ not (leb wanted (length lent.now)) }
{
    lent.len() < wanted
}

// "width × rows words each": a product of two words does not wrap.
pub fn room(image: &[u32], rows: usize) -> usize
    requires { rows < 0x100000000 }
    ensures { result ≡ room image.now rows }
{
    ground::number(word(image, HEADER_WIDTH)) * rows
}

// "scratch 8 × run capacity + elements"
pub fn scratch_room(image: &[u32]) -> usize
    ensures { result ≡ scratch_room image.now }
{
    8 * ground::number(word(image, HEADER_RUNS)) + ground::number(word(image, HEADER_ELEMENTS))
}

fn short(place: usize) -> Result<(), Refusal>
    ensures { result ≡ Refused too_little_room place }
{
    Err(Refusal {
        code: TOO_LITTLE_ROOM,
        place: place,
    })
}

// What of cells and scratch is short, where so many words are wanted of each.
pub fn short_plain(
    words: usize,
    needed: usize,
    cells: &[u32],
    scratch: &[u32],
) -> Result<(), Refusal>
    ensures { result ≡ first_broken (rule too_little_room (plain_rooms words needed cells.now scratch.now) ∷ []) }
{
    if is_short(cells, words) {
        return short(CELLS);
    }
    if is_short(scratch, needed) {
        return short(SCRATCH);
    }
    Ok(())
}

// What of cells, colours, stamps and scratch is short, the first of them.
pub fn short_coloured(
    words: usize,
    needed: usize,
    cells: &[u32],
    colours: &[u32],
    stamps: &[u32],
    scratch: &[u32],
) -> Result<(), Refusal>
    ensures { result ≡ first_broken (rule too_little_room (coloured_rooms words needed cells.now colours.now stamps.now scratch.now) ∷ []) }
{
    if is_short(cells, words) {
        return short(CELLS);
    }
    if is_short(colours, words) {
        return short(COLOURS);
    }
    if is_short(stamps, words) {
        return short(STAMPS);
    }
    if is_short(scratch, needed) {
        return short(SCRATCH);
    }
    Ok(())
}

// Of a plain band: 11, then what of cells and scratch is short.
pub fn check_plain(
    image: &[u32],
    first: usize,
    rows: usize,
    cells: &[u32],
    scratch: &[u32],
) -> Result<(), Refusal>
    ensures { result ≡ first_broken (band_rules image.now first rows (plain_judged image.now rows cells.now scratch.now)) }
{
    if is_outside(image, first, rows) {
        return Err(Refusal {
            code: OUTSIDE_SHEET,
            place: 0,
        });
    }
    short_plain(room(image, rows), scratch_room(image), cells, scratch)
}

// Of a coloured band: 11, then what of cells, colours, stamps and scratch is short.
pub fn check_coloured(
    image: &[u32],
    first: usize,
    rows: usize,
    cells: &[u32],
    colours: &[u32],
    stamps: &[u32],
    scratch: &[u32],
) -> Result<(), Refusal>
    ensures { result ≡ first_broken (band_rules image.now first rows (coloured_judged image.now rows cells.now colours.now stamps.now scratch.now)) }
{
    if is_outside(image, first, rows) {
        return Err(Refusal {
            code: OUTSIDE_SHEET,
            place: 0,
        });
    }
    short_coloured(
        room(image, rows),
        scratch_room(image),
        cells,
        colours,
        stamps,
        scratch,
    )
}
