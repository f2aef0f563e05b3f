// A whole sheet of any image, plain or coloured, in bands of a stated height: checked once, with one sweep. Every image, band height and lent length is answered; a refusal
// changes no word of any lent buffer.
#![tactic(auto)]

ghost use Rattle.std.specs.Prelude.{◌≡◌, [], ◌∷◌, ◌++◌, ◌≤◌, ◌<◌, length, drop, replicate};
ghost use Rattle.refusals.specs.FirstBroken.{rule, first_broken};
ghost use Rattle.refusals.specs.Rules.{rules};
ghost use Rattle.refusals.specs.Accepted.{Keeps};
ghost use Rattle.picture.specs.Picture.{height, picture_cells, picture_colours};
ghost use Rattle.picture.specs.Painted.{outside_sheet};
ghost use Rattle.bands.specs.Sheet.{sheet_room, sheet_scratch};
ghost use Rattle.paintsheet.specs.PaintedSheet.{height_judged, sheet_verdict, sheet_coloured_verdict, SheetPainted, SheetPaintedColoured};

use layout::{HEADER_ELEMENTS, HEADER_HEIGHT, HEADER_RUNS, word};
use paint::Outcome;
use refusals::Refusal;
use window::Lent;

// "band height 0 is 11, place 1"
const BAND_HEIGHT: usize = 1;

// "Cells, colours and stamps need width × height words"
fn sheet_room(image: &[u32]) -> usize
    ensures { result ≡ sheet_room image.now }
{
    lending::room(image, ground::number(word(image, HEADER_HEIGHT)))
}

// "scratch twice 01's element part besides its run part"
fn sheet_scratch(image: &[u32]) -> usize
    ensures { result ≡ sheet_scratch image.now }
{
    8 * ground::number(word(image, HEADER_RUNS)) + 2 * ground::number(word(image, HEADER_ELEMENTS))
}

// The codes of the check, then 11 of the band height.
fn asked_verdict(image: &[u32], band: usize) -> Result<(), Refusal>
    ensures { result ≡ first_broken (rules image.now ++ (rule outside_sheet (height_judged band) ∷ [])) }
{
    paint::image_verdict(image)?;
    if band == 0 {
        return Err(Refusal {
            code: lending::OUTSIDE_SHEET,
            place: BAND_HEIGHT,
        });
    }
    Ok(())
}

// The codes of the check, then 11 and 12 of a plain sheet.
fn sheet_verdict(image: &[u32], band: usize, cells: &[u32], scratch: &[u32]) -> Result<(), Refusal>
    ensures { result ≡ sheet_verdict image.now band cells.now scratch.now }
{
    asked_verdict(image, band)?;
    lending::short_plain(sheet_room(image), sheet_scratch(image), cells, scratch)
}

// The codes of the check, then 11 and 12 of a coloured sheet.
fn sheet_coloured_verdict(
    image: &[u32],
    band: usize,
    cells: &[u32],
    colours: &[u32],
    stamps: &[u32],
    scratch: &[u32],
) -> Result<(), Refusal>
    ensures { result ≡ sheet_coloured_verdict image.now band cells.now colours.now stamps.now scratch.now }
{
    asked_verdict(image, band)?;
    lending::short_coloured(
        sheet_room(image),
        sheet_scratch(image),
        cells,
        colours,
        stamps,
        scratch,
    )
}

// All rows of an accepted image, in buffers that have room: the needed parts hold the sheet, and zeros in the scratch; all beyond is unchanged.
fn paint_accepted(image: &[u32], band: usize, cells: &mut [u32], scratch: &mut [u32])
    requires { Keeps image.now × (0 < band) × (sheet_room image.now ≤ length cells.old) × (sheet_scratch image.now ≤ length scratch.old) }
    ensures cells_after { cells.new ≡ picture_cells image.now 0 (height image.now) ++ drop (sheet_room image.now) cells.old }
    ensures scratch_after { scratch.new ≡ replicate (sheet_scratch image.now) 0 ++ drop (sheet_scratch image.now) scratch.old }
{
    let wanted = sheet_room(image);
    let needed = sheet_scratch(image);
    // planes that are not lent
    let mut colours = [0u32; 1];
    let mut stamps = [0u32; 1];
    bands::paint_bands(
        image,
        band,
        Lent::Cells,
        &mut cells[..wanted],
        &mut colours,
        &mut stamps,
        &mut scratch[..needed],
    );
}

// The same with colours and stamps lent too.
fn paint_accepted_coloured(
    image: &[u32],
    band: usize,
    cells: &mut [u32],
    colours: &mut [u32],
    stamps: &mut [u32],
    scratch: &mut [u32],
)
    requires { Keeps image.now × (0 < band) × (sheet_room image.now ≤ length cells.old) × (sheet_room image.now ≤ length colours.old) × (sheet_room image.now ≤ length stamps.old) × (sheet_scratch image.now ≤ length scratch.old) }
    ensures cells_after { cells.new ≡ picture_cells image.now 0 (height image.now) ++ drop (sheet_room image.now) cells.old }
    ensures colours_after { colours.new ≡ picture_colours image.now 0 (height image.now) ++ drop (sheet_room image.now) colours.old }
    ensures stamps_after { stamps.new ≡ replicate (sheet_room image.now) 0 ++ drop (sheet_room image.now) stamps.old }
    ensures scratch_after { scratch.new ≡ replicate (sheet_scratch image.now) 0 ++ drop (sheet_scratch image.now) scratch.old }
{
    let wanted = sheet_room(image);
    let needed = sheet_scratch(image);
    bands::paint_bands(
        image,
        band,
        Lent::All,
        &mut cells[..wanted],
        &mut colours[..wanted],
        &mut stamps[..wanted],
        &mut scratch[..needed],
    );
}

// "a call that checks once and paints all rows with a stated band height"
pub fn paint_sheet(image: &[u32], band: usize, cells: &mut [u32], scratch: &mut [u32]) -> Outcome
    ensures { SheetPainted image.now band cells.old scratch.old result cells.new scratch.new }
{
    let verdict = sheet_verdict(image, band, cells, scratch);
    let Ok(()) = verdict else {
        return paint::outcome_of(verdict);
    };
    paint_accepted(image, band, cells, scratch);
    paint::outcome_of(verdict)
}

// The same with colours and stamps lent too.
pub fn paint_sheet_coloured(
    image: &[u32],
    band: usize,
    cells: &mut [u32],
    colours: &mut [u32],
    stamps: &mut [u32],
    scratch: &mut [u32],
) -> Outcome
    ensures { SheetPaintedColoured image.now band cells.old colours.old stamps.old scratch.old result cells.new colours.new stamps.new scratch.new }
{
    let verdict = sheet_coloured_verdict(image, band, cells, colours, stamps, scratch);
    let Ok(()) = verdict else {
        return paint::outcome_of(verdict);
    };
    paint_accepted_coloured(image, band, cells, colours, stamps, scratch);
    paint::outcome_of(verdict)
}
