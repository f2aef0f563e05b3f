// The seven public calls of Pivotdawn with numbers and slices alone, as C and Rust call them: `pivotdawn_c` exports each of them.
#![tactic(auto)]

ghost use Rattle.std.specs.Prelude.{◌≡◌, set};
ghost use Rattle.refusals.specs.Rules.{checked};
ghost use Rattle.picture.specs.Painted.{painted, painted_coloured};
ghost use Rattle.paint.specs.Outcome.{outcome_of};
ghost use Rattle.pivotdawn.specs.Told.{told, told_place, TextTold, TextToldColoured, SheetTold, SheetToldColoured};

// Stores a number at a place, where there is one.
fn store(words: &mut [u64], place: usize, value: usize)
    ensures { words.new ≡ set words.old place value }
{
    if place < words.len() {
        words[place] = value as u64;
    }
}

// `check`: answers the code of an image; its place goes into word 0 of `answer`, its run count into word 1.
pub fn pivotdawn_check(image: &[u32], answer: &mut [u64]) -> u32
    ensures value { result ≡ (checked image.now).code }
    ensures answer_after { answer.new ≡ told (checked image.now) answer.old }
{
    let found = refusals::check(image);
    store(answer, 0, found.place);
    store(answer, 1, found.runs);
    found.code
}

// `paint`: answers the code of a plain band; its place goes into word 0 of `answer`.
pub fn pivotdawn_paint(
    image: &[u32],
    first: usize,
    rows: usize,
    cells: &mut [u32],
    scratch: &mut [u32],
    answer: &mut [u64],
) -> u32
    ensures value { result ≡ (outcome_of (painted image.now first rows cells.old scratch.old).verdict).code }
    ensures cells_after { cells.new ≡ (painted image.now first rows cells.old scratch.old).cells }
    ensures scratch_after { scratch.new ≡ (painted image.now first rows cells.old scratch.old).scratch }
    ensures answer_after { answer.new ≡ told_place (outcome_of (painted image.now first rows cells.old scratch.old).verdict) answer.old }
{
    let plain = paint::paint(image, first, rows, cells, scratch);
    store(answer, 0, plain.place);
    plain.code
}

// `paint_coloured`: answers the code of a coloured band; its place goes into word 0 of `answer`.
pub fn pivotdawn_paint_coloured(
    image: &[u32],
    first: usize,
    rows: usize,
    cells: &mut [u32],
    colours: &mut [u32],
    stamps: &mut [u32],
    scratch: &mut [u32],
    answer: &mut [u64],
) -> u32
    ensures value { result ≡ (outcome_of (painted_coloured image.now first rows cells.old colours.old stamps.old scratch.old).verdict).code }
    ensures cells_after { cells.new ≡ (painted_coloured image.now first rows cells.old colours.old stamps.old scratch.old).cells }
    ensures colours_after { colours.new ≡ (painted_coloured image.now first rows cells.old colours.old stamps.old scratch.old).colours }
    ensures stamps_after { stamps.new ≡ (painted_coloured image.now first rows cells.old colours.old stamps.old scratch.old).stamps }
    ensures scratch_after { scratch.new ≡ (painted_coloured image.now first rows cells.old colours.old stamps.old scratch.old).scratch }
    ensures answer_after { answer.new ≡ told_place (outcome_of (painted_coloured image.now first rows cells.old colours.old stamps.old scratch.old).verdict) answer.old }
{
    let coloured = paint::paint_coloured(image, first, rows, cells, colours, stamps, scratch);
    store(answer, 0, coloured.place);
    coloured.code
}

// `paint_text`: answers the code of a band as plain text; its place goes into word 0 of `answer`, how many bytes were written into word 1.
pub fn pivotdawn_paint_text(
    image: &[u32],
    first: usize,
    rows: usize,
    cells: &mut [u32],
    scratch: &mut [u32],
    out: &mut [u8],
    answer: &mut [u64],
) -> u32
    ensures { TextTold image.now first rows cells.old scratch.old out.old answer.old result cells.new scratch.new out.new answer.new }
{
    let text = painttext::paint_text(image, first, rows, cells, scratch, out);
    store(answer, 0, text.place);
    store(answer, 1, text.bytes);
    text.code
}

// `paint_text_coloured`: answers the code of a band as coloured text; its place goes into word 0 of `answer`, how many bytes were written into word 1.
pub fn pivotdawn_paint_text_coloured(
    image: &[u32],
    first: usize,
    rows: usize,
    cells: &mut [u32],
    colours: &mut [u32],
    stamps: &mut [u32],
    scratch: &mut [u32],
    out: &mut [u8],
    answer: &mut [u64],
) -> u32
    ensures { TextToldColoured image.now first rows cells.old colours.old stamps.old scratch.old out.old answer.old result cells.new colours.new stamps.new scratch.new out.new answer.new }
{
    let coloured_text = painttext::paint_text_coloured(
        image, first, rows, cells, colours, stamps, scratch, out,
    );
    store(answer, 0, coloured_text.place);
    store(answer, 1, coloured_text.bytes);
    coloured_text.code
}

// `paint_sheet`: answers the code of a whole plain sheet; its place goes into word 0 of `answer`.
pub fn pivotdawn_paint_sheet(
    image: &[u32],
    band: usize,
    cells: &mut [u32],
    scratch: &mut [u32],
    answer: &mut [u64],
) -> u32
    ensures { SheetTold image.now band cells.old scratch.old answer.old result cells.new scratch.new answer.new }
{
    let sheet = paintsheet::paint_sheet(image, band, cells, scratch);
    store(answer, 0, sheet.place);
    sheet.code
}

// `paint_sheet_coloured`: answers the code of a whole coloured sheet; its place goes into word 0 of `answer`.
pub fn pivotdawn_paint_sheet_coloured(
    image: &[u32],
    band: usize,
    cells: &mut [u32],
    colours: &mut [u32],
    stamps: &mut [u32],
    scratch: &mut [u32],
    answer: &mut [u64],
) -> u32
    ensures { SheetToldColoured image.now band cells.old colours.old stamps.old scratch.old answer.old result cells.new colours.new stamps.new scratch.new answer.new }
{
    let in_colour = paintsheet::paint_sheet_coloured(image, band, cells, colours, stamps, scratch);
    store(answer, 0, in_colour.place);
    in_colour.code
}
