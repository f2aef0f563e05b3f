// Pivotdawn as C and Rust link it: the seven calls of `pivotdawn` under their names, with the clauses that they have there. In C a slice is a pointer and a length; `include/pivotdawn.h` declares all seven.
#![tactic(auto)]

ghost use Rattle.std.specs.Prelude.{◌≡◌};
ghost use Rattle.refusals.specs.Rules.{checked};
ghost use Rattle.picture.specs.Painted.{painted, painted_coloured};
ghost use Rattle.paint.specs.Outcome.{outcome_of};
ghost use Rattle.pivotdawn.specs.Told.{told, told_place, TextTold, TextToldColoured, SheetTold, SheetToldColoured};

// `check`: answers the code of an image; its place goes into word 0 of `answer`, its run count into word 1.
#[unsafe(no_mangle)]
pub extern "C" fn pivotdawn_check(image: &[u32], answer: &mut [u64]) -> u32
    ensures value { result ≡ (checked image.now).code }
    ensures answer_after { answer.new ≡ told (checked image.now) answer.old }
{
    pivotdawn::pivotdawn_check(image, answer)
}

// `paint`: answers the code of a plain band; its place goes into word 0 of `answer`.
#[unsafe(no_mangle)]
pub extern "C" fn pivotdawn_paint(
    image: &[u32],
    first: usize,
    rows: usize,
    cells: &mut [u32],
    scratch: &mut [u32],
    answer: &mut [u64],
) -> u32
    ensures value { result ≡ (outcome_of (painted image.now first rows cells.old scratch.old).verdict).code }
    ensures cells_after { cells.new ≡ (painted image.now first rows cells.old scratch.old).cells }
    ensures scratch_after { scratch.new ≡ (painted image.now first rows cells.old scratch.old).scratch }
    ensures answer_after { answer.new ≡ told_place (outcome_of (painted image.now first rows cells.old scratch.old).verdict) answer.old }
{
    pivotdawn::pivotdawn_paint(image, first, rows, cells, scratch, answer)
}

// `paint_coloured`: answers the code of a coloured band; its place goes into word 0 of `answer`.
#[unsafe(no_mangle)]
pub extern "C" fn pivotdawn_paint_coloured(
    image: &[u32],
    first: usize,
    rows: usize,
    cells: &mut [u32],
    colours: &mut [u32],
    stamps: &mut [u32],
    scratch: &mut [u32],
    answer: &mut [u64],
) -> u32
    ensures value { result ≡ (outcome_of (painted_coloured image.now first rows cells.old colours.old stamps.old scratch.old).verdict).code }
    ensures cells_after { cells.new ≡ (painted_coloured image.now first rows cells.old colours.old stamps.old scratch.old).cells }
    ensures colours_after { colours.new ≡ (painted_coloured image.now first rows cells.old colours.old stamps.old scratch.old).colours }
    ensures stamps_after { stamps.new ≡ (painted_coloured image.now first rows cells.old colours.old stamps.old scratch.old).stamps }
    ensures scratch_after { scratch.new ≡ (painted_coloured image.now first rows cells.old colours.old stamps.old scratch.old).scratch }
    ensures answer_after { answer.new ≡ told_place (outcome_of (painted_coloured image.now first rows cells.old colours.old stamps.old scratch.old).verdict) answer.old }
{
    pivotdawn::pivotdawn_paint_coloured(image, first, rows, cells, colours, stamps, scratch, answer)
}

// `paint_text`: answers the code of a band as plain text; its place goes into word 0 of `answer`, how many bytes were written into word 1.
#[unsafe(no_mangle)]
pub extern "C" fn pivotdawn_paint_text(
    image: &[u32],
    first: usize,
    rows: usize,
    cells: &mut [u32],
    scratch: &mut [u32],
    out: &mut [u8],
    answer: &mut [u64],
) -> u32
    ensures { TextTold image.now first rows cells.old scratch.old out.old answer.old result cells.new scratch.new out.new answer.new }
{
    pivotdawn::pivotdawn_paint_text(image, first, rows, cells, scratch, out, answer)
}

// `paint_text_coloured`: answers the code of a band as coloured text; its place goes into word 0 of `answer`, how many bytes were written into word 1.
#[unsafe(no_mangle)]
pub extern "C" fn pivotdawn_paint_text_coloured(
    image: &[u32],
    first: usize,
    rows: usize,
    cells: &mut [u32],
    colours: &mut [u32],
    stamps: &mut [u32],
    scratch: &mut [u32],
    out: &mut [u8],
    answer: &mut [u64],
) -> u32
    ensures { TextToldColoured image.now first rows cells.old colours.old stamps.old scratch.old out.old answer.old result cells.new colours.new stamps.new scratch.new out.new answer.new }
{
    pivotdawn::pivotdawn_paint_text_coloured(
        image, first, rows, cells, colours, stamps, scratch, out, answer,
    )
}

// `paint_sheet`: answers the code of a whole plain sheet; its place goes into word 0 of `answer`.
#[unsafe(no_mangle)]
pub extern "C" fn pivotdawn_paint_sheet(
    image: &[u32],
    band: usize,
    cells: &mut [u32],
    scratch: &mut [u32],
    answer: &mut [u64],
) -> u32
    ensures { SheetTold image.now band cells.old scratch.old answer.old result cells.new scratch.new answer.new }
{
    pivotdawn::pivotdawn_paint_sheet(image, band, cells, scratch, answer)
}

// `paint_sheet_coloured`: answers the code of a whole coloured sheet; its place goes into word 0 of `answer`.
#[unsafe(no_mangle)]
pub extern "C" fn pivotdawn_paint_sheet_coloured(
    image: &[u32],
    band: usize,
    cells: &mut [u32],
    colours: &mut [u32],
    stamps: &mut [u32],
    scratch: &mut [u32],
    answer: &mut [u64],
) -> u32
    ensures { SheetToldColoured image.now band cells.old colours.old stamps.old scratch.old answer.old result cells.new colours.new stamps.new scratch.new answer.new }
{
    pivotdawn::pivotdawn_paint_sheet_coloured(image, band, cells, colours, stamps, scratch, answer)
}
