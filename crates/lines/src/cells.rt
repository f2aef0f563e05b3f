// The cells of a line: most are strokes, which go on packed words.
ghost use Rattle.std.specs.Prelude.{◌≡◌, ◌+◌, ◌-◌, ◌≤◌, length};
ghost use Rattle.ground.specs.Turns.{turns};
ghost use Rattle.cell.specs.OneCell.{pack, read_arms};
ghost use Rattle.cell.specs.declared.Parts.TheVariants as parts;
ghost use Rattle.rows.specs.Spots.{stroke};
ghost use Rattle.window.specs.Writes.{ink_on};
ghost use Rattle.window.specs.Window.{on_part, on_row, Room};
ghost use Rattle.window.specs.Computed.{on_rows};
ghost use Rattle.lines.specs.Computed.{head_here, head_dir, free_of, ink_at, ink_along};

use canvas::{packed, row};
use cell::{Arms, Dir, MarkerKind};
use flow::Head;
use rows::Window;

fn head_here(head: Option<Head>, k: usize) -> bool
    ensures { result ≡ head_here head k }
{
    match head {
        None => false,
        Some(h) => h.place == k,
    }
}

fn head_dir(head: Option<Head>) -> Dir
    ensures { result ≡ head_dir head }
{
    match head {
        None => Dir::Up,
        Some(h) => h.dir,
    }
}

// Whether no arrow stands at a place from low to below high.
fn free_of(head: Option<Head>, low: usize, high: usize) -> bool
    ensures { result ≡ free_of head low high }
{
    match head {
        None => true,
        Some(h) => h.place < low || high <= h.place,
    }
}

// What a line has at its place k, in column x of a row. The word is the stroke, packed.
fn cell(
    row: &mut [u32],
    ranges: &[u32],
    x: usize,
    k: usize,
    word: u32,
    dashed: bool,
    winner: Option<Head>,
    other: Option<Head>,
)
    requires { word ≡ pack (parts.Stroke (read_arms word)) }
    ensures { row.new ≡ ink_on ranges.now x (ink_at (read_arms word) dashed winner other k) row.old }
{
    if head_here(winner, k) {
        row::marker(row, ranges, x, MarkerKind::Arrow, head_dir(winner), dashed);
        return;
    }
    if head_here(other, k) {
        row::marker(row, ranges, x, MarkerKind::Arrow, head_dir(other), dashed);
        return;
    }
    packed::stroke(row, ranges, x, word);
}

fn cell_part(
    cells: &mut [u32],
    ranges: &[u32],
    start: usize,
    width: usize,
    x: usize,
    k: usize,
    word: u32,
    dashed: bool,
    winner: Option<Head>,
    other: Option<Head>,
)
    requires { (start + width ≤ length cells.old) × (word ≡ pack (parts.Stroke (read_arms word))) }
    ensures { cells.new ≡ on_part start width (ink_on ranges.now x (ink_at (read_arms word) dashed winner other k)) cells.old }
{
    let end = start + width;
    cell(
        &mut cells[start..end],
        ranges,
        x,
        k,
        word,
        dashed,
        winner,
        other,
    );
}

fn stroke_part(cells: &mut [u32], ranges: &[u32], start: usize, width: usize, x: usize, word: u32)
    requires { (start + width ≤ length cells.old) × (word ≡ pack (parts.Stroke (read_arms word))) }
    ensures { cells.new ≡ on_part start width (ink_on ranges.now x (stroke (read_arms word))) cells.old }
{
    let end = start + width;
    packed::stroke(&mut cells[start..end], ranges, x, word);
}

// Down a column, in rows of the window on which no arrow lies.
fn strokes_down(
    cells: &mut [u32],
    ranges: &[u32],
    v: Window,
    x: usize,
    from: usize,
    end: usize,
    word: u32,
)
    requires { Room v cells.old × (v.first ≤ from) × (end ≤ v.first + v.rows) × (word ≡ pack (parts.Stroke (read_arms word))) }
    ensures { cells.new ≡ on_rows v from end (λ y. ink_on ranges.now x (stroke (read_arms word))) cells.old }
{
    let width = v.width;
    let first = v.first;
    let rows = v.rows;
    for y in from..end {
        let start = window::row_start(y - first, width, rows);
        stroke_part(cells, ranges, start, width, x, word);
    }
}

// Down a column, in rows of the window.
fn arrows_down(
    cells: &mut [u32],
    ranges: &[u32],
    v: Window,
    x: usize,
    from: usize,
    end: usize,
    word: u32,
    dashed: bool,
    winner: Option<Head>,
    other: Option<Head>,
)
    requires { Room v cells.old × (v.first ≤ from) × (end ≤ v.first + v.rows) × (word ≡ pack (parts.Stroke (read_arms word))) }
    ensures { cells.new ≡ on_rows v from end (λ y. ink_on ranges.now x (ink_at (read_arms word) dashed winner other y)) cells.old }
{
    let width = v.width;
    let first = v.first;
    let rows = v.rows;
    for y in from..end {
        let start = window::row_start(y - first, width, rows);
        cell_part(
            cells, ranges, start, width, x, y, word, dashed, winner, other,
        );
    }
}

// Down a column, in the rows from low to below high that the window has. Where no arrow lies there, the loop asks for none.
pub fn down(
    cells: &mut [u32],
    ranges: &[u32],
    v: Window,
    x: usize,
    low: usize,
    high: usize,
    arms: Arms,
    dashed: bool,
    winner: Option<Head>,
    other: Option<Head>,
)
    requires { Room v cells.old × (v.first + v.rows ≤ 0xFFFFFFFF) }
    ensures { cells.new ≡ on_rows v low high (λ y. ink_on ranges.now x (ink_at arms dashed winner other y)) cells.old }
{
    let first = v.first;
    let rows = v.rows;
    let word = packed::stroke_word(arms);
    let end = ground::min(high, first + rows);
    let from = ground::max(low, first);
    if free_of(winner, from, end) {
        if free_of(other, from, end) {
            strokes_down(cells, ranges, v, x, from, end, word);
            return;
        }
    }
    arrows_down(cells, ranges, v, x, from, end, word, dashed, winner, other);
}

// Along a row, in columns of it on which no arrow lies.
fn strokes_along(row: &mut [u32], ranges: &[u32], low: usize, end: usize, word: u32)
    requires { word ≡ pack (parts.Stroke (read_arms word)) }
    ensures { row.new ≡ turns (λ x. ink_on ranges.now x (stroke (read_arms word))) low (end - low) row.old }
{
    for x in low..end {
        packed::stroke(row, ranges, x, word);
    }
}

// Along a row, in columns of it.
fn arrows_along(
    row: &mut [u32],
    ranges: &[u32],
    low: usize,
    end: usize,
    word: u32,
    dashed: bool,
    winner: Option<Head>,
    other: Option<Head>,
)
    requires { word ≡ pack (parts.Stroke (read_arms word)) }
    ensures { row.new ≡ ink_along ranges.now (read_arms word) dashed winner other low end row.old }
{
    for x in low..end {
        cell(row, ranges, x, x, word, dashed, winner, other);
    }
}

// Along a row, in the columns from low to below high that it has.
fn along_row(
    row: &mut [u32],
    ranges: &[u32],
    low: usize,
    high: usize,
    arms: Arms,
    dashed: bool,
    winner: Option<Head>,
    other: Option<Head>,
)
    ensures { row.new ≡ ink_along ranges.now arms dashed winner other low high row.old }
{
    let word = packed::stroke_word(arms);
    let end = ground::min(high, row.len());
    if free_of(winner, low, end) {
        if free_of(other, low, end) {
            strokes_along(row, ranges, low, end, word);
            return;
        }
    }
    arrows_along(row, ranges, low, end, word, dashed, winner, other);
}

fn along_part(
    cells: &mut [u32],
    ranges: &[u32],
    start: usize,
    width: usize,
    low: usize,
    high: usize,
    arms: Arms,
    dashed: bool,
    winner: Option<Head>,
    other: Option<Head>,
)
    requires { start + width ≤ length cells.old }
    ensures { cells.new ≡ on_part start width (ink_along ranges.now arms dashed winner other low high) cells.old }
{
    let end = start + width;
    along_row(
        &mut cells[start..end],
        ranges,
        low,
        high,
        arms,
        dashed,
        winner,
        other,
    );
}

// Along a row of the sheet, where the window has it.
pub fn along(
    cells: &mut [u32],
    ranges: &[u32],
    v: Window,
    y: usize,
    low: usize,
    high: usize,
    arms: Arms,
    dashed: bool,
    winner: Option<Head>,
    other: Option<Head>,
)
    requires { Room v cells.old }
    ensures { cells.new ≡ on_row v y (ink_along ranges.now arms dashed winner other low high) cells.old }
{
    if v.has(y) {
        let width = v.width;
        let start = window::row_at(v, y);
        along_part(
            cells, ranges, start, width, low, high, arms, dashed, winner, other,
        );
    }
}
