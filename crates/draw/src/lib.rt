// A piece of an edge, drawn in a window of rows: a line, one stroke or arrow, or a run, which is kept in the scratch. Each kind has a function of its own, small
// enough for the compiler to put it where the piece is made, so that the piece need not lie in memory.
#![tactic(auto)]

ghost use Rattle.std.specs.Prelude.{◌≡◌, [], ◌∷◌, ◌+◌, ◌≤◌};
ghost use Rattle.window.specs.Writes.{stamp_tint};
ghost use Rattle.window.specs.Window.{canvas_of, Ready};
ghost use Rattle.runs.specs.Kept.{run_room, Kept, runs_within};
ghost use Rattle.draw.specs.Drawn.{pieces_runs, Inked, LinePiece, CellPiece, RunPiece};

use cell::{Arms, MarkerKind, Weight};
use flow::Piece;
use rows::Window;
use runs::Run;
use window::{Lent, Tint};

// With what an edge is drawn, and where: no more of an edge than its ink depends on. The window stands first: behind a byte, copies of it would begin at an odd
// place, and wait for what was stored before.
#[derive(Clone, Copy)]
pub struct Pen {
    // the rows that are painted
    pub window: Window,
    // the edge's number: its index and 1
    pub number: u32,
    // the edge's colour
    pub colour: u32,
    // the weight of its strokes
    pub weight: Weight,
    // whether its arrows are dashed: "Reversed .. makes arrows dashed"
    pub dashed: bool,
    // which planes are lent
    pub lent: Lent,
}

// "Strokes and markers of an edge write its colour and stamp its index + 1"
fn tint_of(pen: Pen) -> Tint
    ensures { result ≡ stamp_tint pen.colour pen.number }
{
    Tint {
        colour: Some(pen.colour),
        stamp: Some(pen.number),
    }
}

// "Runs wait": a run on a row of the window is kept. Answers how many are kept now.
pub fn keep_piece(scratch: &mut [u32], pen: Pen, kept: usize, piece: Piece) -> usize
    requires { RunPiece piece × (kept ≤ run_room scratch.old) × (pen.window.first + pen.window.rows ≤ 0xFFFFFFFF) }
    ensures { Kept scratch.old kept (runs_within pen.window (pieces_runs pen (piece ∷ []))) scratch.new result }
{
    let Piece::Run { row, first, last } = piece else {
        return kept;
    };
    let window = pen.window;
    if window.has(row) {
        let run = Run {
            row: row as u32,
            first: first as u32,
            last: last as u32,
            weight: u32::from(pen.weight),
            number: pen.number,
            colour: pen.colour,
        };
        return runs::keep_run(scratch, kept, run);
    }
    kept
}

// A line.
pub fn draw_line(
    cells: &mut [u32],
    colours: &mut [u32],
    stamps: &mut [u32],
    ranges: &[u32],
    pen: Pen,
    piece: Piece,
)
    requires { LinePiece piece × Ready pen.lent pen.window cells.old colours.old stamps.old }
    ensures { Inked pen ranges.now (piece ∷ []) (canvas_of pen.lent cells.old colours.old stamps.old) (canvas_of pen.lent cells.new colours.new stamps.new) }
{
    let lent = pen.lent;
    let v = pen.window;
    let weight = pen.weight;
    let dashed = pen.dashed;
    match piece {
        Piece::Vertical(line) => {
            let tint = tint_of(pen);
            let arms = Arms::vertical(weight);
            lines::vertical(
                cells, colours, stamps, lent, ranges, v, line, arms, dashed, tint,
            );
        }
        Piece::Horizontal(line) => {
            let tint = tint_of(pen);
            let arms = Arms::horizontal(weight);
            lines::horizontal(
                cells, colours, stamps, lent, ranges, v, line, arms, dashed, tint,
            );
        }
        _ => {}
    }
}

// One stroke, or one arrow.
pub fn draw_cell(
    cells: &mut [u32],
    colours: &mut [u32],
    stamps: &mut [u32],
    ranges: &[u32],
    pen: Pen,
    piece: Piece,
)
    requires { CellPiece piece × Ready pen.lent pen.window cells.old colours.old stamps.old }
    ensures { Inked pen ranges.now (piece ∷ []) (canvas_of pen.lent cells.old colours.old stamps.old) (canvas_of pen.lent cells.new colours.new stamps.new) }
{
    let lent = pen.lent;
    let v = pen.window;
    let dashed = pen.dashed;
    match piece {
        Piece::Stroke { x, y, arms } => {
            let tint = tint_of(pen);
            window::stroke_at(cells, colours, stamps, lent, ranges, v, x, y, arms, tint);
        }
        Piece::Mark { x, y, dir } => {
            let tint = tint_of(pen);
            window::marker_at(
                cells,
                colours,
                stamps,
                lent,
                ranges,
                v,
                x,
                y,
                MarkerKind::Arrow,
                dir,
                dashed,
                tint,
            );
        }
        _ => {}
    }
}
