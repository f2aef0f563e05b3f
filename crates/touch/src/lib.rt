// What is reached in a window of rows with a row or a line more, and the runs that a piece makes there.
#![tactic(auto)]

ghost use Rattle.std.specs.Prelude.{◌≡◌, ◌≤◌};
ghost use Rattle.flow.specs.Pieces.{piece_runs_in};
ghost use Rattle.flow.specs.Reach.{row_if, vertical_rows, horizontal_rows, no_reach, with_rows};

use flow::{Piece, Reach};
use rows::{Rows, Window};

// The rows strictly between two rows.
pub fn vertical_rows(window: Window, from: usize, to: usize) -> Option<Rows>
    ensures { result ≡ vertical_rows window from to }
{
    let low = ground::min(from, to);
    let high = ground::max(from, to);
    if high - low < 2 {
        return None;
    }
    window.clip(low + 1, high - 1)
}

// A row, if a column lies strictly between two.
pub fn horizontal_rows(window: Window, row: usize, from: usize, to: usize) -> Option<Rows>
    ensures { result ≡ horizontal_rows window row from to }
{
    let low = ground::min(from, to);
    let high = ground::max(from, to);
    if high - low < 2 {
        return None;
    }
    window.clip(row, row)
}

// How many runs a piece makes on rows of the window: one, or none.
pub fn piece_runs(window: Window, piece: Piece) -> usize
    ensures { (result ≡ piece_runs_in window piece) × (result ≤ 1) }
{
    let Piece::Run { row, first, last } = piece else {
        return 0;
    };
    if window.has(row) { 1 } else { 0 }
}

pub fn no_reach() -> Reach
    ensures { result ≡ no_reach }
{
    Reach {
        rows: None,
        runs: 0,
    }
}

// What is reached with rows more.
pub fn with_rows(reach: Reach, more: Option<Rows>) -> Reach
    ensures { (result ≡ with_rows reach more) × (result.runs ≡ reach.runs) }
{
    Reach {
        rows: rows::join(reach.rows, more),
        runs: reach.runs,
    }
}

// With a row more, where it is touched.
pub fn with_row_if(reach: Reach, window: Window, touched: bool, row: usize) -> Reach
    ensures { (result ≡ with_rows reach (row_if window touched row)) × (result.runs ≡ reach.runs) }
{
    if touched {
        with_rows(reach, window.clip(row, row))
    } else {
        reach
    }
}

// With the rows more that lie strictly between two rows.
pub fn with_vertical(reach: Reach, window: Window, from: usize, to: usize) -> Reach
    ensures { (result ≡ with_rows reach (vertical_rows window from to)) × (result.runs ≡ reach.runs) }
{
    with_rows(reach, vertical_rows(window, from, to))
}

// With a row more, if a column lies strictly between two.
pub fn with_horizontal(reach: Reach, window: Window, row: usize, from: usize, to: usize) -> Reach
    ensures { (result ≡ with_rows reach (horizontal_rows window row from to)) × (result.runs ≡ reach.runs) }
{
    with_rows(reach, horizontal_rows(window, row, from, to))
}
