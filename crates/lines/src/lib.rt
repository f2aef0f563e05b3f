// Lines with at most two arrows, down a column and along a row of a window. A line is clipped to the window before its loop, so that what lies outside costs
// nothing.
#![tactic(auto)]

ghost use Rattle.std.specs.Prelude.{◌≡◌, ◌-◌, ◌≤◌};
ghost use Rattle.window.specs.Writes.{tinted, ink_on, paint_on};
ghost use Rattle.window.specs.Window.{on_row, ink_window, plane_of, canvas_of, Ready};
ghost use Rattle.window.specs.Computed.{on_rows};
ghost use Rattle.lines.specs.Lines.{down_spots, across_spots};
ghost use Rattle.lines.specs.Computed.{ink_at, ink_along};

use cell::Arms;
use flow::{Head, Line};
use rows::Window;
use window::{Lent, Tint, fill};

mod cells;

// A line down a column, in the rows from low to below high that the window has.
fn vertical_rows(
    cells: &mut [u32],
    colours: &mut [u32],
    stamps: &mut [u32],
    lent: Lent,
    ranges: &[u32],
    v: Window,
    x: usize,
    low: usize,
    high: usize,
    winner: Option<Head>,
    other: Option<Head>,
    arms: Arms,
    dashed: bool,
    tint: Tint,
)
    requires { Ready lent v cells.old colours.old stamps.old }
    ensures cells_after { cells.new ≡ on_rows v low high (λ y. ink_on ranges.now x (ink_at arms dashed winner other y)) cells.old }
    ensures colours_after { plane_of lent colours.new ≡ on_rows v low high (λ y. paint_on tint.colour x 1) (plane_of lent colours.old) }
    ensures stamps_after { plane_of lent stamps.new ≡ on_rows v low high (λ y. paint_on tint.stamp x 1) (plane_of lent stamps.old) }
{
    cells::down(cells, ranges, v, x, low, high, arms, dashed, winner, other);
    fill::tint_down(colours, stamps, lent, v, x, low, high, tint);
}

// "'Between' excludes both ends": the cell after the lesser end is the first, where there is one. A line that has no row in the
// window is left out before anything is called.
pub fn vertical(
    cells: &mut [u32],
    colours: &mut [u32],
    stamps: &mut [u32],
    lent: Lent,
    ranges: &[u32],
    v: Window,
    line: Line,
    arms: Arms,
    dashed: bool,
    tint: Tint,
)
    requires { Ready lent v cells.old colours.old stamps.old }
    ensures { canvas_of lent cells.new colours.new stamps.new ≡ ink_window v ranges.now (tinted tint (down_spots dashed line arms)) (canvas_of lent cells.old colours.old stamps.old) }
{
    let x = line.lane;
    let from = line.from;
    let to = line.to;
    let winner = line.winner;
    let other = line.other;
    let first = v.first;
    let end = first + v.rows;
    let before = ground::min(from, to);
    let high = ground::max(from, to);
    if first < high {
        if 1 < high - before {
            let low = before + 1;
            if low < end {
                vertical_rows(
                    cells, colours, stamps, lent, ranges, v, x, low, high, winner, other, arms,
                    dashed, tint,
                );
            }
        }
    }
}

// A line along a row, in the columns from low to below high.
fn horizontal_row(
    cells: &mut [u32],
    colours: &mut [u32],
    stamps: &mut [u32],
    lent: Lent,
    ranges: &[u32],
    v: Window,
    y: usize,
    low: usize,
    high: usize,
    winner: Option<Head>,
    other: Option<Head>,
    arms: Arms,
    dashed: bool,
    tint: Tint,
)
    requires { Ready lent v cells.old colours.old stamps.old × (low ≤ high) }
    ensures cells_after { cells.new ≡ on_row v y (ink_along ranges.now arms dashed winner other low high) cells.old }
    ensures colours_after { plane_of lent colours.new ≡ on_row v y (paint_on tint.colour low (high - low)) (plane_of lent colours.old) }
    ensures stamps_after { plane_of lent stamps.new ≡ on_row v y (paint_on tint.stamp low (high - low)) (plane_of lent stamps.old) }
{
    cells::along(cells, ranges, v, y, low, high, arms, dashed, winner, other);
    fill::tint_row(colours, stamps, lent, v, y, low, high - low, tint);
}

pub fn horizontal(
    cells: &mut [u32],
    colours: &mut [u32],
    stamps: &mut [u32],
    lent: Lent,
    ranges: &[u32],
    v: Window,
    line: Line,
    arms: Arms,
    dashed: bool,
    tint: Tint,
)
    requires { Ready lent v cells.old colours.old stamps.old }
    ensures { canvas_of lent cells.new colours.new stamps.new ≡ ink_window v ranges.now (tinted tint (across_spots dashed line arms)) (canvas_of lent cells.old colours.old stamps.old) }
{
    let y = line.lane;
    let from = line.from;
    let to = line.to;
    let winner = line.winner;
    let other = line.other;
    let before = ground::min(from, to);
    let high = ground::max(from, to);
    if v.has(y) {
        if 1 < high - before {
            let low = before + 1;
            horizontal_row(
                cells, colours, stamps, lent, ranges, v, y, low, high, winner, other, arms, dashed,
                tint,
            );
        }
    }
}
