// What the pieces of a Y flow reach in a window of rows. Their arms and arrows do not matter for it, so that numbers are enough.
#![tactic(auto)]

ghost use Rattle.std.specs.Prelude.{◌≡◌, ◌+◌, ◌≤◌, ◌<◌};
ghost use Rattle.y_flow.specs.YFlow.{direct_y, corner_y, side_y, leg_y};
ghost use Rattle.y_reach.specs.Reach.{trunk_rows, crossing_reach, bent_reach, channel_reach};
ghost use Rattle.flow.specs.Bounds.{bound, SmallLeg};
ghost use Rattle.flow.specs.Reach.{join_reach, piece_reach, with_rows, reach_of};

use flow::{Leg, Reach};
use image::Edge;
use rows::Window;

// What is reached with a trunk, where there is one.
fn trunk_reach(reach: Reach, window: Window, has_trunk: bool, y1: usize, bend: usize) -> Reach
    ensures { (result ≡ with_rows reach (trunk_rows window has_trunk y1 bend)) × (result.runs ≡ reach.runs) }
{
    if has_trunk {
        touch::with_vertical(reach, window, y1, bend)
    } else {
        reach
    }
}

// What is reached with a crossing: its row, and its run.
fn crossing_reach(reach: Reach, window: Window, row: usize, x1: usize, x2: usize) -> Reach
    requires { (x1 < bound) × (x2 < bound) × (reach.runs < 0x4000000000000000) }
    ensures { (result ≡ join_reach reach (crossing_reach window row x1 x2)) × (result.runs ≤ reach.runs + 1) }
{
    let crossed = touch::with_row_if(reach, window, x1 != x2, row);
    let rows = crossed.rows;
    Reach {
        rows: rows,
        runs: reach.runs + touch::piece_runs(window, y_flow::cross_run(row, x1, x2)),
    }
}

// What is reached with a way that bends once.
fn bent_reach(
    reach: Reach,
    window: Window,
    has_trunk: bool,
    strokes_start: bool,
    bend: usize,
    x1: usize,
    y1: usize,
    x2: usize,
    y2: usize,
) -> Reach
    requires { (x1 < bound) × (x2 < bound) × (reach.runs < 0x4000000000000000) }
    ensures { (result ≡ bent_reach reach window has_trunk strokes_start bend x1 y1 x2 y2) × (result.runs ≤ reach.runs + 1) }
{
    let trunk = trunk_reach(reach, window, has_trunk, y1, bend);
    let start = touch::with_row_if(trunk, window, strokes_start, y1);
    let crossed = crossing_reach(start, window, bend, x1, x2);
    touch::with_vertical(crossed, window, bend, y2)
}

// What is reached with a Direct edge or a Spline.
pub fn direct_reach(reach: Reach, window: Window, e: Edge) -> Reach
    ensures { (result ≡ join_reach reach (piece_reach window (direct_y e))) × (result.runs ≡ reach.runs) }
{
    let from = ground::number(e.from_y);
    let to = ground::number(e.to_y);
    touch::with_vertical(reach, window, from, to)
}

// What is reached with a Corner.
pub fn corner_reach(reach: Reach, window: Window, e: Edge, bend: u32) -> Reach
    requires { reach.runs < 0x4000000000000000 }
    ensures { (result ≡ join_reach reach (reach_of window (corner_y e bend))) × (result.runs ≤ reach.runs + 1) }
{
    let row = ground::number(bend);
    let x1 = ground::number(e.from_x);
    let y1 = ground::number(e.from_y);
    let x2 = ground::number(e.to_x);
    let y2 = ground::number(e.to_y);
    // it has a trunk and strokes no start, so that neither is asked
    let trunk = touch::with_vertical(reach, window, y1, row);
    let crossed = crossing_reach(trunk, window, row, x1, x2);
    touch::with_vertical(crossed, window, row, y2)
}

// What is reached with two crossings, the channel between them, and a tail.
fn channel_reach(
    reach: Reach,
    window: Window,
    channel: usize,
    start: usize,
    end: usize,
    x1: usize,
    x2: usize,
    y2: usize,
) -> Reach
    requires { (channel < bound) × (x1 < bound) × (x2 < bound) × (reach.runs < 0x2000000000000000) }
    ensures { (result ≡ channel_reach reach window channel start end x1 x2 y2) × (result.runs ≤ reach.runs + 2) }
{
    let out = crossing_reach(reach, window, start, x1, channel);
    let side = touch::with_vertical(out, window, start, end);
    let back = crossing_reach(side, window, end, channel, x2);
    touch::with_vertical(back, window, end, y2)
}

// What is reached with a SideChannel.
pub fn side_reach(
    reach: Reach,
    window: Window,
    e: Edge,
    channel: u32,
    start: u32,
    end: u32,
) -> Reach
    requires { reach.runs < 0x2000000000000000 }
    ensures { (result ≡ join_reach reach (reach_of window (side_y e channel start end))) × (result.runs ≤ reach.runs + 2) }
{
    let column = ground::number(channel);
    let first = ground::number(start);
    let last = ground::number(end);
    let x1 = ground::number(e.from_x);
    let x2 = ground::number(e.to_x);
    let y2 = ground::number(e.to_y);
    channel_reach(reach, window, column, first, last, x1, x2, y2)
}

// What is reached with a leg of a MultiSegment.
pub fn leg_reach(reach: Reach, window: Window, e: Edge, offset: u32, leg: Leg) -> Reach
    requires { SmallLeg leg × (reach.runs < 0x4000000000000000) }
    ensures { (result ≡ join_reach reach (reach_of window (leg_y e offset leg))) × (result.runs ≤ reach.runs + 1) }
{
    let first = leg.first;
    if leg.x1 == leg.x2 {
        let start = touch::with_row_if(reach, window, !first, leg.y1);
        return touch::with_vertical(start, window, leg.y1, leg.y2);
    }
    let corner = y_flow::corner_row(e, offset, leg);
    let Some(bend) = corner else {
        return reach;
    };
    let has_trunk = flow::and(first, 0 < offset);
    bent_reach(
        reach, window, has_trunk, !first, bend, leg.x1, leg.y1, leg.x2, leg.y2,
    )
}
