// What the pieces of an X flow reach in a window of rows. Their arms and arrows do not matter for it, so that numbers are enough. They make no run. Written out and no mirror of Y, as D44 of docs/DECISIONS.md has it.
#![tactic(auto)]

ghost use Rattle.std.specs.Prelude.{◌≡◌, ◌<◌};
ghost use Rattle.x_flow.specs.XFlow.{direct_x, corner_x, side_x, leg_x};
ghost use Rattle.x_reach.specs.Reach.{trunk_rows, crossing_rows, bent_reach, channel_reach};
ghost use Rattle.flow.specs.Bounds.{SmallLeg};
ghost use Rattle.flow.specs.Reach.{join_reach, piece_reach, with_rows, reach_of};

use flow::{Leg, Reach};
use image::Edge;
use rows::Window;

// What is reached with a trunk, where there is one.
fn trunk_reach(
    reach: Reach,
    window: Window,
    has_trunk: bool,
    y1: usize,
    x1: usize,
    bend: usize,
) -> Reach
    ensures { (result ≡ with_rows reach (trunk_rows window has_trunk y1 x1 bend)) × (result.runs ≡ reach.runs) }
{
    if has_trunk {
        touch::with_horizontal(reach, window, y1, x1, bend)
    } else {
        reach
    }
}

// What is reached with a crossing: the rows from one to the other, and none if they are equal.
fn crossing_reach(reach: Reach, window: Window, y1: usize, y2: usize) -> Reach
    ensures { (result ≡ with_rows reach (crossing_rows window y1 y2)) × (result.runs ≡ reach.runs) }
{
    if y1 == y2 {
        return reach;
    }
    touch::with_rows(reach, window.clip(ground::min(y1, y2), ground::max(y1, y2)))
}

// What is reached with a way that bends once.
fn bent_reach(
    reach: Reach,
    window: Window,
    has_trunk: bool,
    strokes_start: bool,
    bend: usize,
    x1: usize,
    y1: usize,
    x2: usize,
    y2: usize,
) -> Reach
    ensures { (result ≡ bent_reach reach window has_trunk strokes_start bend x1 y1 x2 y2) × (result.runs ≡ reach.runs) }
{
    let trunk = trunk_reach(reach, window, has_trunk, y1, x1, bend);
    let start = touch::with_row_if(trunk, window, strokes_start, y1);
    let crossed = crossing_reach(start, window, y1, y2);
    touch::with_horizontal(crossed, window, y2, bend, x2)
}

// What is reached with a Direct edge or a Spline.
pub fn direct_reach(reach: Reach, window: Window, e: Edge) -> Reach
    ensures { (result ≡ join_reach reach (piece_reach window (direct_x e))) × (result.runs ≡ reach.runs) }
{
    let row = ground::number(e.from_y);
    let from = ground::number(e.from_x);
    let to = ground::number(e.to_x);
    touch::with_horizontal(reach, window, row, from, to)
}

// What is reached with a Corner.
pub fn corner_reach(reach: Reach, window: Window, e: Edge, bend: u32) -> Reach
    ensures { (result ≡ join_reach reach (reach_of window (corner_x e bend))) × (result.runs ≡ reach.runs) }
{
    let column = ground::number(bend);
    let x1 = ground::number(e.from_x);
    let y1 = ground::number(e.from_y);
    let x2 = ground::number(e.to_x);
    let y2 = ground::number(e.to_y);
    bent_reach(reach, window, true, false, column, x1, y1, x2, y2)
}

// What is reached with a trunk, two crossings, the channel between them, and a tail.
fn channel_reach(
    reach: Reach,
    window: Window,
    channel: usize,
    start: usize,
    end: usize,
    x1: usize,
    y1: usize,
    x2: usize,
    y2: usize,
) -> Reach
    ensures { (result ≡ channel_reach reach window channel start end x1 y1 x2 y2) × (result.runs ≡ reach.runs) }
{
    let trunk = touch::with_horizontal(reach, window, y1, x1, start);
    let out = crossing_reach(trunk, window, y1, channel);
    let side = touch::with_horizontal(out, window, channel, start, end);
    let back = crossing_reach(side, window, channel, y2);
    touch::with_horizontal(back, window, y2, end, x2)
}

// What is reached with a SideChannel.
pub fn side_reach(
    reach: Reach,
    window: Window,
    e: Edge,
    channel: u32,
    start: u32,
    end: u32,
) -> Reach
    ensures { (result ≡ join_reach reach (reach_of window (side_x e channel start end))) × (result.runs ≡ reach.runs) }
{
    let row = ground::number(channel);
    let first = ground::number(start);
    let last = ground::number(end);
    let x1 = ground::number(e.from_x);
    let y1 = ground::number(e.from_y);
    let x2 = ground::number(e.to_x);
    let y2 = ground::number(e.to_y);
    channel_reach(reach, window, row, first, last, x1, y1, x2, y2)
}

// What is reached with a leg of a MultiSegment.
pub fn leg_reach(reach: Reach, window: Window, e: Edge, offset: u32, leg: Leg) -> Reach
    requires { SmallLeg leg }
    ensures { (result ≡ join_reach reach (reach_of window (leg_x e offset leg))) × (result.runs ≡ reach.runs) }
{
    let first = leg.first;
    if leg.y1 == leg.y2 {
        let start = touch::with_row_if(reach, window, !first, leg.y1);
        return touch::with_horizontal(start, window, leg.y1, leg.x1, leg.x2);
    }
    let corner = x_flow::corner_column(e, offset, leg);
    let Some(bend) = corner else {
        return reach;
    };
    let has_trunk = flow::and(first, 0 < offset);
    bent_reach(
        reach, window, has_trunk, !first, bend, leg.x1, leg.y1, leg.x2, leg.y2,
    )
}
