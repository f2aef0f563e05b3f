// "Y flow": the pieces of an edge that flows down or up, each made and drawn in turn. Where a function lends the scratch it answers how many runs are kept now.
#![tactic(auto)]

ghost use Rattle.std.specs.Prelude.{◌≡◌, [], ◌∷◌, ◌<◌};
ghost use Rattle.flow.specs.Bounds.{SmallBend, SmallLeg};
ghost use Rattle.window.specs.Window.{canvas_of, Ready};
ghost use Rattle.y_flow.specs.YFlow.{direct_y, cross_run_y, cross_first_y, cross_last_y, bent_y, corner_y, side_y, straight_y, leg_y};
ghost use Rattle.draw.specs.Drawn.{drawing, Inked, Drawn, Drawable};

use draw::{Pen, draw_cell, draw_line, keep_piece};
use flow::{Bend, Leg};
use image::Edge;

// "Direct, Spline: vertical at from x, between"
pub fn draw_direct(
    cells: &mut [u32],
    colours: &mut [u32],
    stamps: &mut [u32],
    ranges: &[u32],
    pen: Pen,
    e: Edge,
)
    requires { Ready pen.lent pen.window cells.old colours.old stamps.old }
    ensures { Inked pen ranges.now (direct_y e ∷ []) (canvas_of pen.lent cells.old colours.old stamps.old) (canvas_of pen.lent cells.new colours.new stamps.new) }
{
    let line = y_flow::direct(e);
    draw_line(cells, colours, stamps, ranges, pen, line);
}

// A crossing on a row of the window: "a run strictly inside .., first corner .., last".
fn draw_turns(
    cells: &mut [u32],
    colours: &mut [u32],
    stamps: &mut [u32],
    scratch: &mut [u32],
    ranges: &[u32],
    pen: Pen,
    kept: usize,
    s: bool,
    arrow: bool,
    row: usize,
    x1: usize,
    x2: usize,
) -> usize
    requires { Drawable pen cells.old colours.old stamps.old scratch.old kept × (x1 < 0x100000000) × (x2 < 0x100000000) }
    ensures { Drawn pen ranges.now (cross_run_y row x1 x2 ∷ cross_first_y pen.weight s arrow row x1 x2 ∷ cross_last_y pen.weight s row x1 x2 ∷ []) (drawing pen cells.old colours.old stamps.old scratch.old kept) (drawing pen cells.new colours.new stamps.new scratch.new result) }
{
    let weight = pen.weight;
    let run = y_flow::cross_run(row, x1, x2);
    let more = keep_piece(scratch, pen, kept, run);
    let turn = y_flow::cross_first(weight, s, arrow, row, x1, x2);
    draw_cell(cells, colours, stamps, ranges, pen, turn);
    let end = y_flow::cross_last(weight, s, row, x1, x2);
    draw_cell(cells, colours, stamps, ranges, pen, end);
    more
}

// A crossing: on a row that the window lacks no piece of it is made.
fn draw_crossing(
    cells: &mut [u32],
    colours: &mut [u32],
    stamps: &mut [u32],
    scratch: &mut [u32],
    ranges: &[u32],
    pen: Pen,
    kept: usize,
    s: bool,
    arrow: bool,
    row: usize,
    x1: usize,
    x2: usize,
) -> usize
    requires { Drawable pen cells.old colours.old stamps.old scratch.old kept × (x1 < 0x100000000) × (x2 < 0x100000000) }
    ensures { Drawn pen ranges.now (cross_run_y row x1 x2 ∷ cross_first_y pen.weight s arrow row x1 x2 ∷ cross_last_y pen.weight s row x1 x2 ∷ []) (drawing pen cells.old colours.old stamps.old scratch.old kept) (drawing pen cells.new colours.new stamps.new scratch.new result) }
{
    let window = pen.window;
    if window.has(row) {
        return draw_turns(
            cells, colours, stamps, scratch, ranges, pen, kept, s, arrow, row, x1, x2,
        );
    }
    kept
}

// A way that bends once: a trunk to its row, a stroke at its own start, the crossing, and a vertical to its end.
fn draw_bent(
    cells: &mut [u32],
    colours: &mut [u32],
    stamps: &mut [u32],
    scratch: &mut [u32],
    ranges: &[u32],
    pen: Pen,
    kept: usize,
    s: bool,
    v: Bend,
) -> usize
    requires { Drawable pen cells.old colours.old stamps.old scratch.old kept × SmallBend v }
    ensures { Drawn pen ranges.now (bent_y pen.weight s v) (drawing pen cells.old colours.old stamps.old scratch.old kept) (drawing pen cells.new colours.new stamps.new scratch.new result) }
{
    let weight = pen.weight;
    let trunk = y_flow::trunk(s, v);
    draw_line(cells, colours, stamps, ranges, pen, trunk);
    let start = y_flow::own_start(weight, v.strokes_start, v.x1, v.y1);
    draw_cell(cells, colours, stamps, ranges, pen, start);
    let arrow = y_flow::corner_arrow(s, v);
    let more = draw_crossing(
        cells, colours, stamps, scratch, ranges, pen, kept, s, arrow, v.bend, v.x1, v.x2,
    );
    let tail = y_flow::tail(s, v.end_arrow, v.x2, v.bend, v.y2);
    draw_line(cells, colours, stamps, ranges, pen, tail);
    more
}

// "Corner: vertical (start arrow only), crossing at the bend, vertical at to x (end arrow only)."
pub fn draw_corner(
    cells: &mut [u32],
    colours: &mut [u32],
    stamps: &mut [u32],
    scratch: &mut [u32],
    ranges: &[u32],
    pen: Pen,
    e: Edge,
    kept: usize,
    bend: u32,
) -> usize
    requires { Drawable pen cells.old colours.old stamps.old scratch.old kept × (pen.weight ≡ e.weight) }
    ensures { Drawn pen ranges.now (corner_y e bend) (drawing pen cells.old colours.old stamps.old scratch.old kept) (drawing pen cells.new colours.new stamps.new scratch.new result) }
{
    let s = y_flow::sign(e);
    let v = flow::corner_bend(e, bend);
    draw_bent(cells, colours, stamps, scratch, ranges, pen, kept, s, v)
}

// "SideChannel: crossing at span start, vertical in the channel, crossing at span end, vertical to the target (end arrow)."
pub fn draw_side(
    cells: &mut [u32],
    colours: &mut [u32],
    stamps: &mut [u32],
    scratch: &mut [u32],
    ranges: &[u32],
    pen: Pen,
    e: Edge,
    kept: usize,
    channel: u32,
    start: u32,
    end: u32,
) -> usize
    requires { Drawable pen cells.old colours.old stamps.old scratch.old kept × (pen.weight ≡ e.weight) }
    ensures { Drawn pen ranges.now (side_y e channel start end) (drawing pen cells.old colours.old stamps.old scratch.old kept) (drawing pen cells.new colours.new stamps.new scratch.new result) }
{
    let s = y_flow::sign(e);
    let x1 = ground::number(e.from_x);
    let x2 = ground::number(e.to_x);
    let y2 = ground::number(e.to_y);
    let column = ground::number(channel);
    let first = ground::number(start);
    let last = ground::number(end);
    let arrow = flow::target_marker(e);
    let line = y_flow::channel_line(column, first, last);
    let tail = y_flow::tail(s, arrow, x2, last, y2);
    let more = draw_crossing(
        cells, colours, stamps, scratch, ranges, pen, kept, s, false, first, x1, column,
    );
    draw_line(cells, colours, stamps, ranges, pen, line);
    let all = draw_crossing(
        cells, colours, stamps, scratch, ranges, pen, more, s, false, last, column, x2,
    );
    draw_line(cells, colours, stamps, ranges, pen, tail);
    all
}

// "equal x gives a vertical"; "Every later leg strokes the vertical at its own start."
fn draw_straight(
    cells: &mut [u32],
    colours: &mut [u32],
    stamps: &mut [u32],
    ranges: &[u32],
    pen: Pen,
    e: Edge,
    leg: Leg,
)
    requires { Ready pen.lent pen.window cells.old colours.old stamps.old × SmallLeg leg }
    ensures { Inked pen ranges.now (straight_y e leg) (canvas_of pen.lent cells.old colours.old stamps.old) (canvas_of pen.lent cells.new colours.new stamps.new) }
{
    let weight = e.weight;
    let start = y_flow::own_start(weight, !leg.first, leg.x1, leg.y1);
    draw_cell(cells, colours, stamps, ranges, pen, start);
    let line = y_flow::straight_line(e, leg);
    draw_line(cells, colours, stamps, ranges, pen, line);
}

// A leg of a MultiSegment; a corner below 0 draws nothing.
pub fn draw_leg(
    cells: &mut [u32],
    colours: &mut [u32],
    stamps: &mut [u32],
    scratch: &mut [u32],
    ranges: &[u32],
    pen: Pen,
    e: Edge,
    kept: usize,
    offset: u32,
    leg: Leg,
) -> usize
    requires { Drawable pen cells.old colours.old stamps.old scratch.old kept × SmallLeg leg × (pen.weight ≡ e.weight) }
    ensures { Drawn pen ranges.now (leg_y e offset leg) (drawing pen cells.old colours.old stamps.old scratch.old kept) (drawing pen cells.new colours.new stamps.new scratch.new result) }
{
    if leg.x1 == leg.x2 {
        draw_straight(cells, colours, stamps, ranges, pen, e, leg);
        return kept;
    }
    let corner = y_flow::corner_row(e, offset, leg);
    let Some(row) = corner else {
        return kept;
    };
    let s = y_flow::sign(e);
    let v = flow::leg_bend(e, offset, leg, row);
    draw_bent(cells, colours, stamps, scratch, ranges, pen, kept, s, v)
}
