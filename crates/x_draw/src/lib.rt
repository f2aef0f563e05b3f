// "X flow": the pieces of an edge that flows right or left, drawn one after the other. It makes no runs. Written out and no mirror of Y, as D44 of docs/DECISIONS.md has it.
#![tactic(auto)]

ghost use Rattle.std.specs.Prelude.{◌≡◌, [], ◌∷◌};
ghost use Rattle.flow.specs.Bounds.{SmallBend, SmallLeg};
ghost use Rattle.x_flow.specs.XFlow.{direct_x, cross_line_x, cross_first_x, cross_last_x, bent_x, corner_x, side_x, straight_x, leg_x};
ghost use Rattle.window.specs.Window.{canvas_of, Ready};
ghost use Rattle.draw.specs.Drawn.{Inked};

use draw::{Pen, draw_cell, draw_line};
use flow::{Bend, Leg};
use image::Edge;

// Direct, Spline: horizontal at from y, between.
pub fn draw_direct(
    cells: &mut [u32],
    colours: &mut [u32],
    stamps: &mut [u32],
    ranges: &[u32],
    pen: Pen,
    e: Edge,
)
    requires { Ready pen.lent pen.window cells.old colours.old stamps.old }
    ensures { Inked pen ranges.now (direct_x e ∷ []) (canvas_of pen.lent cells.old colours.old stamps.old) (canvas_of pen.lent cells.new colours.new stamps.new) }
{
    let piece = x_flow::direct(e);
    draw_line(cells, colours, stamps, ranges, pen, piece);
}

// A crossing, "crossings are immediate strokes", and its two corners.
fn draw_crossing(
    cells: &mut [u32],
    colours: &mut [u32],
    stamps: &mut [u32],
    ranges: &[u32],
    pen: Pen,
    s: bool,
    arrow: bool,
    column: usize,
    y1: usize,
    y2: usize,
)
    requires { Ready pen.lent pen.window cells.old colours.old stamps.old }
    ensures { Inked pen ranges.now (cross_line_x column y1 y2 ∷ cross_first_x pen.weight s arrow column y1 y2 ∷ cross_last_x pen.weight s column y1 y2 ∷ []) (canvas_of pen.lent cells.old colours.old stamps.old) (canvas_of pen.lent cells.new colours.new stamps.new) }
{
    let weight = pen.weight;
    let line = x_flow::cross_line(column, y1, y2);
    draw_line(cells, colours, stamps, ranges, pen, line);
    let turn = x_flow::cross_first(weight, s, arrow, column, y1, y2);
    draw_cell(cells, colours, stamps, ranges, pen, turn);
    let end = x_flow::cross_last(weight, s, column, y1, y2);
    draw_cell(cells, colours, stamps, ranges, pen, end);
}

// A way that bends once: a trunk to its column, a stroke at its own start, the crossing, and a horizontal to its end.
fn draw_bent(
    cells: &mut [u32],
    colours: &mut [u32],
    stamps: &mut [u32],
    ranges: &[u32],
    pen: Pen,
    s: bool,
    v: Bend,
)
    requires { Ready pen.lent pen.window cells.old colours.old stamps.old × SmallBend v }
    ensures { Inked pen ranges.now (bent_x pen.weight s v) (canvas_of pen.lent cells.old colours.old stamps.old) (canvas_of pen.lent cells.new colours.new stamps.new) }
{
    let weight = pen.weight;
    let trunk = x_flow::trunk(s, v);
    draw_line(cells, colours, stamps, ranges, pen, trunk);
    let start = x_flow::own_start(weight, v.strokes_start, v.x1, v.y1);
    draw_cell(cells, colours, stamps, ranges, pen, start);
    let arrow = x_flow::corner_arrow(s, v);
    draw_crossing(
        cells, colours, stamps, ranges, pen, s, arrow, v.bend, v.y1, v.y2,
    );
    let tail = x_flow::tail(s, v.end_arrow, v.y2, v.bend, v.x2);
    draw_line(cells, colours, stamps, ranges, pen, tail);
}

// Corner: horizontal (start arrow only), crossing at the bend, horizontal at to y (end arrow only).
pub fn draw_corner(
    cells: &mut [u32],
    colours: &mut [u32],
    stamps: &mut [u32],
    ranges: &[u32],
    pen: Pen,
    e: Edge,
    bend: u32,
)
    requires { Ready pen.lent pen.window cells.old colours.old stamps.old × (pen.weight ≡ e.weight) }
    ensures { Inked pen ranges.now (corner_x e bend) (canvas_of pen.lent cells.old colours.old stamps.old) (canvas_of pen.lent cells.new colours.new stamps.new) }
{
    let s = x_flow::sign(e);
    let v = flow::corner_bend(e, bend);
    draw_bent(cells, colours, stamps, ranges, pen, s, v)
}

// "SideChannel has a source trunk and start arrow, its bend being span start."
pub fn draw_side(
    cells: &mut [u32],
    colours: &mut [u32],
    stamps: &mut [u32],
    ranges: &[u32],
    pen: Pen,
    e: Edge,
    channel: u32,
    start: u32,
    end: u32,
)
    requires { Ready pen.lent pen.window cells.old colours.old stamps.old × (pen.weight ≡ e.weight) }
    ensures { Inked pen ranges.now (side_x e channel start end) (canvas_of pen.lent cells.old colours.old stamps.old) (canvas_of pen.lent cells.new colours.new stamps.new) }
{
    let s = x_flow::sign(e);
    let y1 = ground::number(e.from_y);
    let x2 = ground::number(e.to_x);
    let y2 = ground::number(e.to_y);
    let row = ground::number(channel);
    let first = ground::number(start);
    let last = ground::number(end);
    let v = flow::corner_bend(e, start);
    let trunk = x_flow::trunk(s, v);
    draw_line(cells, colours, stamps, ranges, pen, trunk);
    let mark = x_flow::corner_arrow(s, v);
    draw_crossing(cells, colours, stamps, ranges, pen, s, mark, first, y1, row);
    let line = x_flow::channel_line(row, first, last);
    draw_line(cells, colours, stamps, ranges, pen, line);
    draw_crossing(cells, colours, stamps, ranges, pen, s, false, last, row, y2);
    let arrow = flow::target_marker(e);
    let tail = x_flow::tail(s, arrow, y2, last, x2);
    draw_line(cells, colours, stamps, ranges, pen, tail);
}

// Equal y gives a horizontal; every later leg strokes the horizontal at its own start.
fn draw_straight(
    cells: &mut [u32],
    colours: &mut [u32],
    stamps: &mut [u32],
    ranges: &[u32],
    pen: Pen,
    e: Edge,
    leg: Leg,
)
    requires { Ready pen.lent pen.window cells.old colours.old stamps.old × SmallLeg leg }
    ensures { Inked pen ranges.now (straight_x e leg) (canvas_of pen.lent cells.old colours.old stamps.old) (canvas_of pen.lent cells.new colours.new stamps.new) }
{
    let weight = e.weight;
    let start = x_flow::own_start(weight, !leg.first, leg.x1, leg.y1);
    draw_cell(cells, colours, stamps, ranges, pen, start);
    let line = x_flow::straight_line(e, leg);
    draw_line(cells, colours, stamps, ranges, pen, line);
}

// A leg of a MultiSegment; a corner below 0 draws nothing.
pub fn draw_leg(
    cells: &mut [u32],
    colours: &mut [u32],
    stamps: &mut [u32],
    ranges: &[u32],
    pen: Pen,
    e: Edge,
    offset: u32,
    leg: Leg,
)
    requires { Ready pen.lent pen.window cells.old colours.old stamps.old × SmallLeg leg × (pen.weight ≡ e.weight) }
    ensures { Inked pen ranges.now (leg_x e offset leg) (canvas_of pen.lent cells.old colours.old stamps.old) (canvas_of pen.lent cells.new colours.new stamps.new) }
{
    if leg.y1 == leg.y2 {
        draw_straight(cells, colours, stamps, ranges, pen, e, leg);
        return;
    }
    let corner = x_flow::corner_column(e, offset, leg);
    let Some(column) = corner else {
        return;
    };
    let s = x_flow::sign(e);
    let v = flow::leg_bend(e, offset, leg, column);
    draw_bent(cells, colours, stamps, ranges, pen, s, v)
}
