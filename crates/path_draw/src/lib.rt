// The pieces of an edge, drawn in a window of rows. Where a function lends the scratch it answers how many runs are kept now.
#![tactic(auto)]

ghost use Rattle.std.specs.Prelude.{◌≡◌};
ghost use Rattle.window.specs.Window.{canvas_of, Ready};
ghost use Rattle.path.specs.Pieces.{direct_on, corner_on, side_on, pieces};
ghost use Rattle.draw.specs.Drawn.{drawing, Inked, Drawn, Drawable};

use draw::Pen;
use image::{Edge, FlowAxis, Path};

// A Direct edge or a Spline.
fn draw_direct(
    cells: &mut [u32],
    colours: &mut [u32],
    stamps: &mut [u32],
    ranges: &[u32],
    pen: Pen,
    e: Edge,
)
    requires { Ready pen.lent pen.window cells.old colours.old stamps.old }
    ensures { Inked pen ranges.now (direct_on e.flow_axis e) (canvas_of pen.lent cells.old colours.old stamps.old) (canvas_of pen.lent cells.new colours.new stamps.new) }
{
    let axis = e.flow_axis;
    match axis {
        FlowAxis::Y => y_draw::draw_direct(cells, colours, stamps, ranges, pen, e),
        FlowAxis::X => x_draw::draw_direct(cells, colours, stamps, ranges, pen, e),
    }
}

// A Corner.
fn draw_corner(
    cells: &mut [u32],
    colours: &mut [u32],
    stamps: &mut [u32],
    scratch: &mut [u32],
    ranges: &[u32],
    pen: Pen,
    e: Edge,
    kept: usize,
    bend: u32,
) -> usize
    requires { Drawable pen cells.old colours.old stamps.old scratch.old kept × (pen.weight ≡ e.weight) }
    ensures { Drawn pen ranges.now (corner_on e.flow_axis e bend) (drawing pen cells.old colours.old stamps.old scratch.old kept) (drawing pen cells.new colours.new stamps.new scratch.new result) }
{
    let axis = e.flow_axis;
    match axis {
        FlowAxis::Y => y_draw::draw_corner(
            cells, colours, stamps, scratch, ranges, pen, e, kept, bend,
        ),
        FlowAxis::X => {
            x_draw::draw_corner(cells, colours, stamps, ranges, pen, e, bend);
            kept
        }
    }
}

// A SideChannel.
fn draw_side(
    cells: &mut [u32],
    colours: &mut [u32],
    stamps: &mut [u32],
    scratch: &mut [u32],
    ranges: &[u32],
    pen: Pen,
    e: Edge,
    kept: usize,
    channel: u32,
    start: u32,
    end: u32,
) -> usize
    requires { Drawable pen cells.old colours.old stamps.old scratch.old kept × (pen.weight ≡ e.weight) }
    ensures { Drawn pen ranges.now (side_on e.flow_axis e channel start end) (drawing pen cells.old colours.old stamps.old scratch.old kept) (drawing pen cells.new colours.new stamps.new scratch.new result) }
{
    let axis = e.flow_axis;
    match axis {
        FlowAxis::Y => y_draw::draw_side(
            cells, colours, stamps, scratch, ranges, pen, e, kept, channel, start, end,
        ),
        FlowAxis::X => {
            x_draw::draw_side(cells, colours, stamps, ranges, pen, e, channel, start, end);
            kept
        }
    }
}

// An edge, with the points of its path.
pub fn draw_edge(
    cells: &mut [u32],
    colours: &mut [u32],
    stamps: &mut [u32],
    scratch: &mut [u32],
    ranges: &[u32],
    pen: Pen,
    e: Edge,
    kept: usize,
    points: &[u32],
) -> usize
    requires { Drawable pen cells.old colours.old stamps.old scratch.old kept × (pen.weight ≡ e.weight) }
    ensures { Drawn pen ranges.now (pieces e points.now) (drawing pen cells.old colours.old stamps.old scratch.old kept) (drawing pen cells.new colours.new stamps.new scratch.new result) }
{
    let path = e.path;
    match path {
        Path::Direct => {
            draw_direct(cells, colours, stamps, ranges, pen, e);
            kept
        }
        Path::Corner(bend) => draw_corner(
            cells, colours, stamps, scratch, ranges, pen, e, kept, bend,
        ),
        Path::SideChannel {
            channel,
            span_start,
            span_end,
        } => draw_side(
            cells, colours, stamps, scratch, ranges, pen, e, kept, channel, span_start, span_end,
        ),
        Path::MultiSegment {
            points: _,
            start_offset,
        } => multi_draw::draw_multi(
            cells,
            colours,
            stamps,
            scratch,
            ranges,
            pen,
            e,
            kept,
            start_offset,
            points,
        ),
        Path::Orthogonal(_) => {
            orthogonal_draw::draw_orthogonal(cells, colours, stamps, ranges, pen, e, points);
            kept
        }
        Path::Spline => {
            draw_direct(cells, colours, stamps, ranges, pen, e);
            kept
        }
    }
}
