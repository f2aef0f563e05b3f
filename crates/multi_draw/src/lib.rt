// The legs of a MultiSegment, drawn in a window of rows. Each function answers how many runs are kept now.
#![tactic(auto)]

ghost use Rattle.std.specs.Prelude.{◌≡◌};
ghost use Rattle.flow.specs.Bounds.{SmallLeg};
ghost use Rattle.path.specs.Pieces.{leg_on, multi_pieces};
ghost use Rattle.draw.specs.Drawn.{drawing, Drawn, Drawable};

use draw::Pen;
use flow::Leg;
use image::{Edge, FlowAxis};
use orthogonal::points;
use path::legs;

// A leg of a MultiSegment: none of the pieces of one that lies far from the window is made.
fn draw_leg(
    cells: &mut [u32],
    colours: &mut [u32],
    stamps: &mut [u32],
    scratch: &mut [u32],
    ranges: &[u32],
    pen: Pen,
    e: Edge,
    kept: usize,
    offset: u32,
    leg: Leg,
) -> usize
    requires { Drawable pen cells.old colours.old stamps.old scratch.old kept × SmallLeg leg × (pen.weight ≡ e.weight) }
    ensures { Drawn pen ranges.now (leg_on e.flow_axis e offset leg) (drawing pen cells.old colours.old stamps.old scratch.old kept) (drawing pen cells.new colours.new stamps.new scratch.new result) }
{
    let window = pen.window;
    if leg_near::is_near(window, leg, offset) {
        let axis = e.flow_axis;
        return match axis {
            FlowAxis::Y => y_draw::draw_leg(
                cells, colours, stamps, scratch, ranges, pen, e, kept, offset, leg,
            ),
            FlowAxis::X => {
                x_draw::draw_leg(cells, colours, stamps, ranges, pen, e, offset, leg);
                kept
            }
        };
    }
    kept
}

// The legs of a MultiSegment: where one ends the next starts, so that each point is read once.
pub fn draw_multi(
    cells: &mut [u32],
    colours: &mut [u32],
    stamps: &mut [u32],
    scratch: &mut [u32],
    ranges: &[u32],
    pen: Pen,
    e: Edge,
    kept: usize,
    offset: u32,
    points: &[u32],
) -> usize
    requires { Drawable pen cells.old colours.old stamps.old scratch.old kept × (pen.weight ≡ e.weight) }
    ensures { Drawn pen ranges.now (multi_pieces e offset points.now) (drawing pen cells.old colours.old stamps.old scratch.old kept) (drawing pen cells.new colours.new stamps.new scratch.new result) }
{
    let count = image::point_count(points);
    let mut now_kept = kept;
    let mut a = points::source_point(e);
    for k in 0..count {
        let b = image::point_at(points, k);
        let leg = legs::leg_between(a, b, k == 0, false);
        now_kept = draw_leg(
            cells, colours, stamps, scratch, ranges, pen, e, now_kept, offset, leg,
        );
        a = b;
    }
    let leg = legs::leg_between(a, points::target_point(e), count == 0, true);
    draw_leg(
        cells, colours, stamps, scratch, ranges, pen, e, now_kept, offset, leg,
    )
}
