// Code 6: whether "a MultiSegment corner lies below 0".
ghost use Rattle.std.specs.Prelude.{◌≡◌};
ghost use Rattle.flow.specs.Bounds.{SmallLeg};
ghost use Rattle.path.specs.Corners.{leg_below, multi_below, corner_below};

use crate::legs;
use flow::Leg;
use image::{Edge, FlowAxis, Path, Point};
use orthogonal::points;

// Whether a leg has a corner, and that below 0.
pub fn leg_below(e: Edge, offset: u32, leg: Leg) -> bool
    requires { SmallLeg leg }
    ensures { result ≡ leg_below e.flow_axis e offset leg }
{
    match e.flow_axis {
        FlowAxis::Y => leg.x1 != leg.x2 && y_flow::corner_row(e, offset, leg).is_none(),
        FlowAxis::X => leg.y1 != leg.y2 && x_flow::corner_column(e, offset, leg).is_none(),
    }
}

// Whether some leg of a MultiSegment has a corner below 0. Where one leg ends the next starts, so that each point is read once.
fn multi_below(e: Edge, offset: u32, points: &[u32]) -> bool
    ensures { result ≡ multi_below e offset points.now }
{
    let count = image::point_count(points);
    let mut a = points::source_point(e);
    for k in 0..count {
        let b = image::point_at(points, k);
        if leg_below(e, offset, legs::leg_between(a, b, k == 0, false)) {
            return true;
        }
        a = b;
    }
    leg_below(
        e,
        offset,
        legs::leg_between(a, points::target_point(e), count == 0, true),
    )
}

// Whether a corner of an edge lies below 0: only a MultiSegment has corners that can.
pub fn corner_below(e: Edge, points: &[u32]) -> bool
    ensures { result ≡ corner_below e points.now }
{
    let path = e.path;
    let Path::MultiSegment {
        points: _,
        start_offset,
    } = path
    else {
        return false;
    };
    multi_below(e, start_offset, points)
}
