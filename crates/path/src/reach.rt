// The rows of a window that an edge touches, from the first to the last, and its runs there.
ghost use Rattle.std.specs.Prelude.{◌≡◌, ◌+◌, ◌≤◌, ◌<◌};
ghost use Rattle.flow.specs.Bounds.{SmallLeg};
ghost use Rattle.flow.specs.Reach.{join_reach, reach_of};
ghost use Rattle.path.specs.Pieces.{direct_on, corner_on, side_on, leg_on, multi_pieces};
ghost use Rattle.path.specs.Touched.{EdgeReached};

use crate::legs;
use flow::{Leg, Reach};
use image::{Edge, FlowAxis, Path, Point};
use orthogonal::points;
use rows::Window;

fn direct_reach(window: Window, e: Edge) -> Reach
    ensures { result ≡ reach_of window (direct_on e.flow_axis e) }
{
    let axis = e.flow_axis;
    match axis {
        FlowAxis::Y => y_reach::direct_reach(touch::no_reach(), window, e),
        FlowAxis::X => x_reach::direct_reach(touch::no_reach(), window, e),
    }
}

fn corner_reach(window: Window, e: Edge, bend: u32) -> Reach
    ensures { result ≡ reach_of window (corner_on e.flow_axis e bend) }
{
    let axis = e.flow_axis;
    match axis {
        FlowAxis::Y => y_reach::corner_reach(touch::no_reach(), window, e, bend),
        FlowAxis::X => x_reach::corner_reach(touch::no_reach(), window, e, bend),
    }
}

fn side_reach(window: Window, e: Edge, channel: u32, start: u32, end: u32) -> Reach
    ensures { result ≡ reach_of window (side_on e.flow_axis e channel start end) }
{
    let axis = e.flow_axis;
    match axis {
        FlowAxis::Y => y_reach::side_reach(touch::no_reach(), window, e, channel, start, end),
        FlowAxis::X => x_reach::side_reach(touch::no_reach(), window, e, channel, start, end),
    }
}

// What is reached with one more leg of a MultiSegment.
pub fn leg_reach(reach: Reach, window: Window, e: Edge, offset: u32, leg: Leg) -> Reach
    requires { SmallLeg leg × (reach.runs < 0x4000000000000000) }
    ensures { (result ≡ join_reach reach (reach_of window (leg_on e.flow_axis e offset leg))) × (result.runs ≤ reach.runs + 1) }
{
    let axis = e.flow_axis;
    match axis {
        FlowAxis::Y => y_reach::leg_reach(reach, window, e, offset, leg),
        FlowAxis::X => x_reach::leg_reach(reach, window, e, offset, leg),
    }
}

// The legs of a MultiSegment: where one ends the next starts, so that each point is read once.
fn multi_reach(window: Window, e: Edge, offset: u32, points: &[u32]) -> Reach
    ensures { result ≡ reach_of window (multi_pieces e offset points.now) }
{
    let count = image::point_count(points);
    let mut reach = touch::no_reach();
    let mut a = points::source_point(e);
    for k in 0..count {
        let b = image::point_at(points, k);
        let leg = legs::leg_between(a, b, k == 0, false);
        reach = leg_reach(reach, window, e, offset, leg);
        a = b;
    }
    let leg = legs::leg_between(a, points::target_point(e), count == 0, true);
    leg_reach(reach, window, e, offset, leg)
}

// The rows of a window that an edge touches, and its runs there.
pub fn edge_reach(window: Window, e: Edge, points: &[u32]) -> Reach
    ensures { EdgeReached window e points.now result }
{
    let path = e.path;
    match path {
        Path::Direct => direct_reach(window, e),
        Path::Corner(bend) => corner_reach(window, e, bend),
        Path::SideChannel {
            channel,
            span_start,
            span_end,
        } => side_reach(window, e, channel, span_start, span_end),
        Path::MultiSegment {
            points: _,
            start_offset,
        } => multi_reach(window, e, start_offset, points),
        Path::Orthogonal(_) => orthogonal_reach::orthogonal_reach(window, e, points),
        Path::Spline => direct_reach(window, e),
    }
}
