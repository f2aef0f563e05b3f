// Code 6: which leg of a MultiSegment has a corner below 0, and where that lies.
#![tactic(auto)]

ghost use Rattle.std.specs.Prelude.{◌≡◌, ◌<◌, ◌≤◌};
ghost use Rattle.layout.specs.Tables.{tables_of};
ghost use Rattle.image.specs.Records.{edge_at};
ghost use Rattle.image.specs.Spans.{point_count};
ghost use Rattle.flow.specs.Bounds.{SmallLeg};
ghost use Rattle.path.specs.Pieces.{leg_at};
ghost use Rattle.things.specs.Things.{edge_points};
ghost use Rattle.low_corner.specs.Low.{leg_start, corner_at, low_leg, corner_of, low_corner};

use flow::Leg;
use image::{Edge, FlowAxis, Path};
use orthogonal::points::path_point;

// A corner of an edge that lies below 0: `steps` cells against the axis from the start of its leg.
#[derive(Clone, Copy)]
pub struct LowCorner {
    // along which axis the edge flows: Y, and a corner has a row; X, and it has a column
    pub axis: FlowAxis,
    // which leg, the one from the source being leg 0
    pub leg: usize,
    // the row, on X flow the column, on which the leg starts
    pub start: usize,
    // how many rows or columns further the corner lies
    pub steps: usize,
}

// Leg k of a path through points.
fn leg_of(e: Edge, points: &[u32], k: usize) -> Leg
    requires { k ≤ point_count points.now }
    ensures { (result ≡ leg_at e points.now k) × SmallLeg result }
{
    let a = path_point(e, points, k);
    let b = path_point(e, points, k + 1);
    path::legs::leg_between(a, b, k == 0, k == image::point_count(points))
}

// Where a leg starts along the flow.
fn leg_start(axis: FlowAxis, leg: Leg) -> usize
    ensures { result ≡ leg_start axis leg }
{
    match axis {
        FlowAxis::Y => leg.y1,
        FlowAxis::X => leg.x1,
    }
}

// The corner of leg k.
fn corner_at(axis: FlowAxis, offset: u32, k: usize, leg: Leg) -> LowCorner
    ensures { result ≡ corner_at axis offset k leg }
{
    LowCorner {
        axis,
        leg: k,
        start: leg_start(axis, leg),
        steps: flow::corner_steps(offset, leg),
    }
}

// The corner of the first leg of a MultiSegment that has one below 0.
fn low_leg(e: Edge, offset: u32, points: &[u32]) -> Option<LowCorner>
    ensures { result ≡ corner_of e offset points.now (low_leg e offset points.now) }
{
    let axis = e.flow_axis;
    let count = image::point_count(points);
    for k in 0..count + 1 {
        let leg = leg_of(e, points, k);
        if path::below::leg_below(e, offset, leg) {
            return Some(corner_at(axis, offset, k, leg));
        }
    }
    None
}

// The first corner of an edge that lies below 0.
fn low_in(e: Edge, points: &[u32]) -> Option<LowCorner>
    ensures { result ≡ low_corner e points.now }
{
    let path = e.path;
    let Path::MultiSegment {
        points: _,
        start_offset,
    } = path
    else {
        return None;
    };
    low_leg(e, start_offset, points)
}

// The first corner of edge k that lies below 0.
pub fn low_corner(image: &[u32], k: usize) -> Option<LowCorner>
    requires { k < 4294967296 }
    ensures { result ≡ low_corner (edge_at image.now (tables_of image.now).edges k) (edge_points image.now (tables_of image.now) k) }
{
    let ts = layout::tables_of(image);
    let e = image::edge_at(image, ts.edges, k);
    let path = e.path;
    low_in(e, image::points_of(image, ts.points, path))
}
