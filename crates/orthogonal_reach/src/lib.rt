// The rows that an Orthogonal path touches. Its arrows do not matter for them, so none is made, and each point is read once.
#![tactic(auto)]

ghost use Rattle.std.specs.Prelude.{◌≡◌};
ghost use Rattle.flow.specs.Reach.{reach_of};
ghost use Rattle.orthogonal.specs.Orthogonal.{orthogonal_pieces};
ghost use Rattle.orthogonal_reach.specs.Passing.{bend_rows, line_rows, pass_point};

use flow::Reach;
use image::{Edge, Point};
use orthogonal::points;
use rows::{Rows, Window};

// How far a look along the points of an Orthogonal path has come, for its rows alone.
#[derive(Clone, Copy)]
pub struct Passed {
    // the last stop
    pub stop: Point,
    // whether that is the source
    pub first: bool,
    // the rows that the legs up to it touch, if any
    pub rows: Option<Rows>,
}

// The row of the bend at a leg's start: there is none at the source.
fn bend_rows(window: Window, first: bool, y: usize) -> Option<Rows>
    ensures { result ≡ bend_rows window first y }
{
    if first { None } else { window.clip(y, y) }
}

// The rows of a leg's interior.
fn line_rows(window: Window, from: Point, to: Point) -> Option<Rows>
    ensures { result ≡ line_rows window from to }
{
    let y = ground::number(from.y);
    if from.x == to.x {
        return touch::vertical_rows(window, y, ground::number(to.y));
    }
    if from.y == to.y {
        return touch::horizontal_rows(window, y, ground::number(from.x), ground::number(to.x));
    }
    None
}

// One point more: where it repeats the last stop it is skipped, else it ends a leg.
fn pass_point(window: Window, passed: Passed, point: Point) -> Passed
    ensures { result ≡ pass_point window passed point }
{
    let stop = passed.stop;
    if points::same_point(stop, point) {
        return passed;
    }
    let bent = rows::join(
        passed.rows,
        bend_rows(window, passed.first, ground::number(stop.y)),
    );
    Passed {
        stop: point,
        first: false,
        rows: rows::join(bent, line_rows(window, stop, point)),
    }
}

// The rows of a window that the path touches; it makes no runs.
pub fn orthogonal_reach(window: Window, e: Edge, points: &[u32]) -> Reach
    ensures { result ≡ reach_of window (orthogonal_pieces e points.now) }
{
    let count = image::point_count(points);
    let mut passed = Passed {
        stop: points::source_point(e),
        first: true,
        rows: None,
    };
    for k in 0..count {
        passed = pass_point(window, passed, image::point_at(points, k));
    }
    let all = pass_point(window, passed, points::target_point(e));
    let rows = all.rows;
    Reach {
        rows: rows,
        runs: 0,
    }
}
