// The walk along an Orthogonal path: its legs handed back one by one. It looks one stop ahead, so that each point is read once.
ghost use Rattle.std.specs.Prelude.{◌≡◌};
ghost use Rattle.orthogonal.specs.Walk.{next_stop, begin_walk, step_of};

use crate::{Cursor, PathLeg, Stop, points};
use image::{Edge, Point};

// The first point from k on that differs from a: "skip repeated points".
fn next_stop(e: Edge, points: &[u32], a: Point, k: usize) -> Option<Stop>
    ensures { result ≡ next_stop e points.now a k }
{
    let end = image::point_count(points) + 2;
    for i in k..end {
        let point = points::path_point(e, points, i);
        if !points::same_point(a, point) {
            return Some(Stop { point, next: i + 1 });
        }
    }
    None
}

// A cursor at the source.
pub fn begin_walk(e: Edge, points: &[u32]) -> Cursor
    ensures { result ≡ begin_walk e points.now }
{
    let a = points::source_point(e);
    Cursor {
        before: a,
        stop: a,
        ahead: next_stop(e, points, a, 1),
        first: true,
    }
}

impl Cursor {
    // The next leg and the cursor past it: "a step that hands back the next leg by value".
    pub fn step(self, e: Edge, points: &[u32]) -> Option<(PathLeg, Cursor)>
        ensures { result ≡ step_of e points.now self }
    {
        let Stop { point, next } = self.ahead?;
        let after = next_stop(e, points, point, next);
        let leg = PathLeg {
            before: self.before,
            from: self.stop,
            to: point,
            first: self.first,
            last: after.is_none(),
        };
        let past = Cursor {
            before: self.stop,
            stop: point,
            ahead: after,
            first: false,
        };
        Some((leg, past))
    }
}
