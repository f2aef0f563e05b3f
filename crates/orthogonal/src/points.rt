// The points of a path: the source, the points between, the target.
ghost use Rattle.std.specs.Prelude.{◌≡◌};
ghost use Rattle.orthogonal.specs.Points.{source, target, path_point, same_point};

use image::{Edge, Point};

pub fn source_point(e: Edge) -> Point
    ensures { result ≡ source e }
{
    Point {
        x: e.from_x,
        y: e.from_y,
    }
}

pub fn target_point(e: Edge) -> Point
    ensures { result ≡ target e }
{
    Point {
        x: e.to_x,
        y: e.to_y,
    }
}

// Point k of the path.
pub fn path_point(e: Edge, points: &[u32], k: usize) -> Point
    ensures { result ≡ path_point e points.now k }
{
    if k == 0 {
        return source_point(e);
    }
    if k <= image::point_count(points) {
        return image::point_at(points, k - 1);
    }
    target_point(e)
}

pub fn same_point(a: Point, b: Point) -> bool
    ensures { result ≡ same_point a b }
{
    a.x == b.x && a.y == b.y
}
