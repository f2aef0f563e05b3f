// The legs of a MultiSegment.
ghost use Rattle.std.specs.Prelude.{◌≡◌};
ghost use Rattle.flow.specs.Bounds.{SmallLeg};
ghost use Rattle.path.specs.Pieces.{leg_between};

use flow::Leg;
use image::Point;

// The leg from a point to another.
pub fn leg_between(a: Point, b: Point, first: bool, last: bool) -> Leg
    ensures { (result ≡ leg_between a b first last) × SmallLeg result }
{
    Leg {
        x1: ground::number(a.x),
        y1: ground::number(a.y),
        x2: ground::number(b.x),
        y2: ground::number(b.y),
        first: first,
        last: last,
    }
}
