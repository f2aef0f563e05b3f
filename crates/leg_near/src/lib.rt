// A leg of a MultiSegment that lies off a window of rows, found by its two ends alone: none of its pieces need be made to pass it over.
#![tactic(auto)]

ghost use Rattle.std.specs.Prelude.{◌+◌, ◌≤◌, false, ◌≡◌};
ghost use Rattle.image.specs.declared.Edge.{Edge};
ghost use Rattle.flow.specs.Bounds.{SmallLeg};
ghost use Rattle.path.specs.Pieces.{leg_on};
ghost use Rattle.draw.specs.Drawn.{NoRow};

use flow::Leg;
use rows::Window;

// Whether a leg of a MultiSegment may touch a row of the window: its corner lies 1 cell past its start, and the start offset further on the first leg, so
// that no row further off than that is touched.
pub fn is_near(v: Window, leg: Leg, offset: u32) -> bool
    requires { SmallLeg leg × (v.first + v.rows ≤ 0xFFFFFFFF) }
    ensures { result ≡ false → (e other : Edge) → NoRow v other (leg_on e.flow_axis e offset leg) }
{
    let first = v.first;
    let rows = v.rows;
    let y1 = leg.y1;
    let y2 = leg.y2;
    let more = flow::corner_steps(offset, leg);
    if ground::min(y1, y2) < first + rows + more {
        first <= ground::max(y1, y2) + more
    } else {
        false
    }
}
