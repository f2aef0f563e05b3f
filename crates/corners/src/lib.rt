// Code 6: "a MultiSegment corner lies below 0", edge by edge.
#![tactic(auto)]

ghost use Rattle.std.specs.Prelude.{◌≡◌, ◌<◌};
ghost use Rattle.ground.specs.Judged.{first_bad};
ghost use Rattle.layout.specs.Small.{AllSmall};
ghost use Rattle.corners.specs.Corners.{edge_below, corners_judged};

use layout::Tables;

// Whether a corner of edge k lies below 0.
fn corner_below(image: &[u32], ts: Tables, k: usize) -> bool
    requires { AllSmall ts × (k < 4294967296) }
    ensures { result ≡ edge_below image.now ts k }
{
    // a copy of the one table, so that all of them need not lie in memory for each edge
    let edges = ts.edges;
    // only a MultiSegment is read whole
    let flags = layout::field(image, edges, k, layout::EDGE_FLAGS);
    if layout::bits(flags, layout::PATH_STEP, layout::PATHS) != layout::PATH_MULTI_SEGMENT {
        return false;
    }
    let e = image::edge_at(image, edges, k);
    let path = e.path;
    path::below::corner_below(e, image::points_of(image, ts.points, path))
}

// Code 6: the first word of the first such edge.
pub fn bad_corner(image: &[u32], ts: Tables) -> Option<usize>
    requires { AllSmall ts }
    ensures { result ≡ first_bad (corners_judged image.now ts) }
{
    let edges = ts.edges;
    ground::first_found(edges.count, |k| {
        corner_below(image, ts, k).then_some(layout::record_at(edges, k))
    })
}
