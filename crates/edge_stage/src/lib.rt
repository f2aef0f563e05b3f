// The stage of edges, by index: their strokes and arrows at once, their runs kept in the scratch. An edge is passed over that no element lists with rows of
// the window.
#![tactic(auto)]

ghost use Rattle.std.specs.Prelude.{◌≡◌, ◌≤◌, ◌<◌};
ghost use Rattle.layout.specs.Layout.{max_things};
ghost use Rattle.picture.specs.Writes.{edge_writes, edges, runs_of_edge, runs};
ghost use Rattle.stage.specs.Staged.{Staged};
ghost use Rattle.edge_stage.specs.Laid.{laying, Laid, Layable};

use draw::Pen;
use image::ElementKind;
use layout::Tables;
use rows::Window;
use window::Lent;

// Edge k. Answers how many runs are kept now.
fn lay_edge(
    image: &[u32],
    ts: Tables,
    v: Window,
    lent: Lent,
    ranges: &[u32],
    marks: &[u8],
    cells: &mut [u32],
    colours: &mut [u32],
    stamps: &mut [u32],
    scratch: &mut [u32],
    kept: usize,
    k: usize,
) -> usize
    requires { Staged image.now ts v marks.now ranges.now × Layable lent v cells.old colours.old stamps.old scratch.old kept × (k < ts.edges.count) × (ts.edges.count ≤ max_things) }
    ensures { Laid v ranges.now (edge_writes image.now ts k) (runs_of_edge image.now ts k) (laying lent cells.old colours.old stamps.old scratch.old kept) (laying lent cells.new colours.new stamps.new scratch.new result) }
{
    let kind = u32::from(ElementKind::Edge);
    if stage::is_marked(marks, kind, k) {
        let table = ts.edges;
        let e = image::edge_at(image, table, k);
        let path = e.path;
        let points = image::points_of(image, ts.points, path);
        let weight = e.weight;
        let pen = Pen {
            lent,
            window: v,
            number: (k + 1) as u32,
            colour: e.colour,
            weight,
            dashed: e.reversed,
        };
        return path_draw::draw_edge(
            cells, colours, stamps, scratch, ranges, pen, e, kept, points,
        );
    }
    kept
}

// "edges"; and their runs, which wait. Answers how many runs are kept.
pub fn lay_edges(
    image: &[u32],
    ts: Tables,
    v: Window,
    lent: Lent,
    ranges: &[u32],
    marks: &[u8],
    cells: &mut [u32],
    colours: &mut [u32],
    stamps: &mut [u32],
    scratch: &mut [u32],
) -> usize
    requires { Staged image.now ts v marks.now ranges.now × Layable lent v cells.old colours.old stamps.old scratch.old 0 × (ts.edges.count ≤ max_things) }
    ensures { Laid v ranges.now (edges image.now ts) (runs image.now ts) (laying lent cells.old colours.old stamps.old scratch.old 0) (laying lent cells.new colours.new stamps.new scratch.new result) }
{
    let kind = u32::from(ElementKind::Edge);
    let count = ts.edges.count;
    let mut kept: usize = 0;
    let mut k: usize = 0;
    // the marks say where to go on, and not a range
    while k < count {
        kept = lay_edge(
            image, ts, v, lent, ranges, marks, cells, colours, stamps, scratch, kept, k,
        );
        k = stage::next_marked(marks, kind, k + 1, count);
    }
    kept
}
