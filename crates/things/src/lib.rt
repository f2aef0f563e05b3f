// What each thing of an image touches of the sheet, and the run count.
#![tactic(auto)]

ghost use Rattle.std.specs.Prelude.{◌≡◌, ◌≤◌, ◌<◌};
ghost use Rattle.layout.specs.Layout.{max_things};
ghost use Rattle.layout.specs.Small.{AllSmall};
ghost use Rattle.image.specs.declared.ElementKind.TheVariants as kind;
ghost use Rattle.image.specs.Records.{header_of};
ghost use Rattle.things.specs.Things.{sheet_of, run_count};
ghost use Rattle.things.specs.Computed.{Touched, EdgeReach};

use flow::Reach;
use image::ElementKind;
use layout::{HEADER_HEIGHT, HEADER_WIDTH, Tables, word};
use rows::{Rows, Window};

// The window of all rows of the sheet.
pub fn sheet_of(image: &[u32]) -> Window
    ensures { result ≡ sheet_of image.now }
{
    Window {
        width: ground::number(word(image, HEADER_WIDTH)),
        first: 0,
        rows: ground::number(word(image, HEADER_HEIGHT)),
    }
}

// The rows of the sheet that node k touches, from the first to the last.
pub fn node_touched(
    image: &[u32],
    ts: Tables,
    sheet: Window,
    show_dummies: bool,
    k: usize,
) -> Option<Rows>
    requires { AllSmall ts × (k < 4294967296) × (sheet ≡ sheet_of image.now) × (show_dummies ≡ (header_of image.now).show_dummies) }
    ensures { Touched kind.Node image.now ts k result }
{
    frame::nodes::node_rows(sheet, show_dummies, image::node_at(image, ts.nodes, k))
}

// The rows of the sheet that edge k touches, from the first to the last, and its runs there.
pub fn edge_reach(image: &[u32], ts: Tables, sheet: Window, k: usize) -> Reach
    requires { AllSmall ts × (k < 4294967296) × (sheet ≡ sheet_of image.now) }
    ensures { EdgeReach image.now ts k result }
{
    // a copy of the one table, so that all of them need not lie in memory for each edge
    let edges = ts.edges;
    let e = image::edge_at(image, edges, k);
    let path = e.path;
    path::reach::edge_reach(sheet, e, image::points_of(image, ts.points, path))
}

// The rows of the sheet that subgraph k touches, from the first to the last.
pub fn subgraph_touched(image: &[u32], ts: Tables, sheet: Window, k: usize) -> Option<Rows>
    requires { AllSmall ts × (k < 4294967296) × (sheet ≡ sheet_of image.now) }
    ensures { Touched kind.Subgraph image.now ts k result }
{
    let s = image::subgraph_at(image, ts.subgraphs, k);
    let glyphs = image::span_words(image, ts.glyphs, s.label);
    frame::subgraphs::subgraph_rows(sheet, image::table_words(image, ts.ranges), s, glyphs)
}

// The rows of the sheet that a thing touches, from the first to the last.
pub fn touched_rows(kind: ElementKind, image: &[u32], ts: Tables, k: usize) -> Option<Rows>
    requires { AllSmall ts × (k < 4294967296) }
    ensures { Touched kind image.now ts k result }
{
    let sheet = sheet_of(image);
    match kind {
        ElementKind::Node => {
            let header = image::header_of(image);
            node_touched(image, ts, sheet, header.show_dummies, k)
        }
        ElementKind::Edge => {
            let reach = edge_reach(image, ts, sheet, k);
            reach.rows
        }
        ElementKind::Subgraph => subgraph_touched(image, ts, sheet, k),
    }
}

// "The run count is the number of runs on rows of the sheet."
pub fn run_count(image: &[u32], ts: Tables) -> usize
    requires { AllSmall ts × (ts.edges.count ≤ max_things) }
    ensures { result ≡ run_count image.now ts }
{
    let sheet = sheet_of(image);
    let edges = ts.edges;
    let count = edges.count;
    let mut total: usize = 0;
    for k in 0..count {
        let edge = edge_reach(image, ts, sheet, k);
        total += edge.runs;
    }
    total
}
