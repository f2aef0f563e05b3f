// The stages of placed labels and of nodes. Each group goes by index; of placed labels those are passed over whose row the window lacks, and of nodes those
// that no element lists with rows of the window.
#![tactic(auto)]

ghost use Rattle.std.specs.Prelude.{◌≡◌, ◌<◌};
ghost use Rattle.layout.specs.Small.{AllSmall};
ghost use Rattle.image.specs.Records.{placed_label_at};
ghost use Rattle.window.specs.Window.{ink_window, canvas_of, Ready};
ghost use Rattle.stage.specs.Staged.{Staged};
ghost use Rattle.picture.specs.Writes.{placed_label_writes, placed_labels, node_writes, nodes};

use frame_paint::labels;
use image::ElementKind;
use layout::Tables;
use rows::Window;
use window::{Lent, Tint};

// The row of placed label k.
fn label_row(image: &[u32], ts: Tables, k: usize) -> usize
    requires { AllSmall ts × (k < ts.labels.count) }
    ensures { result ≡ (placed_label_at image.now ts.labels k).y }
{
    ground::number(layout::field(image, ts.labels, k, layout::LABEL_Y))
}

// The text of placed label k, in its edge's label colour: "An edge that has no label present paints nothing for it."
fn paint_label_text(
    image: &[u32],
    ts: Tables,
    v: Window,
    lent: Lent,
    ranges: &[u32],
    marks: &[u8],
    cells: &mut [u32],
    colours: &mut [u32],
    stamps: &mut [u32],
    k: usize,
)
    requires { Staged image.now ts v marks.now ranges.now × Ready lent v cells.old colours.old stamps.old × (k < ts.labels.count) }
    ensures { canvas_of lent cells.new colours.new stamps.new ≡ ink_window v ranges.now (placed_label_writes image.now ts k) (canvas_of lent cells.old colours.old stamps.old) }
{
    let placed = image::placed_label_at(image, ts.labels, k);
    let edge = image::edge_at(image, ts.edges, ground::number(placed.edge));
    let label = edge.label;
    let Some(span) = label else {
        return;
    };
    let header = image::header_of(image);
    let policy = header.policy;
    if labels::paints_under(policy, placed) {
        let glyphs = image::span_words(image, ts.glyphs, span);
        let tint = Tint {
            colour: Some(edge.label_colour),
            stamp: None,
        };
        let x = ground::number(placed.x);
        let y = ground::number(placed.y);
        labels::paint_quoted(cells, colours, stamps, lent, ranges, v, x, y, glyphs, tint);
    }
}

// Placed label k. "A placed label is no element's", so that none is passed over by a mark; but all its glyphs stand on one row, and where the window lacks
// that row no more of the label is read.
fn paint_placed_label(
    image: &[u32],
    ts: Tables,
    v: Window,
    lent: Lent,
    ranges: &[u32],
    marks: &[u8],
    cells: &mut [u32],
    colours: &mut [u32],
    stamps: &mut [u32],
    k: usize,
)
    requires { Staged image.now ts v marks.now ranges.now × Ready lent v cells.old colours.old stamps.old × (k < ts.labels.count) }
    ensures { canvas_of lent cells.new colours.new stamps.new ≡ ink_window v ranges.now (placed_label_writes image.now ts k) (canvas_of lent cells.old colours.old stamps.old) }
{
    let row = label_row(image, ts, k);
    if v.has(row) {
        paint_label_text(image, ts, v, lent, ranges, marks, cells, colours, stamps, k);
    }
}

// Node k: "Nodes, colour 0."
fn paint_node(
    image: &[u32],
    ts: Tables,
    v: Window,
    lent: Lent,
    ranges: &[u32],
    marks: &[u8],
    cells: &mut [u32],
    colours: &mut [u32],
    stamps: &mut [u32],
    k: usize,
)
    requires { Staged image.now ts v marks.now ranges.now × Ready lent v cells.old colours.old stamps.old × (k < ts.nodes.count) }
    ensures { canvas_of lent cells.new colours.new stamps.new ≡ ink_window v ranges.now (node_writes image.now ts k) (canvas_of lent cells.old colours.old stamps.old) }
{
    let kind = u32::from(ElementKind::Node);
    if stage::is_marked(marks, kind, k) {
        let table = ts.nodes;
        let n = image::node_at(image, table, k);
        let span = n.label;
        let label = image::span_words(image, ts.glyphs, span);
        let header = image::header_of(image);
        let show = header.show_dummies;
        let tint = Tint {
            colour: Some(0),
            stamp: None,
        };
        node_paint::paint_node(
            cells, colours, stamps, lent, ranges, v, show, n, label, tint,
        );
    }
}

// "placed labels"
pub fn paint_placed_labels(
    image: &[u32],
    ts: Tables,
    v: Window,
    lent: Lent,
    ranges: &[u32],
    marks: &[u8],
    cells: &mut [u32],
    colours: &mut [u32],
    stamps: &mut [u32],
)
    requires { Staged image.now ts v marks.now ranges.now × Ready lent v cells.old colours.old stamps.old }
    ensures { canvas_of lent cells.new colours.new stamps.new ≡ ink_window v ranges.now (placed_labels image.now ts) (canvas_of lent cells.old colours.old stamps.old) }
{
    let count = ts.labels.count;
    for k in 0..count {
        paint_placed_label(image, ts, v, lent, ranges, marks, cells, colours, stamps, k);
    }
}

// "nodes"
pub fn paint_nodes(
    image: &[u32],
    ts: Tables,
    v: Window,
    lent: Lent,
    ranges: &[u32],
    marks: &[u8],
    cells: &mut [u32],
    colours: &mut [u32],
    stamps: &mut [u32],
)
    requires { Staged image.now ts v marks.now ranges.now × Ready lent v cells.old colours.old stamps.old }
    ensures { canvas_of lent cells.new colours.new stamps.new ≡ ink_window v ranges.now (nodes image.now ts) (canvas_of lent cells.old colours.old stamps.old) }
{
    let kind = u32::from(ElementKind::Node);
    let count = ts.nodes.count;
    let mut k: usize = 0;
    // the marks say where to go on, and not a range
    while k < count {
        paint_node(image, ts, v, lent, ranges, marks, cells, colours, stamps, k);
        k = stage::next_marked(marks, kind, k + 1, count);
    }
}
