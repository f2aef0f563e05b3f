// The stages of subgraphs: their borders first of all, and their labels last. Each group goes by index, and passes over what no element lists with rows of the window.
#![tactic(auto)]

ghost use Rattle.std.specs.Prelude.{◌≡◌, ◌<◌};
ghost use Rattle.window.specs.Window.{ink_window, canvas_of, Ready};
ghost use Rattle.stage.specs.Staged.{Staged};
ghost use Rattle.picture.specs.Writes.{border_tint, border_writes, borders, subgraph_label_writes, subgraph_labels};

use frame_paint::subgraphs;
use image::{ElementKind, Subgraph};
use layout::Tables;
use rows::Window;
use window::{Lent, Tint};

// "colour (0 keeps what is there)"
fn border_tint(s: Subgraph) -> Tint
    ensures { result ≡ border_tint s }
{
    Tint {
        colour: (s.colour != 0).then_some(s.colour),
        stamp: None,
    }
}

// The border of subgraph k.
fn paint_border(
    image: &[u32],
    ts: Tables,
    v: Window,
    lent: Lent,
    ranges: &[u32],
    marks: &[u8],
    cells: &mut [u32],
    colours: &mut [u32],
    stamps: &mut [u32],
    k: usize,
)
    requires { Staged image.now ts v marks.now ranges.now × Ready lent v cells.old colours.old stamps.old × (k < ts.subgraphs.count) }
    ensures { canvas_of lent cells.new colours.new stamps.new ≡ ink_window v ranges.now (border_writes image.now ts k) (canvas_of lent cells.old colours.old stamps.old) }
{
    let kind = u32::from(ElementKind::Subgraph);
    if stage::is_marked(marks, kind, k) {
        let table = ts.subgraphs;
        let s = image::subgraph_at(image, table, k);
        let tint = border_tint(s);
        subgraphs::paint_border(cells, colours, stamps, lent, ranges, v, s, tint);
    }
}

// The label of subgraph k: "Its painting writes no colour."
fn paint_label(
    image: &[u32],
    ts: Tables,
    v: Window,
    lent: Lent,
    ranges: &[u32],
    marks: &[u8],
    cells: &mut [u32],
    colours: &mut [u32],
    stamps: &mut [u32],
    k: usize,
)
    requires { Staged image.now ts v marks.now ranges.now × Ready lent v cells.old colours.old stamps.old × (k < ts.subgraphs.count) }
    ensures { canvas_of lent cells.new colours.new stamps.new ≡ ink_window v ranges.now (subgraph_label_writes image.now ts k) (canvas_of lent cells.old colours.old stamps.old) }
{
    let kind = u32::from(ElementKind::Subgraph);
    if stage::is_marked(marks, kind, k) {
        let table = ts.subgraphs;
        let s = image::subgraph_at(image, table, k);
        let span = s.label;
        let label = image::span_words(image, ts.glyphs, span);
        let tint = Tint {
            colour: None,
            stamp: None,
        };
        subgraphs::paint_label(cells, colours, stamps, lent, ranges, v, s, label, tint);
    }
}

// "subgraph borders"
pub fn paint_borders(
    image: &[u32],
    ts: Tables,
    v: Window,
    lent: Lent,
    ranges: &[u32],
    marks: &[u8],
    cells: &mut [u32],
    colours: &mut [u32],
    stamps: &mut [u32],
)
    requires { Staged image.now ts v marks.now ranges.now × Ready lent v cells.old colours.old stamps.old }
    ensures { canvas_of lent cells.new colours.new stamps.new ≡ ink_window v ranges.now (borders image.now ts) (canvas_of lent cells.old colours.old stamps.old) }
{
    let kind = u32::from(ElementKind::Subgraph);
    let count = ts.subgraphs.count;
    let mut k: usize = 0;
    // the marks say where to go on, and not a range
    while k < count {
        paint_border(image, ts, v, lent, ranges, marks, cells, colours, stamps, k);
        k = stage::next_marked(marks, kind, k + 1, count);
    }
}

// "subgraph labels"
pub fn paint_labels(
    image: &[u32],
    ts: Tables,
    v: Window,
    lent: Lent,
    ranges: &[u32],
    marks: &[u8],
    cells: &mut [u32],
    colours: &mut [u32],
    stamps: &mut [u32],
)
    requires { Staged image.now ts v marks.now ranges.now × Ready lent v cells.old colours.old stamps.old }
    ensures { canvas_of lent cells.new colours.new stamps.new ≡ ink_window v ranges.now (subgraph_labels image.now ts) (canvas_of lent cells.old colours.old stamps.old) }
{
    let kind = u32::from(ElementKind::Subgraph);
    let count = ts.subgraphs.count;
    let mut k: usize = 0;
    // the marks say where to go on, and not a range
    while k < count {
        paint_label(image, ts, v, lent, ranges, marks, cells, colours, stamps, k);
        k = stage::next_marked(marks, kind, k + 1, count);
    }
}
