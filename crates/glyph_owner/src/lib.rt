// Whose label a glyph of the glyph table belongs to, and which glyph of that label it is. Takes any words.
#![tactic(auto)]

ghost use Rattle.std.specs.Prelude.{◌≡◌, ◌<◌};
ghost use Rattle.layout.specs.Small.{Small, AllSmall};
ghost use Rattle.layout.specs.Tables.{tables_of};
ghost use Rattle.image.specs.Records.{edge_at, thing_table};
ghost use Rattle.glyph_owner.specs.Owner.{edge_span, label_of, holds_glyph, owner_in, owner_of};

use image::{ElementKind, Span};
use layout::{Table, Tables};

// Whose label a glyph belongs to: the first that holds it, those of nodes, edges and subgraphs in turn.
#[derive(Clone, Copy)]
pub struct GlyphOwner {
    // what kind of thing the label is of
    pub kind: ElementKind,
    // which thing of the kind
    pub index: usize,
    // which glyph of the label, the first being 0
    pub position: usize,
}

// The glyphs of the label of edge k: none where it has no label.
fn edge_span(image: &[u32], edges: Table, k: usize) -> Span
    requires { Small edges × (k < 4294967296) }
    ensures { result ≡ edge_span (edge_at image.now edges k).label }
{
    let edge = image::edge_at(image, edges, k);
    edge.label.unwrap_or(Span { start: 0, count: 0 })
}

// The label of thing k of a kind.
fn label_of(kind: ElementKind, image: &[u32], ts: Tables, k: usize) -> Span
    requires { AllSmall ts × (k < 4294967296) }
    ensures { result ≡ label_of kind image.now ts k }
{
    match kind {
        ElementKind::Node => {
            let node = image::node_at(image, ts.nodes, k);
            node.label
        }
        ElementKind::Edge => edge_span(image, ts.edges, k),
        ElementKind::Subgraph => {
            let subgraph = image::subgraph_at(image, ts.subgraphs, k);
            subgraph.label
        }
    }
}

// How many things of a kind there are.
fn thing_count(kind: ElementKind, ts: Tables) -> usize
    requires { AllSmall ts }
    ensures { (result ≡ (thing_table kind ts).count) × (result < 4294967296) }
{
    match kind {
        ElementKind::Node => ts.nodes.count,
        ElementKind::Edge => ts.edges.count,
        ElementKind::Subgraph => ts.subgraphs.count,
    }
}

// Whether a label holds this glyph of the table.
fn holds_glyph(label: Span, glyph: usize) -> bool
    ensures { result ≡ holds_glyph label glyph }
{
    let start = ground::number(label.start);
    let count = ground::number(label.count);
    (start <= glyph) & (glyph < start + count)
}

// The first thing of a kind whose label holds this glyph.
fn owner_in(kind: ElementKind, image: &[u32], ts: Tables, glyph: usize) -> Option<GlyphOwner>
    requires { AllSmall ts }
    ensures { result ≡ owner_in kind image.now ts glyph }
{
    let count = thing_count(kind, ts);
    for k in 0..count {
        let label = label_of(kind, image, ts, k);
        if holds_glyph(label, glyph) {
            return Some(GlyphOwner {
                kind,
                index: k,
                position: ground::minus(glyph, ground::number(label.start)),
            });
        }
    }
    None
}

// Whose label a glyph of the table belongs to.
pub fn owner_of(image: &[u32], glyph: usize) -> Option<GlyphOwner>
    ensures { result ≡ owner_of image.now (tables_of image.now) glyph }
{
    let ts = layout::tables_of(image);
    let node = owner_in(ElementKind::Node, image, ts, glyph);
    let edge = owner_in(ElementKind::Edge, image, ts, glyph);
    let subgraph = owner_in(ElementKind::Subgraph, image, ts, glyph);
    node.or(edge.or(subgraph))
}
