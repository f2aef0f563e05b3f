// Code 4: the records of each table in turn.
#![tactic(auto)]

ghost use Rattle.std.specs.Prelude.{◌≡◌};
ghost use Rattle.ground.specs.Each.{each};
ghost use Rattle.ground.specs.Judged.{first_bad};
ghost use Rattle.layout.specs.Inside.{AllInside};
ghost use Rattle.fields.specs.Tables.{kind_judged, first_kinds, last_kinds, records_judged};

use edge_rules::bad_edge;
use ground::first_found;
use layout::{Tables, record_at};
use records::{
    bad_element, bad_glyph, bad_node, bad_placed_label, bad_point, bad_range_words, bad_subgraph,
};

// The first four tables.
fn bad_in_first(image: &[u32], ts: Tables) -> Option<usize>
    requires { AllInside image.now ts }
    ensures { result ≡ first_bad (each first_kinds (kind_judged image.now ts)) }
{
    let Tables {
        nodes,
        edges,
        subgraphs,
        labels,
        points,
        glyphs,
        ..
    } = ts;
    let points = points.count;
    let glyphs = glyphs.count;
    let in_nodes = first_found(
        nodes.count,
        |k| bad_node(image, record_at(nodes, k), glyphs),
    );
    let in_edges = first_found(
        edges.count,
        |k| bad_edge(image, record_at(edges, k), points, glyphs),
    );
    let in_subgraphs = first_found(
        subgraphs.count,
        |k| bad_subgraph(image, record_at(subgraphs, k), glyphs),
    );
    let in_labels = first_found(
        labels.count,
        |k| bad_placed_label(image, record_at(labels, k), edges.count),
    );
    in_nodes.or(in_edges.or(in_subgraphs.or(in_labels)))
}

// The last four tables.
fn bad_in_last(image: &[u32], ts: Tables) -> Option<usize>
    requires { AllInside image.now ts }
    ensures { result ≡ first_bad (each last_kinds (kind_judged image.now ts)) }
{
    let Tables {
        nodes,
        edges,
        subgraphs,
        elements,
        points,
        glyphs,
        ranges,
        ..
    } = ts;
    let nodes = nodes.count;
    let edges = edges.count;
    let subgraphs = subgraphs.count;
    let in_elements = first_found(
        elements.count,
        |k| bad_element(image, record_at(elements, k), nodes, edges, subgraphs),
    );
    let in_points = first_found(points.count, |k| bad_point(image, record_at(points, k)));
    let in_glyphs = first_found(glyphs.count, |k| bad_glyph(image, record_at(glyphs, k)));
    let in_ranges = first_found(
        ranges.count,
        |k| bad_range_words(image, record_at(ranges, k)),
    );
    in_elements.or(in_points.or(in_glyphs.or(in_ranges)))
}

// Code 4: "a record field breaks its rule; an index or start + count leaves its table".
pub fn bad_record_field(image: &[u32], ts: Tables) -> Option<usize>
    requires { AllInside image.now ts }
    ensures { result ≡ first_bad (records_judged image.now ts) }
{
    bad_in_first(image, ts).or(bad_in_last(image, ts))
}
