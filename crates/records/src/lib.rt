// Code 4: the words of one record in turn, for every kind but the edge. Each function is told where the record begins and what the tables that it refers to hold.
#![tactic(auto)]

ghost use Rattle.std.specs.Prelude.{◌≡◌, ◌+◌, ◌≤◌, ◌<◌, ltb, length, None};
ghost use Rattle.ground.specs.Judged.{first_bad, judged_words};
ghost use Rattle.layout.specs.Layout.{node_loop_x, element_kind, element_index};
ghost use Rattle.layout.specs.Layout.{node_size, subgraph_size, label_size, element_size, point_size, glyph_size, range_size};
ghost use Rattle.layout.specs.Tables.{word};
ghost use Rattle.image.specs.Records.{element_kind_of, element_kind_number};
ghost use Rattle.header.specs.Words.{at_most, inside};
ghost use Rattle.header.specs.InTurn.{or_unless, or_words, words_at};
ghost use Rattle.records.specs.Records.{loop_good, loop_rules};
ghost use Rattle.records.specs.Records.{thing_count, scalar_good, width_good};
ghost use Rattle.records.specs.Records.{node_rules, subgraph_rules, placed_label_rules, element_rules, point_rules, glyph_rules, range_rules};

use edge_rules::span_good;
use header::{at_most, clear, four_at_most, or_unless};
use image::ElementKind;
use layout::{MAX_COORDINATE, MAX_SCALAR, flag, word_inside};

// A span, given by the offsets of its start and its count, that leaves its table.
fn inside(
    before: Option<usize>,
    image: &[u32],
    at: usize,
    start: usize,
    count: usize,
    held: usize,
) -> Option<usize>
    requires { (at + start < length image.now) × (at + count < length image.now) }
    ensures { result ≡ or_unless before (inside (word image.now (at + start)) (word image.now (at + count)) held) (at + start) }
{
    let good = span_good(
        word_inside(image, at + start),
        word_inside(image, at + count),
        held,
    );
    or_unless(before, good, at + start)
}

// An index that leaves its table.
fn below(before: Option<usize>, image: &[u32], place: usize, held: usize) -> Option<usize>
    requires { place < length image.now }
    ensures { result ≡ or_unless before (ltb (word image.now place) held) place }
{
    or_unless(
        before,
        ground::number(word_inside(image, place)) < held,
        place,
    )
}

// "loop x, loop y (both 0 without the bit)"
fn loop_good(flags: u32, n: u32) -> bool
    ensures { result ≡ loop_good flags n }
{
    if flag(flags, layout::SELF_LOOP) {
        n <= MAX_COORDINATE
    } else {
        n == 0
    }
}

// A loop coordinate that breaks its rule.
fn bad_loop_word(before: Option<usize>, image: &[u32], flags: u32, place: usize) -> Option<usize>
    requires { place < length image.now }
    ensures { result ≡ or_unless before (loop_good flags (word image.now place)) place }
{
    or_unless(before, loop_good(flags, word_inside(image, place)), place)
}

fn bad_loop(before: Option<usize>, image: &[u32], at: usize) -> Option<usize>
    requires { at + node_size ≤ length image.now }
    ensures { result ≡ or_words before at node_loop_x (loop_rules (words_at image.now at)) }
{
    let flags = word_inside(image, at + layout::NODE_FLAGS);
    let x = bad_loop_word(before, image, flags, at + layout::NODE_LOOP_X);
    bad_loop_word(x, image, flags, at + layout::NODE_LOOP_Y)
}

// A node, where so many glyphs are held.
pub fn bad_node(image: &[u32], at: usize, glyphs: usize) -> Option<usize>
    requires { at + node_size ≤ length image.now }
    ensures { result ≡ first_bad (judged_words at 0 (node_rules glyphs (words_at image.now at))) }
{
    let extent = four_at_most(None, image, at, MAX_COORDINATE);
    let label = inside(
        extent,
        image,
        at,
        layout::NODE_LABEL_START,
        layout::NODE_LABEL_COUNT,
        glyphs,
    );
    let flags = clear(label, image, at + layout::NODE_FLAGS, layout::NODE_SPARE);
    bad_loop(flags, image, at)
}

// A subgraph, where so many glyphs are held.
pub fn bad_subgraph(image: &[u32], at: usize, glyphs: usize) -> Option<usize>
    requires { at + subgraph_size ≤ length image.now }
    ensures { result ≡ first_bad (judged_words at 0 (subgraph_rules glyphs (words_at image.now at))) }
{
    let extent = four_at_most(None, image, at, MAX_COORDINATE);
    let label = inside(
        extent,
        image,
        at,
        layout::SUBGRAPH_LABEL_START,
        layout::SUBGRAPH_LABEL_COUNT,
        glyphs,
    );
    clear(
        label,
        image,
        at + layout::SUBGRAPH_FLAGS,
        layout::SUBGRAPH_SPARE,
    )
}

// A placed label, where so many edges are held.
pub fn bad_placed_label(image: &[u32], at: usize, edges: usize) -> Option<usize>
    requires { at + label_size ≤ length image.now }
    ensures { result ≡ first_bad (judged_words at 0 (placed_label_rules edges (words_at image.now at))) }
{
    let edge = below(None, image, at + layout::LABEL_EDGE, edges);
    let x = at_most(edge, image, at + layout::LABEL_X, MAX_COORDINATE);
    let y = at_most(x, image, at + layout::LABEL_Y, MAX_COORDINATE);
    clear(y, image, at + layout::LABEL_FLAGS, layout::LABEL_SPARE)
}

// How many things of a kind there are.
fn thing_count(nodes: usize, edges: usize, subgraphs: usize, kind: ElementKind) -> usize
    ensures { result ≡ thing_count nodes edges subgraphs kind }
{
    match kind {
        ElementKind::Node => nodes,
        ElementKind::Edge => edges,
        ElementKind::Subgraph => subgraphs,
    }
}

// "kind (0 Node, 1 Edge, 2 Subgraph)"
fn bad_kind(image: &[u32], place: usize) -> Option<usize>
    requires { place < length image.now }
    ensures { result ≡ or_unless None (at_most (word image.now place) (element_kind_number ElementKind.Subgraph)) place }
{
    at_most(None, image, place, u32::from(ElementKind::Subgraph))
}

// An element's index that leaves the table of its kind.
fn bad_index(
    before: Option<usize>,
    image: &[u32],
    at: usize,
    nodes: usize,
    edges: usize,
    subgraphs: usize,
) -> Option<usize>
    requires { at + element_size ≤ length image.now }
    ensures { result ≡ or_unless before (ltb (word image.now (at + element_index)) (thing_count nodes edges subgraphs (element_kind_of (word image.now (at + element_kind))))) (at + element_index) }
{
    let kind = ElementKind::from(word_inside(image, at + layout::ELEMENT_KIND));
    let held = thing_count(nodes, edges, subgraphs, kind);
    below(before, image, at + layout::ELEMENT_INDEX, held)
}

// An element, where so many nodes, edges and subgraphs are held.
pub fn bad_element(
    image: &[u32],
    at: usize,
    nodes: usize,
    edges: usize,
    subgraphs: usize,
) -> Option<usize>
    requires { at + element_size ≤ length image.now }
    ensures { result ≡ first_bad (judged_words at 0 (element_rules nodes edges subgraphs (words_at image.now at))) }
{
    let kind = bad_kind(image, at + layout::ELEMENT_KIND);
    let index = bad_index(kind, image, at, nodes, edges, subgraphs);
    let first = at_most(index, image, at + layout::ELEMENT_FIRST_ROW, MAX_COORDINATE);
    at_most(first, image, at + layout::ELEMENT_LAST_ROW, MAX_COORDINATE)
}

pub fn bad_point(image: &[u32], at: usize) -> Option<usize>
    requires { at + point_size ≤ length image.now }
    ensures { result ≡ first_bad (judged_words at 0 (point_rules (words_at image.now at))) }
{
    let x = at_most(None, image, at + layout::POINT_X, MAX_COORDINATE);
    at_most(x, image, at + layout::POINT_Y, MAX_COORDINATE)
}

// "a Unicode scalar value"
fn scalar_good(n: u32) -> bool
    ensures { result ≡ scalar_good n }
{
    (n < layout::FIRST_SURROGATE) | ((layout::LAST_SURROGATE < n) & (n <= MAX_SCALAR))
}

pub fn bad_glyph(image: &[u32], at: usize) -> Option<usize>
    requires { at + glyph_size ≤ length image.now }
    ensures { result ≡ first_bad (judged_words at 0 (glyph_rules (words_at image.now at))) }
{
    let good = scalar_good(word_inside(image, at + layout::GLYPH_VALUE));
    or_unless(None, good, at + layout::GLYPH_VALUE)
}

// "width 0 or 2"
fn width_good(n: u32) -> bool
    ensures { result ≡ width_good n }
{
    (n == 0) | (n == 2)
}

pub fn bad_range_words(image: &[u32], at: usize) -> Option<usize>
    requires { at + range_size ≤ length image.now }
    ensures { result ≡ first_bad (judged_words at 0 (range_rules (words_at image.now at))) }
{
    let first = at_most(None, image, at + layout::RANGE_FIRST, MAX_SCALAR);
    let last = at_most(first, image, at + layout::RANGE_LAST, MAX_SCALAR);
    let good = width_good(word_inside(image, at + layout::RANGE_WIDTH));
    or_unless(last, good, at + layout::RANGE_WIDTH)
}
