// Code 4 for one word: what a word of a record may hold, with the numbers of this image that decide it, and which parts of an edge's flags break theirs.
#![tactic(auto)]

ghost use Rattle.std.specs.Prelude.{◌≡◌, ◌<◌};
ghost use Rattle.layout.specs.Fields.{table_of};
ghost use Rattle.layout.specs.Tables.{tables_of, record_at};
ghost use Rattle.header.specs.InTurn.{words_at};
ghost use Rattle.word_rules.specs.Rules.{loop_rule, node_rule, path_rules, label_start_rule, label_count_rule, edge_rule};
ghost use Rattle.word_rules.specs.Rules.{subgraph_rule, placed_label_rule, index_rule, element_rule, range_rule, word_rule};
ghost use Rattle.word_rules.specs.Faults.{flag_faults};

use image::ElementKind;
use layout::{RecordKind, flag, word};

// What a word of a record may hold.
#[derive(Clone, Copy)]
pub enum WordRule {
    // any number: a colour, or a count of which its start is told
    Any,
    // a coordinate, an extent, a row or an offset: at most 32,767
    Within,
    // only 0: it is not used
    Zero,
    // an index: less than a table's count
    Below {
        // what the table holds
        of: RecordKind,
        // how many of them
        held: usize,
    },
    // the start of a span: with the span's count at most the table's
    Span {
        // what the table holds
        of: RecordKind,
        // how many of them the span has
        count: u32,
        // how many of them there are
        held: usize,
    },
    // flags: the bits below the one of this value are spare
    Flags(u32),
    // an edge's flags: a path, a weight and no spare bit
    EdgeFlags,
    // an element's kind
    Kind,
    // a glyph: a Unicode scalar value
    Scalar,
    // an end of a width range: at most 10FFFF
    RangeEnd,
    // a width range's width: 0 or 2
    Width,
}

// The rules of an edge's a, b and c.
#[derive(Clone, Copy)]
pub struct PathRules {
    // a bend, a channel, a first point, or unused
    pub a: WordRule,
    // a span's start, a count of points, or unused
    pub b: WordRule,
    // a span's end, a start offset, or unused
    pub c: WordRule,
}

// Which parts of an edge's flags break their rule.
#[derive(Clone, Copy)]
pub struct FlagFaults {
    // the path is none of 0 to 5
    pub path: bool,
    // the weight is 0
    pub weight: bool,
    // the spare bits that are set
    pub spare: u32,
}

// "path 3 bits (0 Direct, .., 5 Spline) .. weight 2 (1 Dashed, 2 Light, 3 Double)", and "spare bits are 0"
pub fn flag_faults(flags: u32) -> FlagFaults
    ensures { result ≡ flag_faults flags }
{
    FlagFaults {
        path: layout::PATH_SPLINE < edge_rules::path_number(flags),
        weight: edge_rules::weight_number(flags) == 0,
        spare: flags % layout::EDGE_SPARE,
    }
}

// "loop x, loop y (both 0 without the bit)"
fn loop_rule(flags: u32) -> WordRule
    ensures { result ≡ loop_rule flags }
{
    if flag(flags, layout::SELF_LOOP) {
        WordRule::Within
    } else {
        WordRule::Zero
    }
}

// A field of the node that begins at a place.
fn node_rule(image: &[u32], at: usize, glyphs: usize, field: usize) -> WordRule
    requires { at < 0x1000000000000 }
    ensures { result ≡ node_rule glyphs (words_at image.now at) field }
{
    match field {
        layout::NODE_LABEL_START => WordRule::Span {
            of: RecordKind::Glyph,
            count: word(image, at + layout::NODE_LABEL_COUNT),
            held: glyphs,
        },
        layout::NODE_LABEL_COUNT => WordRule::Any,
        layout::NODE_FLAGS => WordRule::Flags(layout::NODE_SPARE),
        layout::NODE_LOOP_X | layout::NODE_LOOP_Y => {
            loop_rule(word(image, at + layout::NODE_FLAGS))
        }
        _ => WordRule::Within,
    }
}

// The rules of a, b and c for a path, b being this count.
fn path_rules(points: usize, path: u32, count: u32) -> PathRules
    ensures { result ≡ path_rules points path count }
{
    let through = WordRule::Span {
        of: RecordKind::Point,
        count,
        held: points,
    };
    match path {
        layout::PATH_CORNER => PathRules {
            a: WordRule::Within,
            b: WordRule::Zero,
            c: WordRule::Zero,
        },
        layout::PATH_SIDE_CHANNEL => PathRules {
            a: WordRule::Within,
            b: WordRule::Within,
            c: WordRule::Within,
        },
        layout::PATH_MULTI_SEGMENT => PathRules {
            a: through,
            b: WordRule::Any,
            c: WordRule::Within,
        },
        layout::PATH_ORTHOGONAL => PathRules {
            a: through,
            b: WordRule::Any,
            c: WordRule::Zero,
        },
        _ => PathRules {
            a: WordRule::Zero,
            b: WordRule::Zero,
            c: WordRule::Zero,
        },
    }
}

// "label present 1 (else start and count 0)"
fn label_start_rule(glyphs: usize, flags: u32, count: u32) -> WordRule
    ensures { result ≡ label_start_rule glyphs flags count }
{
    if flag(flags, layout::LABEL_PRESENT) {
        WordRule::Span {
            of: RecordKind::Glyph,
            count,
            held: glyphs,
        }
    } else {
        WordRule::Zero
    }
}

fn label_count_rule(flags: u32) -> WordRule
    ensures { result ≡ label_count_rule flags }
{
    if flag(flags, layout::LABEL_PRESENT) {
        WordRule::Any
    } else {
        WordRule::Zero
    }
}

// A field of the edge that begins at a place.
fn edge_rule(image: &[u32], at: usize, points: usize, glyphs: usize, field: usize) -> WordRule
    requires { at < 0x1000000000000 }
    ensures { result ≡ edge_rule points glyphs (words_at image.now at) field }
{
    let flags = word(image, at + layout::EDGE_FLAGS);
    let count = word(image, at + layout::EDGE_B);
    let path = path_rules(points, edge_rules::path_number(flags), count);
    let letters = word(image, at + layout::EDGE_LABEL_COUNT);
    match field {
        layout::EDGE_FLAGS => WordRule::EdgeFlags,
        layout::EDGE_A => path.a,
        layout::EDGE_B => path.b,
        layout::EDGE_C => path.c,
        layout::EDGE_LABEL_START => label_start_rule(glyphs, flags, letters),
        layout::EDGE_LABEL_COUNT => label_count_rule(flags),
        layout::EDGE_COLOUR | layout::EDGE_LABEL_COLOUR => WordRule::Any,
        _ => WordRule::Within,
    }
}

// A field of the subgraph that begins at a place.
fn subgraph_rule(image: &[u32], at: usize, glyphs: usize, field: usize) -> WordRule
    requires { at < 0x1000000000000 }
    ensures { result ≡ subgraph_rule glyphs (words_at image.now at) field }
{
    match field {
        layout::SUBGRAPH_LABEL_START => WordRule::Span {
            of: RecordKind::Glyph,
            count: word(image, at + layout::SUBGRAPH_LABEL_COUNT),
            held: glyphs,
        },
        layout::SUBGRAPH_LABEL_COUNT => WordRule::Any,
        layout::SUBGRAPH_FLAGS => WordRule::Flags(layout::SUBGRAPH_SPARE),
        layout::SUBGRAPH_COLOUR => WordRule::Any,
        _ => WordRule::Within,
    }
}

fn placed_label_rule(edges: usize, field: usize) -> WordRule
    ensures { result ≡ placed_label_rule edges field }
{
    match field {
        layout::LABEL_EDGE => WordRule::Below {
            of: RecordKind::Edge,
            held: edges,
        },
        layout::LABEL_FLAGS => WordRule::Flags(layout::LABEL_SPARE),
        _ => WordRule::Within,
    }
}

// The index of an element that lists a thing of this kind.
fn index_rule(kind: ElementKind, nodes: usize, edges: usize, subgraphs: usize) -> WordRule
    ensures { result ≡ index_rule kind nodes edges subgraphs }
{
    match kind {
        ElementKind::Node => WordRule::Below {
            of: RecordKind::Node,
            held: nodes,
        },
        ElementKind::Edge => WordRule::Below {
            of: RecordKind::Edge,
            held: edges,
        },
        ElementKind::Subgraph => WordRule::Below {
            of: RecordKind::Subgraph,
            held: subgraphs,
        },
    }
}

// A field of an element whose kind is this number.
fn element_rule(number: u32, nodes: usize, edges: usize, subgraphs: usize, field: usize) -> WordRule
    ensures { result ≡ element_rule number nodes edges subgraphs field }
{
    match field {
        layout::ELEMENT_KIND => WordRule::Kind,
        layout::ELEMENT_INDEX => index_rule(ElementKind::from(number), nodes, edges, subgraphs),
        _ => WordRule::Within,
    }
}

fn range_rule(field: usize) -> WordRule
    ensures { result ≡ range_rule field }
{
    if field == layout::RANGE_WIDTH {
        WordRule::Width
    } else {
        WordRule::RangeEnd
    }
}

// What a field of record k of a kind may hold.
pub fn rule_of(image: &[u32], kind: RecordKind, k: usize, field: usize) -> WordRule
    requires { k < 4294967296 }
    ensures { result ≡ word_rule kind (tables_of image.now) (words_at image.now (record_at (table_of kind (tables_of image.now)) k)) field }
{
    let ts = layout::tables_of(image);
    let at = layout::record_at(layout::table_of(kind, ts), k);
    let nodes = ts.nodes.count;
    let edges = ts.edges.count;
    let subgraphs = ts.subgraphs.count;
    let points = ts.points.count;
    let glyphs = ts.glyphs.count;
    match kind {
        RecordKind::Node => node_rule(image, at, glyphs, field),
        RecordKind::Edge => edge_rule(image, at, points, glyphs, field),
        RecordKind::Subgraph => subgraph_rule(image, at, glyphs, field),
        RecordKind::PlacedLabel => placed_label_rule(edges, field),
        RecordKind::Element => {
            let number = word(image, at + layout::ELEMENT_KIND);
            element_rule(number, nodes, edges, subgraphs, field)
        }
        RecordKind::Point => WordRule::Within,
        RecordKind::Glyph => WordRule::Scalar,
        RecordKind::Range => range_rule(field),
    }
}
