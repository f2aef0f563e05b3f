// The names of records and their fields, and how a number and a bit are said.
use image::ElementKind;
use layout::RecordKind;

// A kind of record.
pub fn record(kind: RecordKind) -> &'static str {
    match kind {
        RecordKind::Node => "node",
        RecordKind::Edge => "edge",
        RecordKind::Subgraph => "subgraph",
        RecordKind::PlacedLabel => "placed label",
        RecordKind::Element => "element",
        RecordKind::Point => "point",
        RecordKind::Glyph => "glyph",
        RecordKind::Range => "width range",
    }
}

// What an element lists.
pub fn element(kind: ElementKind) -> &'static str {
    match kind {
        ElementKind::Node => "node",
        ElementKind::Edge => "edge",
        ElementKind::Subgraph => "subgraph",
    }
}

// One of some names, counted from 0; past the last one it is empty.
fn nth(names: &[&'static str], k: usize) -> &'static str {
    names.get(k).copied().unwrap_or("")
}

const HEADER_FIELDS: [&str; layout::HEADER_SIZE] = [
    "width",
    "height",
    "run capacity",
    "flags",
    "node count",
    "edge count",
    "subgraph count",
    "placed label count",
    "element count",
    "point count",
    "glyph count",
    "width range count",
];

pub fn header_field(field: usize) -> &'static str {
    nth(&HEADER_FIELDS, field)
}

const NODE_FIELDS: [&str; layout::NODE_SIZE] = [
    "x",
    "y",
    "width",
    "height",
    "label start",
    "label count",
    "flags",
    "loop x",
    "loop y",
];

const EDGE_FIELDS: [&str; layout::EDGE_SIZE] = [
    "from x",
    "from y",
    "to x",
    "to y",
    "flags",
    "a",
    "b",
    "c",
    "label start",
    "label count",
    "colour",
    "label colour",
];

const SUBGRAPH_FIELDS: [&str; layout::SUBGRAPH_SIZE] = [
    "x",
    "y",
    "width",
    "height",
    "label start",
    "label count",
    "flags",
    "colour",
];

// A field of a record of a kind.
pub fn field(kind: RecordKind, field: usize) -> &'static str {
    match kind {
        RecordKind::Node => nth(&NODE_FIELDS, field),
        RecordKind::Edge => nth(&EDGE_FIELDS, field),
        RecordKind::Subgraph => nth(&SUBGRAPH_FIELDS, field),
        RecordKind::PlacedLabel => nth(&["edge", "x", "y", "flags"], field),
        RecordKind::Element => nth(&["kind", "index", "first row", "last row"], field),
        RecordKind::Point => nth(&["x", "y"], field),
        RecordKind::Glyph => nth(&["value"], field),
        RecordKind::Range => nth(&["first", "last", "width"], field),
    }
}

// A path by its number, if there is one of this number.
pub fn path(path: u32) -> Option<&'static str> {
    match path {
        layout::PATH_DIRECT => Some("Direct"),
        layout::PATH_CORNER => Some("Corner"),
        layout::PATH_SIDE_CHANNEL => Some("SideChannel"),
        layout::PATH_MULTI_SEGMENT => Some("MultiSegment"),
        layout::PATH_ORTHOGONAL => Some("Orthogonal"),
        layout::PATH_SPLINE => Some("Spline"),
        _ => None,
    }
}

// What a path has in word a, b or c of its edge; of two words together it is said with the first.
pub fn path_word(path: u32, word: usize) -> &'static str {
    match (path, word) {
        (layout::PATH_CORNER, layout::EDGE_A) => " has its bend there",
        (layout::PATH_SIDE_CHANNEL, layout::EDGE_A) => " has its channel there",
        (layout::PATH_SIDE_CHANNEL, layout::EDGE_B) => " has its span start there",
        (layout::PATH_SIDE_CHANNEL, layout::EDGE_C) => " has its span end there",
        (layout::PATH_MULTI_SEGMENT | layout::PATH_ORTHOGONAL, layout::EDGE_A) => {
            " has its first point and its count of points there"
        }
        (layout::PATH_MULTI_SEGMENT | layout::PATH_ORTHOGONAL, layout::EDGE_B) => "",
        (layout::PATH_MULTI_SEGMENT, layout::EDGE_C) => " has its start offset there",
        _ => " does not use it",
    }
}

// What follows a counted noun.
pub fn plural(count: usize) -> &'static str {
    if count == 1 { "" } else { "s" }
}

pub fn bit(set: bool) -> &'static str {
    if set { "set" } else { "not set" }
}
