// The layout of a sheet image: its numbers by name, its words, where its tables stand, and which field stands at a place. Every reader but `word_inside`
// and `field_inside` takes any words: a word past the end reads 0.
#![tactic(auto)]

ghost use Rattle.std.specs.Prelude.{◌≡◌, ◌+◌, ◌*◌, ◌≤◌, ◌<◌, length};
ghost use Rattle.layout.specs.Tables.{word, bits, flag, table_end, tables_of, record_at, place_of, field};
ghost use Rattle.layout.specs.Fields.{table_of, field_in, field_in_or, field_past_labels, field_at};
ghost use Rattle.layout.specs.Small.{Small, Follows, AllSmall};

// "Header, 12 words": width, height, run capacity, flags, then the counts of the eight tables in their order
pub const HEADER_WIDTH: usize = 0;

pub const HEADER_HEIGHT: usize = 1;

pub const HEADER_RUNS: usize = 2;

pub const HEADER_FLAGS: usize = 3;

pub const HEADER_NODES: usize = 4;

pub const HEADER_EDGES: usize = 5;

pub const HEADER_SUBGRAPHS: usize = 6;

pub const HEADER_LABELS: usize = 7;

pub const HEADER_ELEMENTS: usize = 8;

pub const HEADER_POINTS: usize = 9;

pub const HEADER_GLYPHS: usize = 10;

pub const HEADER_RANGES: usize = 11;

pub const HEADER_SIZE: usize = 12;

// the most that each header word may be: "width (0..1,024), height (0..32,767), run capacity (0..16,384) .. counts:
// nodes, edges, subgraphs, placed labels (each to 1,024), elements (3,072), points (8,192), glyphs (16,384), width
// ranges (1,024)"
pub const MAX_WIDTH: u32 = 1024;

pub const MAX_HEIGHT: u32 = 32767;

pub const MAX_RUNS: u32 = 16384;

pub const MAX_THINGS: u32 = 1024;

pub const MAX_ELEMENTS: u32 = 3072;

pub const MAX_POINTS: u32 = 8192;

pub const MAX_GLYPHS: u32 = 16384;

pub const MAX_RANGES: u32 = 1024;

// "Coordinates, extents, rows and offsets are at most 32,767."
pub const MAX_COORDINATE: u32 = 32767;

// "a Unicode scalar value": to 10FFFF, and no surrogate
pub const MAX_SCALAR: u32 = 0x10FFFF;

pub const FIRST_SURROGATE: u32 = 0xD800;

pub const LAST_SURROGATE: u32 = 0xDFFF;

// The words of each record, in the order of its fields.

// "node, 9"
pub const NODE_X: usize = 0;

pub const NODE_Y: usize = 1;

pub const NODE_WIDTH: usize = 2;

pub const NODE_HEIGHT: usize = 3;

pub const NODE_LABEL_START: usize = 4;

pub const NODE_LABEL_COUNT: usize = 5;

pub const NODE_FLAGS: usize = 6;

pub const NODE_LOOP_X: usize = 7;

pub const NODE_LOOP_Y: usize = 8;

pub const NODE_SIZE: usize = 9;

// "edge, 12"
pub const EDGE_FROM_X: usize = 0;

pub const EDGE_FROM_Y: usize = 1;

pub const EDGE_TO_X: usize = 2;

pub const EDGE_TO_Y: usize = 3;

pub const EDGE_FLAGS: usize = 4;

pub const EDGE_A: usize = 5;

pub const EDGE_B: usize = 6;

pub const EDGE_C: usize = 7;

pub const EDGE_LABEL_START: usize = 8;

pub const EDGE_LABEL_COUNT: usize = 9;

pub const EDGE_COLOUR: usize = 10;

pub const EDGE_LABEL_COLOUR: usize = 11;

pub const EDGE_SIZE: usize = 12;

// "subgraph, 8"
pub const SUBGRAPH_X: usize = 0;

pub const SUBGRAPH_Y: usize = 1;

pub const SUBGRAPH_WIDTH: usize = 2;

pub const SUBGRAPH_HEIGHT: usize = 3;

pub const SUBGRAPH_LABEL_START: usize = 4;

pub const SUBGRAPH_LABEL_COUNT: usize = 5;

pub const SUBGRAPH_FLAGS: usize = 6;

pub const SUBGRAPH_COLOUR: usize = 7;

pub const SUBGRAPH_SIZE: usize = 8;

// "placed label, 4"
pub const LABEL_EDGE: usize = 0;

pub const LABEL_X: usize = 1;

pub const LABEL_Y: usize = 2;

pub const LABEL_FLAGS: usize = 3;

pub const LABEL_SIZE: usize = 4;

// "element, 4"
pub const ELEMENT_KIND: usize = 0;

pub const ELEMENT_INDEX: usize = 1;

pub const ELEMENT_FIRST_ROW: usize = 2;

pub const ELEMENT_LAST_ROW: usize = 3;

pub const ELEMENT_SIZE: usize = 4;

// how many kinds there are: "0 Node, 1 Edge, 2 Subgraph"
pub const ELEMENT_KINDS: usize = 3;

// "point, 2: x, y. Glyph, 1"
pub const POINT_X: usize = 0;

pub const POINT_Y: usize = 1;

pub const POINT_SIZE: usize = 2;

pub const GLYPH_VALUE: usize = 0;

pub const GLYPH_SIZE: usize = 1;

// "Width range, 3: first, last, width"
pub const RANGE_FIRST: usize = 0;

pub const RANGE_LAST: usize = 1;

pub const RANGE_WIDTH: usize = 2;

pub const RANGE_SIZE: usize = 3;

// "Flag fields are packed from bit 31 down": a flag of one bit by the value of that bit; a number of more bits by the
// value of its lowest bit, its step, and by how many values its bits have; "spare bits are 0": the bits below the value
// that ends in SPARE.

// header flags: "label policy 1 bit: 0 Geometric, 1 AvoidNodeRows; show dummies 1 bit"
pub const AVOID_NODE_ROWS: u32 = 0x8000_0000;

pub const SHOW_DUMMIES: u32 = 0x4000_0000;

pub const HEADER_SPARE: u32 = 0x4000_0000;

// node flags: "kind 2 bits: 0 simple, 1 boxed, 2 blank, 3 dummy; self-loop 1 bit"
pub const NODE_KIND_STEP: u32 = 0x4000_0000;

pub const NODE_KINDS: u32 = 4;

pub const SELF_LOOP: u32 = 0x2000_0000;

pub const NODE_SPARE: u32 = 0x2000_0000;

// edge flags: "path 3 bits .. flow axis 1 (0 Y, 1 X), reversed 1, start marker 1, end marker 1, weight 2 (1 Dashed, 2
// Light, 3 Double), label present 1"
pub const PATH_STEP: u32 = 0x2000_0000;

pub const PATHS: u32 = 8;

pub const FLOW_X: u32 = 0x1000_0000;

pub const REVERSED: u32 = 0x0800_0000;

pub const START_MARKER: u32 = 0x0400_0000;

pub const END_MARKER: u32 = 0x0200_0000;

pub const WEIGHT_STEP: u32 = 0x0080_0000;

pub const WEIGHTS: u32 = 4;

pub const LABEL_PRESENT: u32 = 0x0040_0000;

pub const EDGE_SPARE: u32 = 0x0040_0000;

// "0 Direct, 1 Corner, 2 SideChannel, 3 MultiSegment, 4 Orthogonal, 5 Spline"
pub const PATH_DIRECT: u32 = 0;

pub const PATH_CORNER: u32 = 1;

pub const PATH_SIDE_CHANNEL: u32 = 2;

pub const PATH_MULTI_SEGMENT: u32 = 3;

pub const PATH_ORTHOGONAL: u32 = 4;

pub const PATH_SPLINE: u32 = 5;

// subgraph flags: "border 2 bits, 0 none, else as edge weight; label position 1 bit, 0 InsideTop, 1 InsideBottom"
pub const BORDER_STEP: u32 = 0x4000_0000;

pub const BORDERS: u32 = 4;

pub const INSIDE_BOTTOM: u32 = 0x2000_0000;

pub const SUBGRAPH_SPARE: u32 = 0x2000_0000;

// placed label flags: "placeable, row has node"
pub const PLACEABLE: u32 = 0x8000_0000;

pub const ROW_HAS_NODE: u32 = 0x4000_0000;

pub const LABEL_SPARE: u32 = 0x4000_0000;

pub fn word(image: &[u32], place: usize) -> u32
    ensures { result ≡ word image.now place }
{
    if place < image.len() { image[place] } else { 0 }
}

// A word that is there.
pub fn word_inside(image: &[u32], place: usize) -> u32
    requires { place < length image.now }
    ensures { result ≡ word image.now place }
{
    image[place]
}

// The number that stands at the bits from this step up.
pub fn bits(flags: u32, step: u32, values: u32) -> u32
    requires { (0 < step) × (0 < values) }
    ensures { result ≡ bits flags step values }
{
    flags / step % values
}

// Whether the flag at the bit of this value is set.
pub fn flag(flags: u32, bit: u32) -> bool
    requires { 0 < bit }
    ensures { result ≡ flag flags bit }
{
    flags / bit % 2 == 1
}

// A table: records of one size, side by side.
#[derive(Clone, Copy)]
pub struct Table {
    // the place of its first word
    pub start: usize,
    // how many records it has
    pub count: usize,
    // how many words each record has
    pub size: usize,
}

// The eight tables, in the order in which they stand.
#[derive(Clone, Copy)]
pub struct Tables {
    // what edges join
    pub nodes: Table,
    // what is drawn between nodes
    pub edges: Table,
    // the borders round groups of nodes
    pub subgraphs: Table,
    // where edges' labels are placed
    pub labels: Table,
    // which rows each thing may touch
    pub elements: Table,
    // what edges' paths go through
    pub points: Table,
    // what labels are made of
    pub glyphs: Table,
    // how wide glyphs are
    pub ranges: Table,
}

// Where record k begins.
pub fn record_at(table: Table, k: usize) -> usize
    requires { Small table × (k < 4294967296) }
    ensures { (result ≡ record_at table k) × (result ≤ table.start + 0x1000000000) }
{
    table.start + k * table.size
}

pub fn table_end(table: Table) -> usize
    requires { Small table }
    ensures { (result ≡ table_end table) × (result ≤ table.start + 0x1000000000) }
{
    record_at(table, table.count)
}

// The table that follows, whose count stands in this word of the header.
fn table_after(before: Table, image: &[u32], counted: usize, size: usize) -> Table
    requires { Small before }
    ensures { Follows before (word image.now counted) size result }
{
    Table {
        start: table_end(before),
        count: ground::number(word(image, counted)),
        size,
    }
}

// "Tables follow in that order": the one place that knows where each begins and how long its records are.
pub fn tables_of(image: &[u32]) -> Tables
    ensures value { result ≡ tables_of image.now }
    ensures all_small { AllSmall result }
{
    let header = Table {
        start: 0,
        count: 1,
        size: HEADER_SIZE,
    };
    let nodes = table_after(header, image, HEADER_NODES, NODE_SIZE);
    let edges = table_after(nodes, image, HEADER_EDGES, EDGE_SIZE);
    let subgraphs = table_after(edges, image, HEADER_SUBGRAPHS, SUBGRAPH_SIZE);
    let labels = table_after(subgraphs, image, HEADER_LABELS, LABEL_SIZE);
    let elements = table_after(labels, image, HEADER_ELEMENTS, ELEMENT_SIZE);
    let points = table_after(elements, image, HEADER_POINTS, POINT_SIZE);
    let glyphs = table_after(points, image, HEADER_GLYPHS, GLYPH_SIZE);
    let ranges = table_after(glyphs, image, HEADER_RANGES, RANGE_SIZE);
    Tables {
        nodes,
        edges,
        subgraphs,
        labels,
        elements,
        points,
        glyphs,
        ranges,
    }
}

// Where a field of record k stands.
pub fn place_of(table: Table, k: usize, offset: usize) -> usize
    requires { Small table × (k < 4294967296) × (offset ≤ 16) }
    ensures { result ≡ place_of table k offset }
{
    record_at(table, k) + offset
}

// A field of record k.
pub fn field(image: &[u32], table: Table, k: usize, offset: usize) -> u32
    requires { Small table × (k < 4294967296) × (offset ≤ 16) }
    ensures { result ≡ field image.now table k offset }
{
    word(image, place_of(table, k, offset))
}

// A field of a record that is there.
pub fn field_inside(image: &[u32], table: Table, k: usize, offset: usize) -> u32
    requires { Small table × (table_end table ≤ length image.now) × (k < table.count) × (offset < table.size) }
    ensures { result ≡ field image.now table k offset }
{
    word_inside(image, place_of(table, k, offset))
}

// What a table holds.
#[derive(Clone, Copy)]
pub enum RecordKind {
    // a node
    Node,
    // an edge
    Edge,
    // a subgraph
    Subgraph,
    // where an edge's label is placed
    PlacedLabel,
    // the listing of one thing
    Element,
    // a point of a path
    Point,
    // a glyph of a label
    Glyph,
    // a width range
    Range,
}

pub fn table_of(kind: RecordKind, ts: Tables) -> Table
    requires { AllSmall ts }
    ensures { (result ≡ table_of kind ts) × Small result }
{
    match kind {
        RecordKind::Node => ts.nodes,
        RecordKind::Edge => ts.edges,
        RecordKind::Subgraph => ts.subgraphs,
        RecordKind::PlacedLabel => ts.labels,
        RecordKind::Element => ts.elements,
        RecordKind::Point => ts.points,
        RecordKind::Glyph => ts.glyphs,
        RecordKind::Range => ts.ranges,
    }
}

// What stands at a place of an image.
#[derive(Clone, Copy)]
pub enum FieldName {
    // a word of the header
    Header(usize),
    // a field of a record, both counted from 0
    Record {
        // what kind of record
        kind: RecordKind,
        // which record of its table
        index: usize,
        // which field of the record
        field: usize,
    },
    // past the last table
    Past,
}

// The record and the field at a place of its table.
fn field_in(kind: RecordKind, table: Table, place: usize) -> FieldName
    requires { 0 < table.size }
    ensures { result ≡ field_in kind table place }
{
    let size = table.size;
    let words = ground::minus(place, table.start);
    FieldName::Record {
        kind,
        index: words / size,
        field: words % size,
    }
}

// The field in this kind's table, where the place lies before its end.
fn field_in_or(kind: RecordKind, table: Table, place: usize, later: FieldName) -> FieldName
    requires { Small table }
    ensures { result ≡ field_in_or kind table place later }
{
    if place < table_end(table) {
        if 0 < table.size {
            return field_in(kind, table, place);
        }
    }
    later
}

// The field at a place past the placed labels.
fn field_past_labels(ts: Tables, place: usize) -> FieldName
    requires { AllSmall ts }
    ensures { result ≡ field_past_labels ts place }
{
    let ranges = field_in_or(RecordKind::Range, ts.ranges, place, FieldName::Past);
    let glyphs = field_in_or(RecordKind::Glyph, ts.glyphs, place, ranges);
    let points = field_in_or(RecordKind::Point, ts.points, place, glyphs);
    field_in_or(RecordKind::Element, ts.elements, place, points)
}

// Which field stands at a place: what a refusal's place means to a planner's author.
pub fn field_at(ts: Tables, place: usize) -> FieldName
    requires { AllSmall ts }
    ensures { result ≡ field_at ts place }
{
    if place < HEADER_SIZE {
        return FieldName::Header(place);
    }
    let later = field_past_labels(ts, place);
    let labels = field_in_or(RecordKind::PlacedLabel, ts.labels, place, later);
    let subgraphs = field_in_or(RecordKind::Subgraph, ts.subgraphs, place, labels);
    let edges = field_in_or(RecordKind::Edge, ts.edges, place, subgraphs);
    field_in_or(RecordKind::Node, ts.nodes, place, edges)
}
