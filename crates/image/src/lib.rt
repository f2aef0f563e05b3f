// The sheet image's records by value, and parts of its tables as slices. Every reader takes any words: a word past the end reads 0, and a span that leaves
// its table is the empty part.
#![tactic(auto)]

ghost use Rattle.std.specs.Prelude.{◌≡◌, ◌+◌, ◌*◌, ◌/◌, ◌≤◌, ◌<◌, length};
ghost use Rattle.layout.specs.Layout.{point_size, element_kinds};
ghost use Rattle.layout.specs.Tables.{bits, flag};
ghost use Rattle.layout.specs.Small.{Small};
ghost use Rattle.layout.specs.Layout.{avoid_node_rows, node_kind_step, node_kinds, self_loop, path_step, paths, flow_x, label_present, inside_bottom};
ghost use Rattle.image.specs.Records.{policy_of, header_of, node_kind_of, self_loop_of, node_at, path_of, axis_of, edge_label_of, edge_at};
ghost use Rattle.image.specs.Records.{position_of, subgraph_at, placed_label_at, element_kind_of, element_kind_number, element_at};
ghost use Rattle.image.specs.Spans.{span_words, path_span, points_of, table_words, point_count, point_at};
ghost use Rattle.image.specs.Parts.{four_at, style_of, Bounded};

use cell::Weight;
use layout::{Table, bits, field, flag};

// When a placed label is painted.
#[derive(Clone, Copy)]
pub enum LabelPolicy {
    // where it is placeable
    Geometric,
    // where it is placeable and its row has no node
    AvoidNodeRows,
}

// What the header says of the sheet.
#[derive(Clone, Copy)]
pub struct Header {
    // columns of the sheet
    pub width: u32,
    // rows of the sheet
    pub height: u32,
    // how many runs the scratch has room for
    pub run_capacity: u32,
    // when placed labels are painted
    pub policy: LabelPolicy,
    // whether dummy nodes are painted
    pub show_dummies: bool,
}

// The four words of record k from an offset on.
fn four_at(image: &[u32], table: Table, k: usize, from: usize) -> (u32, u32, u32, u32)
    requires { Small table × (k < 4294967296) × (from ≤ 12) }
    ensures { result ≡ four_at image.now table k from }
{
    let at = layout::record_at(table, k) + from;
    // nearly always all four are there, so that is asked first
    if at + 3 < image.len() {
        return (image[at], image[at + 1], image[at + 2], image[at + 3]);
    }
    (
        field(image, table, k, from),
        field(image, table, k, from + 1),
        field(image, table, k, from + 2),
        field(image, table, k, from + 3),
    )
}

fn policy_of(flags: u32) -> LabelPolicy
    ensures { result ≡ policy_of (flag flags avoid_node_rows) }
{
    if flag(flags, layout::AVOID_NODE_ROWS) {
        LabelPolicy::AvoidNodeRows
    } else {
        LabelPolicy::Geometric
    }
}

pub fn header_of(image: &[u32]) -> Header
    ensures { result ≡ header_of image.now }
{
    let header = Table {
        start: 0,
        count: 1,
        size: layout::HEADER_SIZE,
    };
    let (width, height, run_capacity, flags) = four_at(image, header, 0, layout::HEADER_WIDTH);
    Header {
        width,
        height,
        run_capacity,
        policy: policy_of(flags),
        show_dummies: flag(flags, layout::SHOW_DUMMIES),
    }
}

// A part of a table.
#[derive(Clone, Copy)]
pub struct Span {
    // the first of its records
    pub start: u32,
    // how many records it has
    pub count: u32,
}

// Where a part of the image begins and ends.
#[derive(Clone, Copy)]
struct Bounds {
    // its first word
    first: usize,
    // the place past its last word
    end: usize,
}

// The bounds of a span's records in an image of so many words, or of the empty part where the span leaves its table or the table the image.
fn span_bounds(table: Table, span: Span, length: usize) -> Bounds
    requires { Small table }
    ensures { Bounded table span length result }
{
    let start = ground::number(span.start);
    let count = ground::number(span.count);
    let held = table.count;
    if start + count <= held {
        if layout::table_end(table) <= length {
            return Bounds {
                first: layout::record_at(table, start),
                end: layout::record_at(table, start + count),
            };
        }
    }
    Bounds { first: 0, end: 0 }
}

// The words of a span's records, or the empty part where the span leaves its table or the table the image.
pub fn span_words(image: &[u32], table: Table, span: Span) -> &[u32]
    requires { Small table }
    ensures { result.now ≡ span_words image.now table span }
{
    let bounds = span_bounds(table, span, image.len());
    &image[bounds.first..bounds.end]
}

// How a node looks.
#[derive(Clone, Copy)]
pub enum NodeKind {
    // its label in brackets
    Simple,
    // its label in a box, where there is room
    Boxed,
    // nothing of its own
    Blank,
    // a marker on an edge's way, where dummies are shown
    Dummy,
}

// A cell of the sheet.
#[derive(Clone, Copy)]
pub struct Point {
    // its column
    pub x: u32,
    // its row
    pub y: u32,
}

// A node of the diagram: a gear stage.
#[derive(Clone, Copy)]
pub struct Node {
    // left column
    pub x: u32,
    // top row
    pub y: u32,
    // columns
    pub width: u32,
    // rows
    pub height: u32,
    // the glyphs of its label
    pub label: Span,
    // how it looks
    pub kind: NodeKind,
    // the marker of its edge to itself, where it has one
    pub self_loop: Option<Point>,
}

// A number that no other kind has is a dummy's.
impl From<u32> for NodeKind {
    ghost from_gives = { λ number kind. kind ≡ node_kind_of number };

    fn from(number: u32) -> NodeKind {
        match number {
            0 => NodeKind::Simple,
            1 => NodeKind::Boxed,
            2 => NodeKind::Blank,
            _ => NodeKind::Dummy,
        }
    }
}

fn self_loop_of(flags: u32, x: u32, y: u32) -> Option<Point>
    ensures { result ≡ self_loop_of (flag flags self_loop) x y }
{
    flag(flags, layout::SELF_LOOP).then_some(Point { x: x, y: y })
}

pub fn node_at(image: &[u32], nodes: Table, k: usize) -> Node
    requires { Small nodes × (k < 4294967296) }
    ensures { result ≡ node_at image.now nodes k }
{
    let (x, y, width, height) = four_at(image, nodes, k, layout::NODE_X);
    let (start, count, flags, loop_x) = four_at(image, nodes, k, layout::NODE_LABEL_START);
    let loop_y = field(image, nodes, k, layout::NODE_LOOP_Y);
    let kind = bits(flags, layout::NODE_KIND_STEP, layout::NODE_KINDS);
    Node {
        x,
        y,
        width,
        height,
        label: Span { start, count },
        kind: NodeKind::from(kind),
        self_loop: self_loop_of(flags, loop_x, loop_y),
    }
}

// How an edge gets from its source to its target.
#[derive(Clone, Copy)]
pub enum Path {
    // straight
    Direct,
    // by one crossing on this row, on X flow column
    Corner(u32),
    // by a channel beside
    SideChannel {
        // the channel's column, on X flow row
        channel: u32,
        // where it is entered
        span_start: u32,
        // where it is left
        span_end: u32,
    },
    // by crossings from point to point
    MultiSegment {
        // the points between source and target
        points: Span,
        // how much later than one cell past its start the first leg crosses
        start_offset: u32,
    },
    // along the lines between these points
    Orthogonal(Span),
    // painted as Direct
    Spline,
}

// Along which axis an edge flows.
#[derive(Clone, Copy)]
pub enum FlowAxis {
    // from row to row
    Y,
    // from column to column
    X,
}

// An edge of the diagram.
#[derive(Clone, Copy)]
pub struct Edge {
    // the column of its source
    pub from_x: u32,
    // the row of its source
    pub from_y: u32,
    // the column of its target
    pub to_x: u32,
    // the row of its target
    pub to_y: u32,
    // how it gets to its target
    pub path: Path,
    // along which axis it flows
    pub flow_axis: FlowAxis,
    // whether it is drawn against its direction
    pub reversed: bool,
    // whether it has an arrow at its start
    pub start_marker: bool,
    // whether it has an arrow at its end
    pub end_marker: bool,
    // the weight of its strokes
    pub weight: Weight,
    // the glyphs of its label, which its placed labels show, where it has one
    pub label: Option<Span>,
    // of its strokes and markers
    pub colour: u32,
    // of its placed labels
    pub label_colour: u32,
}

// What an edge's flags say beside its path and its label.
#[derive(Clone, Copy)]
struct Style {
    // along which axis it flows
    flow_axis: FlowAxis,
    // whether it is drawn against its direction
    reversed: bool,
    // whether it has an arrow at its start
    start_marker: bool,
    // whether it has an arrow at its end
    end_marker: bool,
    // the weight of its strokes
    weight: Weight,
}

fn flow_axis_of(flags: u32) -> FlowAxis
    ensures { result ≡ axis_of (flag flags flow_x) }
{
    if flag(flags, layout::FLOW_X) {
        FlowAxis::X
    } else {
        FlowAxis::Y
    }
}

fn style_of(flags: u32) -> Style
    ensures { result ≡ style_of flags }
{
    Style {
        flow_axis: flow_axis_of(flags),
        reversed: flag(flags, layout::REVERSED),
        start_marker: flag(flags, layout::START_MARKER),
        end_marker: flag(flags, layout::END_MARKER),
        weight: Weight::from(bits(flags, layout::WEIGHT_STEP, layout::WEIGHTS)),
    }
}

// The path that an edge's flags and three words say.
fn path_of(flags: u32, a: u32, b: u32, c: u32) -> Path
    ensures { result ≡ path_of (bits flags path_step paths) a b c }
{
    match bits(flags, layout::PATH_STEP, layout::PATHS) {
        layout::PATH_CORNER => Path::Corner(a),
        layout::PATH_SIDE_CHANNEL => Path::SideChannel {
            channel: a,
            span_start: b,
            span_end: c,
        },
        layout::PATH_MULTI_SEGMENT => Path::MultiSegment {
            points: Span { start: a, count: b },
            start_offset: c,
        },
        layout::PATH_ORTHOGONAL => Path::Orthogonal(Span { start: a, count: b }),
        layout::PATH_SPLINE => Path::Spline,
        _ => Path::Direct,
    }
}

fn edge_label_of(flags: u32, start: u32, count: u32) -> Option<Span>
    ensures { result ≡ edge_label_of (flag flags label_present) (record { start = start; count = count }) }
{
    flag(flags, layout::LABEL_PRESENT).then_some(Span { start, count })
}

pub fn edge_at(image: &[u32], edges: Table, k: usize) -> Edge
    requires { Small edges × (k < 4294967296) }
    ensures { result ≡ edge_at image.now edges k }
{
    let (from_x, from_y, to_x, to_y) = four_at(image, edges, k, layout::EDGE_FROM_X);
    let (flags, a, b, c) = four_at(image, edges, k, layout::EDGE_FLAGS);
    let (start, count, colour, label_colour) = four_at(image, edges, k, layout::EDGE_LABEL_START);
    let style = style_of(flags);
    Edge {
        from_x,
        from_y,
        to_x,
        to_y,
        path: path_of(flags, a, b, c),
        flow_axis: style.flow_axis,
        reversed: style.reversed,
        start_marker: style.start_marker,
        end_marker: style.end_marker,
        weight: style.weight,
        label: edge_label_of(flags, start, count),
        colour,
        label_colour,
    }
}

// Where in a subgraph its label stands.
#[derive(Clone, Copy)]
pub enum LabelPosition {
    // on the row below its upper border
    InsideTop,
    // on the row above its lower border
    InsideBottom,
}

// A border round part of the diagram, with a label.
#[derive(Clone, Copy)]
pub struct Subgraph {
    // left column
    pub x: u32,
    // top row
    pub y: u32,
    // columns
    pub width: u32,
    // rows
    pub height: u32,
    // the glyphs of its label
    pub label: Span,
    // the weight of its border, None without one
    pub border: Weight,
    // where its label stands
    pub position: LabelPosition,
    // of its border; 0 keeps what is there
    pub colour: u32,
}

fn position_of(flags: u32) -> LabelPosition
    ensures { result ≡ position_of (flag flags inside_bottom) }
{
    if flag(flags, layout::INSIDE_BOTTOM) {
        LabelPosition::InsideBottom
    } else {
        LabelPosition::InsideTop
    }
}

pub fn subgraph_at(image: &[u32], subgraphs: Table, k: usize) -> Subgraph
    requires { Small subgraphs × (k < 4294967296) }
    ensures { result ≡ subgraph_at image.now subgraphs k }
{
    let (x, y, width, height) = four_at(image, subgraphs, k, layout::SUBGRAPH_X);
    let (start, count, flags, colour) = four_at(image, subgraphs, k, layout::SUBGRAPH_LABEL_START);
    Subgraph {
        x,
        y,
        width,
        height,
        label: Span { start, count },
        border: Weight::from(bits(flags, layout::BORDER_STEP, layout::BORDERS)),
        position: position_of(flags),
        colour,
    }
}

// Where the planner has put an edge's label.
#[derive(Clone, Copy)]
pub struct PlacedLabel {
    // whose label it is, by index
    pub edge: u32,
    // the column of its first quote
    pub x: u32,
    // its row
    pub y: u32,
    // whether there is room for it
    pub placeable: bool,
    // whether a node stands in its row
    pub row_has_node: bool,
}

pub fn placed_label_at(image: &[u32], labels: Table, k: usize) -> PlacedLabel
    requires { Small labels × (k < 4294967296) }
    ensures { result ≡ placed_label_at image.now labels k }
{
    let (edge, x, y, flags) = four_at(image, labels, k, layout::LABEL_EDGE);
    PlacedLabel {
        edge,
        x,
        y,
        placeable: flag(flags, layout::PLACEABLE),
        row_has_node: flag(flags, layout::ROW_HAS_NODE),
    }
}

// What an element lists.
#[derive(Clone, Copy)]
pub enum ElementKind {
    // a node
    Node = 0,
    // an edge
    Edge = 1,
    // a subgraph
    Subgraph = 2,
}

impl From<ElementKind> for u32 {
    ghost from_gives = { λ kind number. (number ≡ element_kind_number kind) × (number < element_kinds) };

    fn from(kind: ElementKind) -> u32 {
        kind as u32
    }
}

// A number that no other kind has is a subgraph's.
impl From<u32> for ElementKind {
    ghost from_gives = { λ number kind. kind ≡ element_kind_of number };

    fn from(number: u32) -> ElementKind {
        match number {
            0 => ElementKind::Node,
            1 => ElementKind::Edge,
            _ => ElementKind::Subgraph,
        }
    }
}

// The planner's listing of one thing: the rows that it may touch.
#[derive(Clone, Copy)]
pub struct Element {
    // what kind of thing it lists
    pub kind: ElementKind,
    // which thing of the kind
    pub index: u32,
    // the first row that the thing may touch
    pub first_row: u32,
    // the last row that the thing may touch
    pub last_row: u32,
}

pub fn element_at(image: &[u32], elements: Table, k: usize) -> Element
    requires { Small elements × (k < 4294967296) }
    ensures { result ≡ element_at image.now elements k }
{
    let (kind, index, first_row, last_row) = four_at(image, elements, k, layout::ELEMENT_KIND);
    Element {
        kind: ElementKind::from(kind),
        index,
        first_row,
        last_row,
    }
}

fn path_span(path: Path) -> Span
    ensures { result ≡ path_span path }
{
    match path {
        Path::MultiSegment {
            points,
            start_offset,
        } => points,
        Path::Orthogonal(points) => points,
        _ => Span { start: 0, count: 0 },
    }
}

// The points of a path.
pub fn points_of(image: &[u32], points: Table, path: Path) -> &[u32]
    requires { Small points }
    ensures { result.now ≡ points_of image.now points path }
{
    span_words(image, points, path_span(path))
}

// The words of a whole table, as the width ranges.
pub fn table_words(image: &[u32], table: Table) -> &[u32]
    requires { Small table }
    ensures { result.now ≡ table_words image.now table }
{
    let whole = Span {
        start: 0,
        count: table.count as u32,
    };
    span_words(image, table, whole)
}

// How many points a path's part of the table has.
pub fn point_count(points: &[u32]) -> usize
    ensures { result ≡ point_count points.now }
{
    points.len() / layout::POINT_SIZE
}

// Point k of such a part.
pub fn point_at(points: &[u32], k: usize) -> Point
    requires { k < point_count points.now }
    ensures { result ≡ point_at points.now k }
{
    let at = layout::POINT_SIZE * k;
    Point {
        x: points[at + layout::POINT_X],
        y: points[at + layout::POINT_Y],
    }
}
