// The fields of each record: what stands behind a name, and which words of the record it becomes.
use image::ElementKind;
use layout::RecordKind;
use sheetwords::names::{Choice, Record};

// Words behind those of the draft's tables: whether the run capacity and the elements are to be filled in, and whether the sheet line was read.

pub const FILL_RUNS: usize = sheetdraft::MOST_WORDS;

pub const FILL_ELEMENTS: usize = sheetdraft::MOST_WORDS + 1;

pub const SHEET_READ: usize = sheetdraft::MOST_WORDS + 2;

pub const DRAFT_WORDS: usize = sheetdraft::MOST_WORDS + 3;

// A word of flags, and what is added to it.
#[derive(Clone, Copy)]
pub struct Flag(pub usize, pub u32);

// What stands behind a field's name, and where it goes.
#[derive(Clone, Copy)]
pub enum Shape {
    // a number, into this word
    Number(usize),
    // two numbers, into this word and the next
    Pair(usize),
    // two numbers and a flag that they are there
    FlaggedPair(usize, Flag),
    // one word of a few, which adds the flag once for each word before it
    Word(Choice, Flag),
    // nothing: the field is the flag
    Nothing(Flag),
    // a label in quotes, its span into this word and the next, and a flag that it is there
    Label(usize, Flag),
    // points, their span into this word and the next
    Points(usize),
    // the number of a thing of this kind
    Thing(ElementKind),
    // a number, or the word fill
    Runs,
}

impl Shape {
    // The first word that a field of this shape gives, and how many; none where it gives bits of the flags alone.
    pub fn words(self) -> Option<(usize, usize)> {
        match self {
            Shape::Number(place) => Some((place, 1)),
            Shape::Pair(place) | Shape::FlaggedPair(place, _) => Some((place, 2)),
            Shape::Word(_, _) | Shape::Nothing(_) => None,
            Shape::Label(place, _) | Shape::Points(place) => Some((place, 2)),
            Shape::Thing(_) => Some((layout::ELEMENT_KIND, 2)),
            Shape::Runs => Some((layout::HEADER_RUNS, 1)),
        }
    }
}

// A field of a record: its name, and what stands behind it.
#[derive(Clone, Copy)]
pub struct Field(pub &'static str, pub Shape);

static SHEET: [Field; 6] = [
    Field("width", Shape::Number(layout::HEADER_WIDTH)),
    Field("height", Shape::Number(layout::HEADER_HEIGHT)),
    Field(
        "policy",
        Shape::Word(
            Choice::Policy,
            Flag(layout::HEADER_FLAGS, layout::AVOID_NODE_ROWS),
        ),
    ),
    Field(
        "dummies",
        Shape::Word(
            Choice::Dummies,
            Flag(layout::HEADER_FLAGS, layout::SHOW_DUMMIES),
        ),
    ),
    Field("runs", Shape::Runs),
    Field(
        "elements",
        Shape::Word(Choice::Elements, Flag(FILL_ELEMENTS, 1)),
    ),
];

static NODE: [Field; 7] = [
    Field("x", Shape::Number(layout::NODE_X)),
    Field("y", Shape::Number(layout::NODE_Y)),
    Field("width", Shape::Number(layout::NODE_WIDTH)),
    Field("height", Shape::Number(layout::NODE_HEIGHT)),
    Field(
        "kind",
        Shape::Word(
            Choice::NodeKind,
            Flag(layout::NODE_FLAGS, layout::NODE_KIND_STEP),
        ),
    ),
    Field(
        "label",
        Shape::Label(layout::NODE_LABEL_START, Flag(layout::NODE_FLAGS, 0)),
    ),
    Field(
        "loop",
        Shape::FlaggedPair(
            layout::NODE_LOOP_X,
            Flag(layout::NODE_FLAGS, layout::SELF_LOOP),
        ),
    ),
];

// The last five are of some paths: several share a word, of which each path has one use.
static EDGE: [Field; 16] = [
    Field("from", Shape::Pair(layout::EDGE_FROM_X)),
    Field("to", Shape::Pair(layout::EDGE_TO_X)),
    Field(
        "path",
        Shape::Word(Choice::Path, Flag(layout::EDGE_FLAGS, layout::PATH_STEP)),
    ),
    Field(
        "flow",
        Shape::Word(Choice::Flow, Flag(layout::EDGE_FLAGS, layout::FLOW_X)),
    ),
    Field(
        "reversed",
        Shape::Nothing(Flag(layout::EDGE_FLAGS, layout::REVERSED)),
    ),
    Field(
        "start",
        Shape::Nothing(Flag(layout::EDGE_FLAGS, layout::START_MARKER)),
    ),
    Field(
        "end",
        Shape::Nothing(Flag(layout::EDGE_FLAGS, layout::END_MARKER)),
    ),
    Field(
        "weight",
        Shape::Word(
            Choice::Weight,
            Flag(layout::EDGE_FLAGS, layout::WEIGHT_STEP),
        ),
    ),
    Field(
        "label",
        Shape::Label(
            layout::EDGE_LABEL_START,
            Flag(layout::EDGE_FLAGS, layout::LABEL_PRESENT),
        ),
    ),
    Field("colour", Shape::Number(layout::EDGE_COLOUR)),
    Field("label-colour", Shape::Number(layout::EDGE_LABEL_COLOUR)),
    Field("bend", Shape::Number(layout::EDGE_A)),
    Field("channel", Shape::Number(layout::EDGE_A)),
    Field("span", Shape::Pair(layout::EDGE_B)),
    Field("points", Shape::Points(layout::EDGE_A)),
    Field("offset", Shape::Number(layout::EDGE_C)),
];

static SUBGRAPH: [Field; 8] = [
    Field("x", Shape::Number(layout::SUBGRAPH_X)),
    Field("y", Shape::Number(layout::SUBGRAPH_Y)),
    Field("width", Shape::Number(layout::SUBGRAPH_WIDTH)),
    Field("height", Shape::Number(layout::SUBGRAPH_HEIGHT)),
    Field(
        "border",
        Shape::Word(
            Choice::Border,
            Flag(layout::SUBGRAPH_FLAGS, layout::BORDER_STEP),
        ),
    ),
    Field(
        "position",
        Shape::Word(
            Choice::Position,
            Flag(layout::SUBGRAPH_FLAGS, layout::INSIDE_BOTTOM),
        ),
    ),
    Field(
        "label",
        Shape::Label(
            layout::SUBGRAPH_LABEL_START,
            Flag(layout::SUBGRAPH_FLAGS, 0),
        ),
    ),
    Field("colour", Shape::Number(layout::SUBGRAPH_COLOUR)),
];

static PLACED: [Field; 5] = [
    Field("edge", Shape::Number(layout::LABEL_EDGE)),
    Field("x", Shape::Number(layout::LABEL_X)),
    Field("y", Shape::Number(layout::LABEL_Y)),
    Field(
        "placeable",
        Shape::Nothing(Flag(layout::LABEL_FLAGS, layout::PLACEABLE)),
    ),
    Field(
        "row-has-node",
        Shape::Nothing(Flag(layout::LABEL_FLAGS, layout::ROW_HAS_NODE)),
    ),
];

static RANGE: [Field; 3] = [
    Field("first", Shape::Number(layout::RANGE_FIRST)),
    Field("last", Shape::Number(layout::RANGE_LAST)),
    Field("width", Shape::Number(layout::RANGE_WIDTH)),
];

static ELEMENT: [Field; 4] = [
    Field("node", Shape::Thing(ElementKind::Node)),
    Field("edge", Shape::Thing(ElementKind::Edge)),
    Field("subgraph", Shape::Thing(ElementKind::Subgraph)),
    Field("rows", Shape::Pair(layout::ELEMENT_FIRST_ROW)),
];

// The fields that a record may have. Points and glyphs are in other records' fields, and have no record of their own.
pub fn fields_of(record: Record) -> &'static [Field] {
    let Record::Of(kind) = record else {
        return &SHEET;
    };
    match kind {
        RecordKind::Node => &NODE,
        RecordKind::Edge => &EDGE,
        RecordKind::Subgraph => &SUBGRAPH,
        RecordKind::PlacedLabel => &PLACED,
        RecordKind::Range => &RANGE,
        RecordKind::Element => &ELEMENT,
        RecordKind::Point | RecordKind::Glyph => &[],
    }
}

// The field of a record that has this name, and its number among them.
pub fn field_named(record: Record, word: &[u8]) -> Option<(usize, Field)> {
    for (number, field) in fields_of(record).iter().enumerate() {
        if field.0.as_bytes() == word {
            return Some((number, *field));
        }
    }
    None
}
