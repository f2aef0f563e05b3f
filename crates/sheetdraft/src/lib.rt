// A sheet image that is being written. In a draft each table stands where it would if every table before it were full, and the header holds its count: a
// record that is added moves none. What is handed out is the draft with its tables closed up.
#![tactic(auto)]

ghost use Rattle.std.specs.Prelude.{◌<◌, ◌≤◌};
ghost use Rattle.layout.specs.Small.{Small};

use layout::{
    EDGE_SIZE, ELEMENT_SIZE, GLYPH_SIZE, HEADER_SIZE, LABEL_SIZE, NODE_SIZE, POINT_SIZE,
    RANGE_SIZE, RecordKind, SUBGRAPH_SIZE, Table, word,
};

mod fill;

pub use fill::{fill_elements, fill_runs};

const THINGS: usize = layout::MAX_THINGS as usize;

const ELEMENTS: usize = layout::MAX_ELEMENTS as usize;

const POINTS: usize = layout::MAX_POINTS as usize;

const GLYPHS: usize = layout::MAX_GLYPHS as usize;

const RANGES: usize = layout::MAX_RANGES as usize;

// Where each table of a draft begins: behind the one before it, full.

const NODES_AT: usize = HEADER_SIZE;

const EDGES_AT: usize = NODES_AT + THINGS * NODE_SIZE;

const SUBGRAPHS_AT: usize = EDGES_AT + THINGS * EDGE_SIZE;

const LABELS_AT: usize = SUBGRAPHS_AT + THINGS * SUBGRAPH_SIZE;

const ELEMENTS_AT: usize = LABELS_AT + THINGS * LABEL_SIZE;

const POINTS_AT: usize = ELEMENTS_AT + ELEMENTS * ELEMENT_SIZE;

const GLYPHS_AT: usize = POINTS_AT + POINTS * POINT_SIZE;

const RANGES_AT: usize = GLYPHS_AT + GLYPHS * GLYPH_SIZE;

// The words of an image with every table at its limit.
pub const MOST_WORDS: usize = RANGES_AT + RANGES * RANGE_SIZE;

// A table of a draft, with room for as many records as there may be.
fn room_of(kind: RecordKind) -> Table
    ensures { Small result }
{
    match kind {
        RecordKind::Node => Table {
            start: NODES_AT,
            count: THINGS,
            size: NODE_SIZE,
        },
        RecordKind::Edge => Table {
            start: EDGES_AT,
            count: THINGS,
            size: EDGE_SIZE,
        },
        RecordKind::Subgraph => Table {
            start: SUBGRAPHS_AT,
            count: THINGS,
            size: SUBGRAPH_SIZE,
        },
        RecordKind::PlacedLabel => Table {
            start: LABELS_AT,
            count: THINGS,
            size: LABEL_SIZE,
        },
        RecordKind::Element => Table {
            start: ELEMENTS_AT,
            count: ELEMENTS,
            size: ELEMENT_SIZE,
        },
        RecordKind::Point => Table {
            start: POINTS_AT,
            count: POINTS,
            size: POINT_SIZE,
        },
        RecordKind::Glyph => Table {
            start: GLYPHS_AT,
            count: GLYPHS,
            size: GLYPH_SIZE,
        },
        RecordKind::Range => Table {
            start: RANGES_AT,
            count: RANGES,
            size: RANGE_SIZE,
        },
    }
}

// The word of the header that holds a table's count.
fn count_place(kind: RecordKind) -> usize {
    match kind {
        RecordKind::Node => layout::HEADER_NODES,
        RecordKind::Edge => layout::HEADER_EDGES,
        RecordKind::Subgraph => layout::HEADER_SUBGRAPHS,
        RecordKind::PlacedLabel => layout::HEADER_LABELS,
        RecordKind::Element => layout::HEADER_ELEMENTS,
        RecordKind::Point => layout::HEADER_POINTS,
        RecordKind::Glyph => layout::HEADER_GLYPHS,
        RecordKind::Range => layout::HEADER_RANGES,
    }
}

// How many records of a kind there may be.
pub fn limit(kind: RecordKind) -> usize {
    room_of(kind).count
}

// How many records of a kind a draft has.
pub fn count(draft: &[u32], kind: RecordKind) -> u32 {
    word(draft, count_place(kind))
}

// Stores a word that is there.
pub fn put(draft: &mut [u32], place: usize, value: u32) {
    if let Some(word) = draft.get_mut(place) {
        *word = value;
    }
}

// Stores a field of the record at a place.
pub fn put_field(draft: &mut [u32], record: usize, field: usize, value: u32) {
    put(draft, record.wrapping_add(field), value);
}

// A field of the record at a place.
pub fn field(draft: &[u32], record: usize, field: usize) -> u32 {
    word(draft, record.wrapping_add(field))
}

// Adds a flag, which is not set yet, to a field of flags.
pub fn put_flag(draft: &mut [u32], record: usize, flags: usize, bits: u32) {
    let sum = field(draft, record, flags).wrapping_add(bits);
    put_field(draft, record, flags, sum);
}

// One record more, all zeros: where its first word stands, if there is room.
pub fn add(draft: &mut [u32], kind: RecordKind) -> Option<usize> {
    let table = room_of(kind);
    let records = count(draft, kind);
    let next = ground::number(records);
    if next < table.count {
        put(draft, count_place(kind), records + 1);
        Some(layout::record_at(table, next))
    } else {
        None
    }
}

// Copies so many words from a place of a draft to a place of an image, and answers where they end there.
fn copy(draft: &[u32], from: usize, words: usize, image: &mut [u32], to: usize) -> usize {
    for k in 0..words {
        put_field(image, to, k, field(draft, from, k));
    }
    to.wrapping_add(words)
}

// Copies the records that a table has.
fn copy_table(draft: &[u32], kind: RecordKind, image: &mut [u32], to: usize) -> usize {
    let table = room_of(kind);
    let records = ground::number(count(draft, kind));
    let end = layout::record_at(table, records);
    let words = end.saturating_sub(table.start);
    copy(draft, table.start, words, image, to)
}

// The tables of an image, in turn.
const TABLES: [RecordKind; 8] = [
    RecordKind::Node,
    RecordKind::Edge,
    RecordKind::Subgraph,
    RecordKind::PlacedLabel,
    RecordKind::Element,
    RecordKind::Point,
    RecordKind::Glyph,
    RecordKind::Range,
];

// The draft with its tables closed up; answers how many words the image has.
pub fn close_up(draft: &[u32], image: &mut [u32]) -> usize {
    let mut end = copy(draft, 0, HEADER_SIZE, image, 0);
    for kind in TABLES {
        end = copy_table(draft, kind, image, end);
    }
    end
}

// The first words of an image, as many as it has.
pub fn first_words(image: &[u32], count: usize) -> &[u32] {
    image.get(..count).unwrap_or(image)
}
