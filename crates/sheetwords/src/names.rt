// The words of the text: records, and the words that a field may hold.
use layout::RecordKind;
use std::fmt;

// What a line gives.
#[derive(Clone, Copy)]
pub enum Record {
    // the header
    Sheet,
    // a record of a table
    Of(RecordKind),
}

// The names of the records.
pub static RECORDS: [(&str, Record); 7] = [
    ("sheet", Record::Sheet),
    ("node", Record::Of(RecordKind::Node)),
    ("edge", Record::Of(RecordKind::Edge)),
    ("subgraph", Record::Of(RecordKind::Subgraph)),
    ("placed", Record::Of(RecordKind::PlacedLabel)),
    ("range", Record::Of(RecordKind::Range)),
    ("element", Record::Of(RecordKind::Element)),
];

impl Record {
    // The record of this name.
    pub fn named(word: &[u8]) -> Option<Record> {
        let found = RECORDS.iter().find(|(name, _)| name.as_bytes() == word);
        found.map(|(_, record)| *record)
    }
}

impl fmt::Display for Record {
    fn fmt<W: fmt::Write>(&self, f: &mut fmt::Formatter<W>) -> fmt::Result {
        let Record::Of(kind) = self else {
            return f.write_str("a sheet");
        };
        f.write_str(match kind {
            RecordKind::Node => "a node",
            RecordKind::Edge => "an edge",
            RecordKind::Subgraph => "a subgraph",
            RecordKind::PlacedLabel => "a placed label",
            RecordKind::Element => "an element",
            RecordKind::Point => "a point",
            RecordKind::Glyph => "a character",
            RecordKind::Range => "a range",
        })
    }
}

// A field that holds one word of a few.
#[derive(Clone, Copy)]
pub enum Choice {
    // a node's kind
    NodeKind,
    // an edge's path
    Path,
    // an edge's flow axis
    Flow,
    // an edge's weight
    Weight,
    // a subgraph's border
    Border,
    // where a subgraph's label stands
    Position,
    // which placed labels are painted
    Policy,
    // whether dummies are painted
    Dummies,
    // who lists the elements
    Elements,
}

impl Choice {
    // Its words: each stands for the number of those before it. An empty one is no word of a text.
    pub fn words(self) -> &'static [&'static str] {
        match self {
            Choice::NodeKind => &["simple", "boxed", "blank", "dummy"],
            Choice::Path => &[
                "direct",
                "corner",
                "side-channel",
                "multi-segment",
                "orthogonal",
                "spline",
            ],
            Choice::Flow => &["y", "x"],
            // 0 is no weight
            Choice::Weight => &["", "dashed", "light", "double"],
            Choice::Border => &["none", "dashed", "light", "double"],
            Choice::Position => &["top", "bottom"],
            Choice::Policy => &["geometric", "avoid-node-rows"],
            Choice::Dummies => &["hidden", "shown"],
            Choice::Elements => &["listed", "fill"],
        }
    }

    // The number of one of its words.
    pub fn number(self, word: &[u8]) -> Option<usize> {
        self.words()
            .iter()
            .position(|known| known.as_bytes() == word)
    }
}

// Names as a sentence has them: a comma between two, and `or` before the last one. An empty one is passed over.
pub fn write_names<'a, T, W: fmt::Write, F: Fn(&T) -> &'a str>(
    f: &mut fmt::Formatter<W>,
    all: &[T],
    name_of: F,
) -> fmt::Result
    requires { F.IsAlwaysCallable name_of }
{
    for (k, item) in all.iter().enumerate() {
        let name = name_of(item);
        let next = k + 1;
        f.write_str(name)?;
        if !name.is_empty() && next < all.len() {
            let last = next + 1 == all.len();
            f.write_str(if last { " or " } else { ", " })?;
        }
    }
    Ok(())
}
