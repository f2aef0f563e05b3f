// What cannot be read: what was expected and what stands there.
use crate::fields::fields_of;
use layout::RecordKind;
use sheettext::{GlyphError, NumberError};
use sheetwords::names::{Choice, RECORDS, Record, write_names};
use sheetwords::token::Token;
use std::fmt;

// What was expected.
#[derive(Clone, Copy)]
pub enum Expected {
    // the name of a record
    RecordName,
    // a sheet before any other record
    SheetFirst,
    // no second sheet
    OneSheet,
    // no element, where the sheet has them filled in
    NoElement,
    // the name of a field of this record
    FieldOf(Record),
    // a field whose words no other field of the line has given
    NewField,
    // a number
    Number,
    // a number of 32 bits
    SmallNumber,
    // a number, or the word fill
    NumberOrFill,
    // one word of a few
    OneOf(Choice),
    // a label in quotes
    Label,
    // the quote that closes a label
    ClosingQuote,
    // text in UTF-8
    Utf8,
    // an escape
    Escape,
    // two numbers and a comma
    Point,
    // no more records of a kind than there may be
    Room(RecordKind),
}

impl Expected {
    // What was expected of a word that is no number, where this was if it is none at all.
    pub fn or_small(self, error: NumberError) -> Expected {
        match error {
            NumberError::TooLarge => Expected::SmallNumber,
            NumberError::NotANumber => self,
        }
    }
}

impl fmt::Display for Expected {
    fn fmt<W: fmt::Write>(&self, f: &mut fmt::Formatter<W>) -> fmt::Result {
        match self {
            Expected::RecordName => {
                f.write_str("a record: ")?;
                write_names(f, &RECORDS, |record| record.0)
            }
            Expected::SheetFirst => f.write_str("a sheet line before all other records"),
            Expected::OneSheet => f.write_str("no second sheet line"),
            Expected::NoElement => {
                f.write_str("no element line where the sheet has elements fill")
            }
            Expected::FieldOf(record) => {
                write!(f, "a field of {record}: ")?;
                write_names(f, fields_of(*record), |field| field.0)
            }
            Expected::NewField => { f.write_str("a field whose words this line has not given yet") }
            Expected::Number => f.write_str("a number"),
            Expected::SmallNumber => f.write_str("a number of at most 4294967295"),
            Expected::NumberOrFill => f.write_str("a number or fill"),
            Expected::OneOf(choice) => write_names(f, choice.words(), |word| *word),
            Expected::Label => f.write_str("a label in quotes"),
            Expected::ClosingQuote => f.write_str("a label with a closing quote"),
            Expected::Utf8 => f.write_str("UTF-8"),
            Expected::Escape => f.write_str(ESCAPES),
            Expected::Point => f.write_str("a point such as 3,4"),
            Expected::Room(kind) => {
                write!(f, "at most {} {}", sheetdraft::limit(*kind), plural(*kind))
            }
        }
    }
}

const ESCAPES: &str =
    "the escape \\\", \\\\ or \\u{..} with the hexadecimal digits of a Unicode scalar value";

// Records of a kind, where they are too many.
fn plural(kind: RecordKind) -> &'static str {
    match kind {
        RecordKind::Node => "nodes",
        RecordKind::Edge => "edges",
        RecordKind::Subgraph => "subgraphs",
        RecordKind::PlacedLabel => "placed labels",
        RecordKind::Element => "elements",
        RecordKind::Point => "points",
        RecordKind::Glyph => "characters in all labels",
        RecordKind::Range => "ranges",
    }
}

// What is wrong on a line.
#[derive(Clone, Copy)]
pub struct Fault<'a> {
    // what was expected
    pub expected: Expected,
    // the field whose value it is, if it is one
    pub after: Option<&'static str>,
    // what stands there; empty at the end of the line
    pub found: &'a [u8],
}

impl<'a> Fault<'a> {
    // Something that is wrong by itself.
    pub fn new(expected: Expected, found: &'a [u8]) -> Fault<'a> {
        Fault {
            expected,
            after: None,
            found,
        }
    }

    // Something else than the value of the field of this name.
    pub fn of_field(expected: Expected, name: &'static str, found: Token<'a>) -> Fault<'a> {
        Fault {
            expected,
            after: Some(name),
            found: found.bytes,
        }
    }

    // No character of a label, of which so much is left.
    pub fn of_glyph(error: GlyphError, label: &'a [u8]) -> Fault<'a> {
        match error {
            GlyphError::NotUtf8 => Fault::new(Expected::Utf8, sheettext::part(label, 0, 1)),
            GlyphError::NotAnEscape => Fault::new(Expected::Escape, label),
        }
    }
}

impl fmt::Display for Fault<'_> {
    fn fmt<W: fmt::Write>(&self, f: &mut fmt::Formatter<W>) -> fmt::Result {
        write!(f, "{}", self.expected)?;
        if let Some(name) = self.after {
            write!(f, " after {name}")?;
        }
        f.write_str(", found ")?;
        write_found(f, self.found)
    }
}

// How many bytes of what was found are shown at most.
const SHOWN: usize = 40;

// What stands there.
fn write_found<W: fmt::Write>(f: &mut fmt::Formatter<W>, found: &[u8]) -> fmt::Result {
    if found.is_empty() {
        return f.write_str("the end of the line");
    }
    f.write_str("\"")?;
    for byte in found.get(..SHOWN).unwrap_or(found) {
        write_byte(f, *byte)?;
    }
    f.write_str(if SHOWN < found.len() { "..\"" } else { "\"" })
}

// A byte of what was found: as it stands if it can be seen, else by its number.
fn write_byte<W: fmt::Write>(f: &mut fmt::Formatter<W>, byte: u8) -> fmt::Result {
    match byte {
        b'"' => f.write_str("\\\""),
        b'\\' => f.write_str("\\\\"),
        b' '..=b'~' => f.write_char(char::from(byte)),
        _ => write!(f, "\\x{byte:02X}"),
    }
}
