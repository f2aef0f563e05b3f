// The lines of a sheet's text: a record each, with its fields in any order.
#![tactic(auto)]

use layout::{RecordKind, word};
use sheetvalues::fault::{Expected, Fault};
use sheetvalues::fields;
use sheetvalues::fields::{FILL_ELEMENTS, SHEET_READ, Shape};
use sheetwords::names::Record;
use sheetwords::token;
use sheetwords::token::{Kind, Token};
use std::fmt;

// Marks of what a line has given: one for each word of a record, then one for each field that gives no word of its own.
const MARKS: usize = 32;

const FIRST_FIELD_MARK: usize = 16;

// Sets a mark, and answers whether it was not set before.
fn mark(given: &mut [bool; MARKS], at: usize) -> bool {
    match given.get_mut(at) {
        Some(mark) => !std::mem::replace(mark, true),
        None => true,
    }
}

// Marks what a field gives, and answers whether all of it is new.
fn mark_field(given: &mut [bool; MARKS], shape: Shape, number: usize) -> bool {
    match shape.words() {
        None => mark(given, FIRST_FIELD_MARK.wrapping_add(number)),
        Some((place, 1)) => mark(given, place),
        Some((place, _)) => mark(given, place) && mark(given, place.wrapping_add(1)),
    }
}

// The field whose name this is; answers what stands behind it on the line.
fn read_named<'a>(
    name: Token<'a>,
    kind: Record,
    given: &mut [bool; MARKS],
    draft: &mut [u32],
    record: usize,
) -> Result<&'a [u8], Fault<'a>> {
    let Some((number, field)) = fields::field_named(kind, name.bytes) else {
        return Err(Fault::new(Expected::FieldOf(kind), name.bytes));
    };
    if mark_field(given, field.1, number) {
        sheetvalues::read_value(name.rest, field, draft, record)
    } else {
        Err(Fault::new(Expected::NewField, name.bytes))
    }
}

// All fields of a line, into the record at a place of the draft.
fn read_fields<'a>(
    line: &'a [u8],
    kind: Record,
    draft: &mut [u32],
    record: usize,
) -> Result<(), Fault<'a>> {
    let mut given = [false; MARKS];
    let mut rest = line;
    // a field has a byte at least
    for _ in 0..line.len() {
        let name = token::next(rest);
        rest = match name.kind {
            Kind::End => return Ok(()),
            Kind::Word => read_named(name, kind, &mut given, draft, record)?,
            Kind::Quoted | Kind::Unclosed => {
                return Err(Fault::new(Expected::FieldOf(kind), name.bytes));
            }
        };
    }
    Ok(())
}

// An edge that gives no weight is light.
fn give_weight(draft: &mut [u32], record: usize) {
    let flags = sheetdraft::field(draft, record, layout::EDGE_FLAGS);
    if layout::bits(flags, layout::WEIGHT_STEP, layout::WEIGHTS) == 0 {
        let light = LIGHT * layout::WEIGHT_STEP;
        sheetdraft::put_flag(draft, record, layout::EDGE_FLAGS, light);
    }
}

// "weight 2 (1 Dashed, 2 Light, 3 Double)"
const LIGHT: u32 = 2;

// The sheet line, into the header.
fn read_sheet<'a>(name: Token<'a>, draft: &mut [u32]) -> Result<(), Fault<'a>> {
    if word(draft, SHEET_READ) != 0 {
        return Err(Fault::new(Expected::OneSheet, name.bytes));
    }
    sheetdraft::put(draft, SHEET_READ, 1);
    read_fields(name.rest, Record::Sheet, draft, 0)
}

// A record of a table, into a new place of it.
fn read_new<'a>(name: Token<'a>, kind: RecordKind, draft: &mut [u32]) -> Result<(), Fault<'a>> {
    let Some(record) = sheetdraft::add(draft, kind) else {
        return Err(Fault::new(Expected::Room(kind), name.bytes));
    };
    read_fields(name.rest, Record::Of(kind), draft, record)?;
    if let RecordKind::Edge = kind {
        give_weight(draft, record);
    }
    Ok(())
}

// Whether a record of this kind may stand here: behind a sheet, and no element where they are filled in.
fn read_placed<'a>(name: Token<'a>, kind: RecordKind, draft: &mut [u32]) -> Result<(), Fault<'a>> {
    if word(draft, SHEET_READ) == 0 {
        return Err(Fault::new(Expected::SheetFirst, name.bytes));
    }
    if let RecordKind::Element = kind
        && word(draft, FILL_ELEMENTS) != 0
    {
        return Err(Fault::new(Expected::NoElement, name.bytes));
    }
    read_new(name, kind, draft)
}

fn read_record<'a>(name: Token<'a>, draft: &mut [u32]) -> Result<(), Fault<'a>> {
    match Record::named(name.bytes) {
        Some(Record::Sheet) => read_sheet(name, draft),
        Some(Record::Of(kind)) => read_placed(name, kind, draft),
        None => Err(Fault::new(Expected::RecordName, name.bytes)),
    }
}

// A line: a record, or nothing.
fn read_line<'a>(line: &'a [u8], draft: &mut [u32]) -> Result<(), Fault<'a>> {
    let name = token::next(line);
    match name.kind {
        Kind::End => Ok(()),
        Kind::Word => read_record(name, draft),
        Kind::Quoted | Kind::Unclosed => Err(Fault::new(Expected::RecordName, name.bytes)),
    }
}

// Why a text is not read.
#[derive(Clone, Copy)]
pub enum Unread<'a> {
    // a line cannot be read
    Line {
        // its number, from 1 on
        number: usize,
        // what is wrong on it
        fault: Fault<'a>,
    },
    // no line gave a sheet; the number of the line behind the last
    NoSheet(usize),
}

impl fmt::Display for Unread<'_> {
    fn fmt<W: fmt::Write>(&self, f: &mut fmt::Formatter<W>) -> fmt::Result {
        match self {
            Unread::Line { number, fault } => write!(f, "line {number}: expected {fault}"),
            Unread::NoSheet(number) => {
                let expected = Expected::SheetFirst;
                write!(
                    f,
                    "line {number}: expected {expected}, found the end of the text"
                )
            }
        }
    }
}

// Reads all lines of a text into a draft, up to the first that cannot be read.
pub fn read_text<'a>(text: &'a [u8], draft: &mut [u32]) -> Result<(), Unread<'a>> {
    let mut number: usize = 1;
    for line in text.split_inclusive(|byte| *byte == b'\n') {
        let line = line.strip_suffix(b"\n").unwrap_or(line);
        read_line(line, draft).map_err(|fault| Unread::Line { number, fault })?;
        number = number.saturating_add(1);
    }
    if word(draft, SHEET_READ) == 0 {
        return Err(Unread::NoSheet(number));
    }
    Ok(())
}
