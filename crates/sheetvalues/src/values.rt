// The values of fields: read off a line, and written into the draft. Each call answers what stands behind them on the line.
use crate::fault::{Expected, Fault};
use crate::fields::{FILL_RUNS, Field, Flag, Shape};
use image::ElementKind;
use layout::RecordKind;
use sheetwords::names::Choice;
use sheetwords::token;
use sheetwords::token::Kind;

// Reads the number that comes first on a line into a word of the draft, for the field of this name.
fn read_word<'a>(
    line: &'a [u8],
    name: &'static str,
    expected: Expected,
    draft: &mut [u32],
    place: usize,
) -> Result<&'a [u8], Fault<'a>> {
    let found = token::next(line);
    let number = sheettext::number(found.bytes).map_err(|error| Fault::of_field(
        expected.or_small(error),
        name,
        found,
    ))?;
    sheetdraft::put(draft, place, number);
    Ok(found.rest)
}

// A number.
fn read_number<'a>(
    line: &'a [u8],
    name: &'static str,
    draft: &mut [u32],
    place: usize,
) -> Result<&'a [u8], Fault<'a>> {
    read_word(line, name, Expected::Number, draft, place)
}

// Two numbers, into words side by side.
fn read_pair<'a>(
    line: &'a [u8],
    name: &'static str,
    draft: &mut [u32],
    place: usize,
) -> Result<&'a [u8], Fault<'a>> {
    let rest = read_number(line, name, draft, place)?;
    read_number(rest, name, draft, place.wrapping_add(1))
}

// Adds a flag to a record's.
fn put_flag(draft: &mut [u32], record: usize, Flag(word, bits): Flag) {
    sheetdraft::put_flag(draft, record, word, bits);
}

// One word of a few.
fn read_choice<'a>(
    line: &'a [u8],
    name: &'static str,
    choice: Choice,
    flag: Flag,
    draft: &mut [u32],
    record: usize,
) -> Result<&'a [u8], Fault<'a>> {
    let found = token::next(line);
    let Some(number) = choice.number(found.bytes) else {
        return Err(Fault::of_field(Expected::OneOf(choice), name, found));
    };
    for _ in 0..number {
        put_flag(draft, record, flag);
    }
    Ok(found.rest)
}

// Adds a record that is all of it these words, if there is room.
fn add_words(draft: &mut [u32], kind: RecordKind, words: &[u32]) -> Option<()> {
    let place = sheetdraft::add(draft, kind)?;
    for (k, word) in words.iter().enumerate() {
        sheetdraft::put_field(draft, place, k, *word);
    }
    Some(())
}

// The first of the records that were added since there were so many, and how many they are.
fn put_span(draft: &mut [u32], place: usize, kind: RecordKind, before: u32) {
    let records = sheetdraft::count(draft, kind).wrapping_sub(before);
    sheetdraft::put(draft, place, before);
    sheetdraft::put_field(draft, place, 1, records);
}

// The characters of a label.
fn read_glyphs<'a>(label: &'a [u8], draft: &mut [u32]) -> Result<(), Fault<'a>> {
    let mut rest = label;
    while !rest.is_empty() {
        let glyph = sheettext::label_glyph(rest).map_err(|error| Fault::of_glyph(error, rest))?;
        // a character has a byte at least
        let (bytes, behind) = rest.split_at(glyph.size.max(1).min(rest.len()));
        add_words(draft, RecordKind::Glyph, &[glyph.value]).ok_or(Fault::new(
            Expected::Room(RecordKind::Glyph),
            bytes,
        ))?;
        rest = behind;
    }
    Ok(())
}

// A label in quotes.
fn read_label<'a>(
    line: &'a [u8],
    name: &'static str,
    draft: &mut [u32],
    place: usize,
) -> Result<&'a [u8], Fault<'a>> {
    let found = token::next(line);
    match found.kind {
        Kind::Quoted => {
            let before = sheetdraft::count(draft, RecordKind::Glyph);
            let end = found.bytes.len().saturating_sub(1);
            read_glyphs(sheettext::part(found.bytes, 1, end), draft)?;
            put_span(draft, place, RecordKind::Glyph, before);
            Ok(found.rest)
        }
        Kind::Unclosed => Err(Fault::of_field(Expected::ClosingQuote, name, found)),
        Kind::Word | Kind::End => Err(Fault::of_field(Expected::Label, name, found)),
    }
}

// A number of a point, or what was expected.
fn coordinate(word: &[u8]) -> Result<u32, Expected> {
    sheettext::number(word).map_err(|error| Expected::Point.or_small(error))
}

// Two numbers with a comma between them: a column and a row.
fn point_of(word: &[u8]) -> Result<[u32; 2], Expected> {
    let comma = sheettext::until(b',', word);
    let x = coordinate(sheettext::part(word, 0, comma))?;
    let y = coordinate(sheettext::part(word, comma.wrapping_add(1), word.len()))?;
    Ok([x, y])
}

// A point, which has to be there.
fn read_point<'a>(
    line: &'a [u8],
    name: &'static str,
    draft: &mut [u32],
) -> Result<&'a [u8], Fault<'a>> {
    let found = token::next(line);
    let point = point_of(found.bytes).map_err(|expected| Fault::of_field(expected, name, found))?;
    add_words(draft, RecordKind::Point, &point).ok_or(Fault::new(
        Expected::Room(RecordKind::Point),
        found.bytes,
    ))?;
    Ok(found.rest)
}

// Whether what comes first on a line begins with a digit.
fn has_digit_first(line: &[u8]) -> bool {
    matches!(token::next(line).bytes, [b'0'..=b'9', ..])
}

// A point at least, and as many more as there are.
fn read_points<'a>(
    line: &'a [u8],
    name: &'static str,
    draft: &mut [u32],
    place: usize,
) -> Result<&'a [u8], Fault<'a>> {
    let before = sheetdraft::count(draft, RecordKind::Point);
    let mut rest = read_point(line, name, draft)?;
    // a point has a byte at least
    for _ in 0..rest.len() {
        if !has_digit_first(rest) {
            break;
        }
        rest = read_point(rest, name, draft)?;
    }
    put_span(draft, place, RecordKind::Point, before);
    Ok(rest)
}

// The number of a thing of a kind.
fn read_thing<'a>(
    line: &'a [u8],
    name: &'static str,
    kind: ElementKind,
    draft: &mut [u32],
    record: usize,
) -> Result<&'a [u8], Fault<'a>> {
    let number = u32::from(kind);
    sheetdraft::put_field(draft, record, layout::ELEMENT_KIND, number);
    read_number(
        line,
        name,
        draft,
        record.wrapping_add(layout::ELEMENT_INDEX),
    )
}

// The run capacity, or that it is to be filled in.
fn read_runs<'a>(
    line: &'a [u8],
    name: &'static str,
    draft: &mut [u32],
) -> Result<&'a [u8], Fault<'a>> {
    let found = token::next(line);
    if found.bytes == b"fill".as_slice() {
        sheetdraft::put(draft, FILL_RUNS, 1);
        return Ok(found.rest);
    }
    read_word(
        line,
        name,
        Expected::NumberOrFill,
        draft,
        layout::HEADER_RUNS,
    )
}

// The value of a field, which comes first on what is left of a line behind its name.
pub fn read_value<'a>(
    line: &'a [u8],
    field: Field,
    draft: &mut [u32],
    record: usize,
) -> Result<&'a [u8], Fault<'a>> {
    let Field(name, shape) = field;
    match shape {
        Shape::Number(place) => read_number(line, name, draft, record.wrapping_add(place)),
        Shape::Pair(place) => read_pair(line, name, draft, record.wrapping_add(place)),
        Shape::FlaggedPair(place, flag) => {
            put_flag(draft, record, flag);
            read_pair(line, name, draft, record.wrapping_add(place))
        }
        Shape::Word(choice, flag) => read_choice(line, name, choice, flag, draft, record),
        Shape::Nothing(flag) => {
            put_flag(draft, record, flag);
            Ok(line)
        }
        Shape::Label(place, flag) => {
            let rest = read_label(line, name, draft, record.wrapping_add(place))?;
            put_flag(draft, record, flag);
            Ok(rest)
        }
        Shape::Points(place) => read_points(line, name, draft, record.wrapping_add(place)),
        Shape::Thing(kind) => read_thing(line, name, kind, draft, record),
        Shape::Runs => read_runs(line, name, draft),
    }
}
