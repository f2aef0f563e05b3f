// Reads a sheet image from standard input and says whether it is accepted, or what is wrong, where, and what to change, in words that a planner's author can act on.
#![tactic(auto)]

ghost use Rattle.std.specs.Prelude.{◌<◌, ◌≤◌};

use finding::element;
use image::ElementKind;
use image_input::MOST_WORDS;
use layout::{FieldName, HEADER_HEIGHT, HEADER_RUNS, HEADER_WIDTH, MAX_THINGS, RecordKind, word};
use std::io;

mod faults;
mod names;
mod words;

// More than the records of any table.
const RECORD_LIMIT: usize = layout::MAX_GLYPHS as usize + 1;

// More than the words of any record.
const FIELD_LIMIT: usize = layout::EDGE_SIZE + 1;

fn explain_length(rt: &impl Print, length: usize, wanted: usize) -> io::Result<()> {
    let s = names::plural(length);
    print!(rt; "the image has {length} word{s}; its header and tables want {wanted}, which is ")?;
    if length < wanted {
        println!(rt; "{} more", wanted - length)
    } else {
        println!(rt; "{} fewer", length - wanted)
    }
}

fn explain_runs(rt: &impl Print, image: &[u32]) -> io::Result<()> {
    let ts = layout::tables_of(image);
    let edges = ts.edges;
    if edges.count <= ground::number(MAX_THINGS) {
        let held = word(image, HEADER_RUNS);
        let runs = things::run_count(image, ts);
        println!(rt;
            "header, run capacity: holds {held}; must be at least {runs}, the number of runs on rows of the sheet"
        )?;
    }
    Ok(())
}

// Glyph k, which is a control character.
fn explain_control(rt: &impl Print, image: &[u32], k: usize) -> io::Result<()>
    requires { k < 4294967296 }
{
    let value = finding::field_of(image, RecordKind::Glyph, k, layout::GLYPH_VALUE);
    faults::control(rt, value, glyph_owner::owner_of(image, k))
}

// Element k, which lists a thing that is listed already.
fn explain_twice(rt: &impl Print, image: &[u32], k: usize) -> io::Result<()>
    requires { k < 4294967296 }
{
    let listed = element(image, k);
    let kind = listed.kind;
    let lister = finding::lister_of(image, u32::from(kind), ground::number(listed.index));
    faults::twice(rt, kind, listed.index, lister)
}

// Element k, whose rows are out of order.
fn explain_order(rt: &impl Print, image: &[u32], k: usize) -> io::Result<()>
    requires { k < 4294967296 }
{
    let own = element(image, k);
    let order = finding::order_faults(image, k);
    faults::order(rt, own.first_row, own.last_row, order, k)
}

// How a thing is listed.
fn explain_listing(
    rt: &impl Print,
    image: &[u32],
    kind: ElementKind,
    index: usize,
) -> io::Result<()> {
    let lister = finding::lister_of(image, u32::from(kind), index);
    let Some(k) = lister else {
        return print!(rt; "; no element lists it, and one must list both");
    };
    if k < RECORD_LIMIT {
        let own = element(image, k);
        faults::listed(rt, k, own.first_row, own.last_row)?;
    }
    Ok(())
}

// A thing that touches a row which its listing lacks.
fn explain_thing(rt: &impl Print, image: &[u32], kind: ElementKind, index: usize) -> io::Result<()>
    requires { index < 4294967296 }
{
    faults::touched(rt, finding::touched(image, kind, index))?;
    explain_listing(rt, image, kind, index)
}

// What breaks code 9, by its table.
fn explain_touched(rt: &impl Print, image: &[u32], kind: RecordKind, index: usize) -> io::Result<()>
    requires { index < 4294967296 }
{
    match kind {
        RecordKind::Node => explain_thing(rt, image, ElementKind::Node, index),
        RecordKind::Edge => explain_thing(rt, image, ElementKind::Edge, index),
        _ => explain_thing(rt, image, ElementKind::Subgraph, index),
    }
}

// Record k of a kind, of which this field breaks code 4 or which breaks another code.
fn explain_record(
    rt: &impl Print,
    image: &[u32],
    code: u32,
    kind: RecordKind,
    k: usize,
    field: usize,
) -> io::Result<()>
    requires { (k < 4294967296) × (field ≤ 16) }
{
    print!(rt; "{} {k}", names::record(kind))?;
    match code {
        refusals::BAD_FIELD => words::explain(rt, image, kind, k, field),
        refusals::BAD_RANGE => faults::range(rt, finding::range_faults(image, k), k),
        refusals::CONTROL_CHARACTER => explain_control(rt, image, k),
        refusals::CORNER_BELOW_ZERO => faults::corner(rt, low_corner::low_corner(image, k)),
        refusals::LISTED_TWICE => explain_twice(rt, image, k),
        refusals::OUT_OF_ORDER => explain_order(rt, image, k),
        _ => explain_touched(rt, image, kind, k),
    }?;
    print!(rt; "\n")
}

// The record that a refusal's place is in.
fn explain_place(rt: &impl Print, image: &[u32], code: u32, place: usize) -> io::Result<()> {
    let at = finding::field_at(image, place);
    let FieldName::Record { kind, index, field } = at else {
        return Ok(());
    };
    if index < RECORD_LIMIT && field < FIELD_LIMIT {
        explain_record(rt, image, code, kind, index, field)?;
    }
    Ok(())
}

fn explain_short(rt: &impl Print, length: usize) -> io::Result<()> {
    let s = names::plural(length);
    println!(rt; "the image has {length} word{s}; a header has 12")
}

fn explain(rt: &impl Print, image: &[u32], code: u32, place: usize) -> io::Result<()> {
    match code {
        refusals::TOO_SHORT => explain_short(rt, image.len()),
        refusals::OVER_LIMIT => words::explain_header(rt, place, word(image, place)),
        refusals::WRONG_LENGTH => explain_length(rt, image.len(), place),
        refusals::TOO_MANY_RUNS => explain_runs(rt, image),
        _ => explain_place(rt, image, code, place),
    }
}

fn report(rt: &impl Print, image: &[u32]) -> io::Result<()> {
    let answer = refusals::check(image);
    if answer.code == 0 {
        let width = word(image, HEADER_WIDTH);
        let height = word(image, HEADER_HEIGHT);
        println!(rt;
            "accepted width {width} height {height} runs {}",
            answer.runs
        )
    } else {
        println!(rt; "refused {} {}", answer.code, answer.place)?;
        explain(rt, image, answer.code, answer.place)
    }
}

// Reads an image and reports on it.
fn report_input<R: io::Read>(
    rt: &impl Print,
    from: &mut R,
    bytes: &mut [u8],
    words: &mut [u32],
) -> io::Result<()> {
    match image_input::read_image(from, bytes, words) {
        Ok(count) => report(rt, &words[..count]),
        Err(why) => println!(rt; "unread\n{why}"),
    }
}

fn main(rt: HostRuntime) -> io::Result<()> {
    let mut bytes = [0u8; 4 * MOST_WORDS + 1];
    let mut words = [0u32; MOST_WORDS];
    report_input(&rt, &mut rt.stdin(), &mut bytes, &mut words)
}
