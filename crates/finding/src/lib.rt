// What a refusal of codes 5, 7, 8 or 9 is about: how a width range breaks its rule, which element lists a thing, how an element's rows are out of order, and which rows a thing
// touches. Each call is told the image and a record's number, and takes any words.
#![tactic(auto)]

ghost use Rattle.std.specs.Prelude.{◌≡◌, ◌≤◌, ◌<◌};
ghost use Rattle.layout.specs.Fields.{table_of, field_at};
ghost use Rattle.layout.specs.Small.{AllSmall};
ghost use Rattle.layout.specs.Tables.{tables_of, field};
ghost use Rattle.image.specs.Records.{element_at};
ghost use Rattle.elements.specs.Elements.{names, listing};
ghost use Rattle.things.specs.Computed.{Touched};
ghost use Rattle.things.specs.Things.{ranges_of};
ghost use Rattle.finding.specs.Ranges.{fixed_at, fixed_in, range_faults};
ghost use Rattle.finding.specs.Order.{order_faults};

use image::{Element, ElementKind};
use layout::{FieldName, RANGE_LAST, RANGE_SIZE, RecordKind, Tables, word};
use rows::Rows;

// Which field stands at a place.
pub fn field_at(image: &[u32], place: usize) -> FieldName
    ensures { result ≡ field_at (tables_of image.now) place }
{
    layout::field_at(layout::tables_of(image), place)
}

// What a field of record k of a kind holds.
pub fn field_of(image: &[u32], kind: RecordKind, k: usize, offset: usize) -> u32
    requires { (k < 4294967296) × (offset ≤ 16) }
    ensures { result ≡ field image.now (table_of kind (tables_of image.now)) k offset }
{
    let ts = layout::tables_of(image);
    layout::field(image, layout::table_of(kind, ts), k, offset)
}

// How a width range breaks the rule of code 5.
#[derive(Clone, Copy)]
pub struct RangeFaults {
    // its first value
    pub first: u32,
    // its last value
    pub last: u32,
    // the first value of the range before it
    pub first_before: u32,
    // the last value of the range before it
    pub last_before: u32,
    // "first > last"
    pub turned: bool,
    // "first not above the last before it"
    pub not_above: bool,
    // the first of the four fixed characters that it holds
    pub fixed: Option<usize>,
}

// A value, where the range from first to last holds it.
fn fixed_at(first: u32, last: u32, value: u32) -> Option<usize>
    ensures { result ≡ fixed_at first last value }
{
    let holds = (first <= value) & (value <= last);
    holds.then_some(ground::number(value))
}

// "holds 0020, 0022, 005B or 005D": the first of them.
fn fixed_in(first: u32, last: u32) -> Option<usize>
    ensures { result ≡ fixed_in first last }
{
    let space_or_quote = fixed_at(first, last, 0x20).or(fixed_at(first, last, 0x22));
    let bracket = fixed_at(first, last, 0x5B).or(fixed_at(first, last, 0x5D));
    space_or_quote.or(bracket)
}

// The faults of range k among the words of all ranges.
fn range_faults_in(ranges: &[u32], k: usize) -> RangeFaults
    requires { k < 4294967296 }
    ensures { result ≡ range_faults ranges.now k }
{
    let before = ground::minus(k, 1);
    let first = word(ranges, RANGE_SIZE * k);
    let last = word(ranges, RANGE_SIZE * k + RANGE_LAST);
    let last_before = word(ranges, RANGE_SIZE * before + RANGE_LAST);
    RangeFaults {
        first: first,
        last: last,
        first_before: word(ranges, RANGE_SIZE * before),
        last_before: last_before,
        turned: last < first,
        not_above: (0 < k) & (first <= last_before),
        fixed: fixed_in(first, last),
    }
}

// How width range k breaks the rule of code 5.
pub fn range_faults(image: &[u32], k: usize) -> RangeFaults
    requires { k < 4294967296 }
    ensures { result ≡ range_faults (ranges_of image.now (tables_of image.now)) k }
{
    let ts = layout::tables_of(image);
    range_faults_in(image::table_words(image, ts.ranges), k)
}

// What element k lists, and on which rows.
pub fn element(image: &[u32], k: usize) -> Element
    requires { k < 4294967296 }
    ensures { result ≡ element_at image.now (tables_of image.now).elements k }
{
    let ts = layout::tables_of(image);
    image::element_at(image, ts.elements, k)
}

// How an element's rows are out of order.
#[derive(Clone, Copy)]
pub struct OrderFaults {
    // the first row of the element before it
    pub before: u32,
    // "first row > last row"
    pub turned: bool,
    // "first row below the previous element's"
    pub early: bool,
}

// How element k breaks the rule of code 8.
pub fn order_faults(image: &[u32], k: usize) -> OrderFaults
    requires { k < 4294967296 }
    ensures { result ≡ order_faults image.now (tables_of image.now) k }
{
    let ts = layout::tables_of(image);
    let first = elements::first_row(image, ts, k);
    let before = elements::first_row(image, ts, ground::minus(k, 1));
    OrderFaults {
        before: before,
        turned: elements::last_row(image, ts, k) < first,
        early: (0 < k) & (first < before),
    }
}

// Whether element k names this thing.
fn names_thing(image: &[u32], ts: Tables, kind: u32, index: usize, k: usize) -> bool
    requires { AllSmall ts × (k < 4294967296) }
    ensures { result ≡ names image.now ts kind index k }
{
    let elements = ts.elements;
    let named = layout::field(image, elements, k, layout::ELEMENT_KIND);
    let number = layout::field(image, elements, k, layout::ELEMENT_INDEX);
    (named == kind) & (ground::number(number) == index)
}

// The first element that lists a thing.
pub fn lister_of(image: &[u32], kind: u32, index: usize) -> Option<usize>
    ensures { result ≡ listing image.now (tables_of image.now) kind index }
{
    let ts = layout::tables_of(image);
    ground::first_found(ts.elements.count, |k| {
        names_thing(image, ts, kind, index, k).then_some(k)
    })
}

// The rows of the sheet that a thing touches, from the first to the last.
pub fn touched(image: &[u32], kind: ElementKind, k: usize) -> Option<Rows>
    requires { k < 4294967296 }
    ensures { Touched kind image.now (tables_of image.now) k result }
{
    things::touched_rows(kind, image, layout::tables_of(image), k)
}
