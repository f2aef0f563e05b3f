// What a sheet can have filled in: the list of elements, and the run capacity. Both are read off the image by the same calls as the check's.
ghost use Rattle.std.specs.Prelude.{◌<◌, ◌≤◌};
ghost use Rattle.layout.specs.Small.{AllSmall};

use crate::{add, count, field, put, put_field, room_of};
use image::ElementKind;
use layout::{
    ELEMENT_FIRST_ROW, ELEMENT_INDEX, ELEMENT_KIND, ELEMENT_LAST_ROW, ELEMENT_SIZE, HEADER_RUNS,
    MAX_THINGS, RecordKind, Tables,
};

// A number as a word. Rows and runs of an image are all of 32 bits.
fn word_of(n: usize) -> u32 {
    u32::try_from(n).unwrap_or(u32::MAX)
}

// Where element k of a draft begins.
fn element_at(k: usize) -> usize
    requires { k < 4294967296 }
{
    layout::record_at(room_of(RecordKind::Element), k)
}

// Moves element k up by one.
fn move_up(draft: &mut [u32], k: usize)
    requires { k < 4294967295 }
{
    let from = element_at(k);
    let to = element_at(k + 1);
    for word in 0..ELEMENT_SIZE {
        put_field(draft, to, word, field(draft, from, word));
    }
}

// Moves the last elements, of so many, that begin below a row up by one, and answers where room is made.
fn make_room(draft: &mut [u32], elements: usize, first: u32) -> usize
    requires { elements < 4294967296 }
    ensures { result < 4294967296 }
{
    for k in (0..elements).rev() {
        if field(draft, element_at(k), ELEMENT_FIRST_ROW) <= first {
            return k + 1;
        }
        move_up(draft, k);
    }
    0
}

// Lists a thing by its first row, behind all that begin there or above.
fn list(draft: &mut [u32], kind: u32, index: u32, first: u32, last: u32) {
    let elements = ground::number(count(draft, RecordKind::Element));
    add(draft, RecordKind::Element);
    let place = element_at(make_room(draft, elements, first));
    put_field(draft, place, ELEMENT_KIND, kind);
    put_field(draft, place, ELEMENT_INDEX, index);
    put_field(draft, place, ELEMENT_FIRST_ROW, first);
    put_field(draft, place, ELEMENT_LAST_ROW, last);
}

// Lists a thing if it touches a row of the sheet.
fn list_touched(image: &[u32], ts: Tables, kind: ElementKind, k: usize, draft: &mut [u32])
    requires { AllSmall ts × (k < 4294967296) }
{
    let touched = things::touched_rows(kind, image, ts, k);
    let Some(rows) = touched else {
        return;
    };
    list(
        draft,
        u32::from(kind),
        word_of(k),
        word_of(rows.first),
        word_of(rows.last),
    );
}

// Lists the things of a kind.
fn list_all(image: &[u32], ts: Tables, kind: ElementKind, things: usize, draft: &mut [u32])
    requires { AllSmall ts × (things < 4294967296) }
{
    for k in 0..things {
        list_touched(image, ts, kind, k, draft);
    }
}

// Lists each thing of the image that touches a row of the sheet, by first row, then kind, then index.
pub fn fill_elements(image: &[u32], draft: &mut [u32]) {
    let ts = layout::tables_of(image);
    list_all(image, ts, ElementKind::Node, ts.nodes.count, draft);
    list_all(image, ts, ElementKind::Edge, ts.edges.count, draft);
    list_all(image, ts, ElementKind::Subgraph, ts.subgraphs.count, draft);
}

// The run capacity: the runs that the image has.
pub fn fill_runs(image: &[u32], draft: &mut [u32]) {
    let ts = layout::tables_of(image);
    if ts.edges.count <= ground::number(MAX_THINGS) {
        put(draft, HEADER_RUNS, word_of(things::run_count(image, ts)));
    }
}
