// Which elements a band may show, carried from band to band: each is taken on once, when the bands reach its first row, and let go once they have passed its last.
#![tactic(auto)]

ghost use Rattle.std.specs.Prelude.{◌≡◌, cond, ◌++◌, ◌+◌, ◌≤◌, ◌<◌, leb, length, take, set};
ghost use Rattle.layout.specs.Layout.{max_elements};
ghost use Rattle.layout.specs.Small.{AllSmall};
ghost use Rattle.elements.specs.Elements.{first_row, last_row};
ghost use Rattle.elements.specs.Slots.{element_slot};
ghost use Rattle.selection.specs.Selection.{Walkable, fresh};
ghost use Rattle.sweep.specs.Swept.{reaching, reaching_from, fronted, mark_each, unmark_each, TakenOn, Swept};

use layout::{ELEMENT_INDEX, ELEMENT_KIND, Tables, field};

// "the active elements, the cursor and the next row stand in a sweep record"
#[derive(Clone, Copy)]
pub struct Sweep {
    // how many elements were looked at
    pub cursor: usize,
    // the first row of the next band
    pub next: usize,
    // how many elements are active: their numbers stand in the lent list, in order
    pub active: usize,
}

// What stands in the record once elements were taken on.
#[derive(Clone, Copy)]
struct Taken {
    // how many elements were looked at
    cursor: usize,
    // how many of them are active
    active: usize,
}

// Whether element k reaches a row: its last row is not above it.
fn reaches(image: &[u32], ts: Tables, row: usize, k: usize) -> bool
    requires { AllSmall ts × (k < 4294967296) }
    ensures { result ≡ leb row (last_row image.now ts k) }
{
    row <= ground::number(elements::last_row(image, ts, k))
}

// Whether element k begins at the end or below it.
fn begins_below(image: &[u32], ts: Tables, end: usize, k: usize) -> bool
    requires { AllSmall ts × (k < 4294967296) }
    ensures { result ≡ leb end (first_row image.now ts k) }
{
    end <= ground::number(elements::first_row(image, ts, k))
}

// The slot of the thing that element k names.
fn slot_at(image: &[u32], ts: Tables, k: usize) -> usize
    requires { AllSmall ts × (k < 4294967296) }
    ensures { result ≡ element_slot image.now ts k }
{
    let elements = ts.elements;
    let index = ground::number(field(image, elements, k, ELEMENT_INDEX));
    elements::slot_of(field(image, elements, k, ELEMENT_KIND), index)
}

// A word put at a place and the place after it, where it is wanted; else nothing and the place.
fn put_if(list: &mut [u32], at: usize, word: u32, wanted: bool) -> usize
    requires { at < length list.old }
    ensures value { result ≡ cond wanted (at + 1) at }
    ensures list_after { list.new ≡ cond wanted (set list.old at word) list.old }
{
    if wanted {
        list[at] = word;
        at + 1
    } else {
        at
    }
}

// Takes on the elements from the cursor on that begin above the end and reach the top.
fn take_on(
    image: &[u32],
    ts: Tables,
    top: usize,
    end: usize,
    cursor: usize,
    active: usize,
    list: &mut [u32],
) -> Taken
    requires { AllSmall ts × (active ≤ cursor) × (cursor ≤ ts.elements.count) × (ts.elements.count ≤ length list.old) × (ts.elements.count ≤ max_elements) }
    ensures taken_on { TakenOn image.now ts end cursor result.cursor }
    ensures active_value { result.active ≡ active + length (reaching_from image.now ts top cursor result.cursor) }
    ensures list_after { list.new ≡ fronted (take active list.old ++ reaching_from image.now ts top cursor result.cursor) list.old }
{
    let count = ts.elements.count;
    let mut many = active;
    for k in cursor..count {
        if begins_below(image, ts, end, k) {
            return Taken {
                cursor: k,
                active: many,
            };
        }
        let wanted = reaches(image, ts, top, k);
        many = put_if(list, many, k as u32, wanted);
    }
    Taken {
        cursor: count,
        active: many,
    }
}

// Marks the things of the active elements.
fn mark_active(image: &[u32], ts: Tables, active: usize, list: &[u32], marks: &mut [u8])
    requires { AllSmall ts × (active ≤ length list.now) }
    ensures { marks.new ≡ mark_each image.now ts (take active list.now) marks.old }
{
    for i in 0..active {
        let slot = slot_at(image, ts, ground::number(list[i]));
        selection::mark(marks, slot);
    }
}

// Takes the marks of the active elements back, and lets go of those that lie above a row: the others move up.
fn let_go(
    image: &[u32],
    ts: Tables,
    row: usize,
    active: usize,
    list: &mut [u32],
    marks: &mut [u8],
) -> usize
    requires { AllSmall ts × (active ≤ length list.old) }
    ensures value { result ≡ length (reaching image.now ts row (take active list.old)) }
    ensures list_after { list.new ≡ fronted (reaching image.now ts row (take active list.old)) list.old }
    ensures marks_after { marks.new ≡ unmark_each image.now ts (take active list.old) marks.old }
{
    let mut kept: usize = 0;
    for i in 0..active {
        let k = list[i];
        let element = ground::number(k);
        let slot = slot_at(image, ts, element);
        selection::unmark(marks, slot);
        let wanted = reaches(image, ts, row, element);
        kept = put_if(list, kept, k, wanted);
    }
    kept
}

// The record at the first row of a sheet.
pub fn start() -> Sweep
    ensures { (result.cursor ≡ 0) × (result.next ≡ 0) × (result.active ≡ 0) }
{
    Sweep {
        cursor: 0,
        next: 0,
        active: 0,
    }
}

// What the band of so many rows from the next row on may show: the marks that a fresh selection makes for it, which are those of the active elements.
pub fn select(
    image: &[u32],
    ts: Tables,
    sweep: Sweep,
    rows: usize,
    list: &mut [u32],
    marks: &mut [u8],
) -> Sweep
    requires { AllSmall ts × Walkable image.now ts × (sweep.next + rows ≤ 0xFFFFFFFF) × (ts.elements.count ≤ length list.old) × Swept image.now ts 0 sweep list.old }
    ensures swept { Swept image.now ts rows result list.new × (result.next ≡ sweep.next) }
    ensures marks_after { marks.new ≡ fresh image.now ts sweep.next (sweep.next + rows) marks.old }
    ensures marks_after_2 { marks.new ≡ mark_each image.now ts (take result.active list.new) marks.old }
{
    let top = sweep.next;
    let taken = take_on(image, ts, top, top + rows, sweep.cursor, sweep.active, list);
    mark_active(image, ts, taken.active, list, marks);
    Sweep {
        cursor: taken.cursor,
        next: top,
        active: taken.active,
    }
}

// Behind the band: its marks are taken back, the elements that end in it are let go, and the next row is the one below it.
pub fn pass(
    image: &[u32],
    ts: Tables,
    sweep: Sweep,
    rows: usize,
    list: &mut [u32],
    marks: &mut [u8],
) -> Sweep
    requires { AllSmall ts × (sweep.next + rows ≤ 0xFFFFFFFF) × (ts.elements.count ≤ length list.old) × Swept image.now ts rows sweep list.old }
    ensures swept { Swept image.now ts 0 result list.new × (result.next ≡ sweep.next + rows) }
    ensures marks_after { marks.new ≡ unmark_each image.now ts (take sweep.active list.old) marks.old }
{
    let below = sweep.next + rows;
    let kept = let_go(image, ts, below, sweep.active, list, marks);
    Sweep {
        cursor: sweep.cursor,
        next: below,
        active: kept,
    }
}
