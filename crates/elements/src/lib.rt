// The list of elements by itself: codes 7 and 8, and each thing's listing, found in one walk.
#![tactic(auto)]

ghost use Rattle.std.specs.Prelude.{◌≡◌, ◌+◌, ◌*◌, ◌-◌, ◌≤◌, ◌<◌, length, get_or, set, replicate};
ghost use Rattle.ground.specs.Judged.{first_bad};
ghost use Rattle.layout.specs.Layout.{max_elements, element_size};
ghost use Rattle.layout.specs.Inside.{Inside};
ghost use Rattle.layout.specs.Small.{AllSmall};
ghost use Rattle.elements.specs.Elements.{first_row, last_row, rows_broken, order_judged};
ghost use Rattle.elements.specs.Slots.{slot_count, slot_of, element_slot, ElementsGood, Listed};

use layout::{
    ELEMENT_FIRST_ROW, ELEMENT_INDEX, ELEMENT_KIND, ELEMENT_LAST_ROW, Tables, field, field_inside,
};

// How many slots there are: a word for each thing, of which each kind has at most so many.
pub const SLOT_COUNT: usize = layout::ELEMENT_KINDS * THINGS;

// How many slots each kind has.
const THINGS: usize = layout::MAX_THINGS as usize;

// Where a thing's word stands among the slots.
pub fn slot_of(kind: u32, index: usize) -> usize
    requires { index < 4294967296 }
    ensures { result ≡ slot_of kind index }
{
    THINGS * ground::number(kind) + index
}

// The slot of the thing that an element names.
pub fn element_slot(image: &[u32], ts: Tables, k: usize) -> usize
    requires { Inside image.now element_size ts.elements × (k < ts.elements.count) }
    ensures { result ≡ element_slot image.now ts k }
{
    let elements = ts.elements;
    let index = ground::number(field_inside(image, elements, k, ELEMENT_INDEX));
    slot_of(field_inside(image, elements, k, ELEMENT_KIND), index)
}

// The word at a slot, 0 past the end.
pub fn slot_word(slots: &[u32], slot: usize) -> u32
    ensures { result ≡ get_or slots.now slot 0 }
{
    if slot < slots.len() { slots[slot] } else { 0 }
}

fn set_slot(slots: &mut [u32], slot: usize, value: u32)
    ensures { slots.new ≡ set slots.old slot value }
{
    if slot < slots.len() {
        slots[slot] = value;
    }
}

// Code 7, and each thing's listing: one walk over the elements, with slots that are all 0.
pub fn list_elements(image: &[u32], ts: Tables, slots: &mut [u32]) -> Option<usize>
    requires inside { Inside image.now element_size ts.elements × (ts.elements.count ≤ max_elements) × ElementsGood image.now ts }
    requires slots_value { slots.old ≡ replicate slot_count 0 }
    ensures { Listed image.now ts slots.new result }
{
    let elements = ts.elements;
    for k in 0..elements.count {
        let slot = element_slot(image, ts, k);
        if slot_word(slots, slot) != 0 {
            return Some(layout::record_at(elements, k));
        }
        set_slot(slots, slot, (k + 1) as u32);
    }
    None
}

pub fn first_row(image: &[u32], ts: Tables, k: usize) -> u32
    requires { AllSmall ts × (k < 4294967296) }
    ensures { result ≡ first_row image.now ts k }
{
    let elements = ts.elements;
    field(image, elements, k, ELEMENT_FIRST_ROW)
}

pub fn last_row(image: &[u32], ts: Tables, k: usize) -> u32
    requires { AllSmall ts × (k < 4294967296) }
    ensures { result ≡ last_row image.now ts k }
{
    let elements = ts.elements;
    field(image, elements, k, ELEMENT_LAST_ROW)
}

// "first row > last row, or first row below the previous element's"
fn rows_broken(image: &[u32], ts: Tables, k: usize) -> bool
    requires { Inside image.now element_size ts.elements × (k < ts.elements.count) }
    ensures { result ≡ rows_broken image.now ts k }
{
    let elements = ts.elements;
    let first = field_inside(image, elements, k, ELEMENT_FIRST_ROW);
    if field_inside(image, elements, k, ELEMENT_LAST_ROW) < first {
        return true;
    }
    if k == 0 {
        return false;
    }
    first < field_inside(image, elements, k - 1, ELEMENT_FIRST_ROW)
}

// Code 8.
pub fn bad_order(image: &[u32], ts: Tables) -> Option<usize>
    requires { Inside image.now element_size ts.elements }
    ensures { result ≡ first_bad (order_judged image.now ts) }
{
    let elements = ts.elements;
    ground::first_found(elements.count, |k| {
        rows_broken(image, ts, k).then_some(layout::record_at(elements, k))
    })
}
