// Which things a band may show, by the element list: "each call selects afresh".
#![tactic(auto)]

ghost use Rattle.std.specs.Prelude.{◌≡◌, ◌+◌, ◌<◌, set};
ghost use Rattle.layout.specs.Layout.{element_size};
ghost use Rattle.layout.specs.Inside.{Inside};
ghost use Rattle.selection.specs.Selection.{mark_element, Walkable, Begun, fresh};

use layout::{ELEMENT_FIRST_ROW, ELEMENT_LAST_ROW, Tables, field_inside};

// Marks the thing of a slot.
pub fn mark(marks: &mut [u8], slot: usize)
    ensures { marks.new ≡ set marks.old slot 1 }
{
    if slot < marks.len() {
        marks[slot] = 1;
    }
}

// Takes the mark of a slot back.
pub fn unmark(marks: &mut [u8], slot: usize)
    ensures { marks.new ≡ set marks.old slot 0 }
{
    if slot < marks.len() {
        marks[slot] = 0;
    }
}

// Marks the thing of an element whose last row is not above the top.
fn mark_element(image: &[u32], ts: Tables, top: usize, k: usize, marks: &mut [u8])
    requires { Inside image.now element_size ts.elements × (k < ts.elements.count) }
    ensures { marks.new ≡ mark_element image.now ts top k marks.old }
{
    if top <= ground::number(field_inside(image, ts.elements, k, ELEMENT_LAST_ROW)) {
        mark(marks, elements::element_slot(image, ts, k));
    }
}

// How many elements begin above the end. The elements stand in the order of their first rows, so that halving finds it.
fn count_above(image: &[u32], ts: Tables, end: usize) -> usize
    requires { Walkable image.now ts }
    ensures { Begun image.now ts end result }
{
    let mut low: usize = 0;
    let mut high = ts.elements.count;
    // halving, which no range steps through
    while low < high {
        let middle = low + (high - low) / 2;
        if end <= ground::number(field_inside(image, ts.elements, middle, ELEMENT_FIRST_ROW)) {
            high = middle;
        } else {
            low = middle + 1;
        }
    }
    high
}

// A fresh selection: marks each thing that an element lists with rows from the top on and above the end.
pub fn mark_listed(image: &[u32], ts: Tables, top: usize, end: usize, marks: &mut [u8])
    requires { Walkable image.now ts }
    ensures { marks.new ≡ fresh image.now ts top end marks.old }
{
    let count = count_above(image, ts, end);
    for k in 0..count {
        mark_element(image, ts, top, k, marks);
    }
}
