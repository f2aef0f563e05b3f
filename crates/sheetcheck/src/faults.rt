// Codes 5 to 9 and 13: what is wrong with a record whose words each keep their rule.
use crate::names;
use finding::{OrderFaults, RangeFaults};
use glyph_owner::GlyphOwner;
use image::{ElementKind, FlowAxis};
use low_corner::LowCorner;
use rows::Rows;
use std::io;

// How width range k breaks the rule of code 5.
pub fn range(rt: &impl Print, faults: RangeFaults, k: usize) -> io::Result<()> {
    let first_before = faults.first_before;
    let last_before = faults.last_before;
    print!(rt; ": from {:04X} to {:04X}", faults.first, faults.last)?;
    if 0 < k {
        print!(rt;
            ", after width range {}, from {first_before:04X} to {last_before:04X}",
            k - 1
        )?;
    }
    if faults.turned {
        print!(rt; "; its first must be at most its last")?;
    }
    if faults.not_above {
        print!(rt; "; its first must be above {last_before:04X}")?;
    }
    if let Some(held) = faults.fixed {
        print!(rt; "; holds {held:04X}, and no range may hold 0020, 0022, 005B or 005D")?;
    }
    Ok(())
}

// A glyph that is a control character, and the first label that uses it.
pub fn control(rt: &impl Print, value: u32, owner: Option<GlyphOwner>) -> io::Result<()> {
    print!(rt; ": holds {value:04X}, a control character")?;
    let Some(owner) = owner else {
        return print!(rt;
            "; no label uses it; take it out of the table, or put a printable character in its place"
        );
    };
    let name = names::element(owner.kind);
    let GlyphOwner {
        index,
        position,
        ..
    } = owner;
    print!(rt;
        "; it is glyph {position} of the label of {name} {index}; take it out of the label, or put a printable character in its place"
    )
}

// The corner of an edge that lies below 0.
pub fn corner(rt: &impl Print, low: Option<LowCorner>) -> io::Result<()> {
    let Some(low) = low else {
        return Ok(());
    };
    let LowCorner {
        axis,
        leg,
        start,
        steps,
    } = low;
    let s = names::plural(steps);
    let below = ground::minus(steps, start);
    match axis {
        FlowAxis::Y => {
            print!(rt;
                ": its leg {leg} starts on row {start} and bends {steps} cell{s} further up, on row -{below}"
            )
        }
        FlowAxis::X => {
            print!(rt;
                ": its leg {leg} starts on column {start} and bends {steps} cell{s} further left, on column -{below}"
            )
        }
    }?;
    print!(rt; "; a leg bends 1 cell past its start, and leg 0 its start offset more")
}

// A thing that an element lists already.
pub fn twice(
    rt: &impl Print,
    kind: ElementKind,
    index: u32,
    lister: Option<usize>,
) -> io::Result<()> {
    let Some(k) = lister else {
        return Ok(());
    };
    let name = names::element(kind);
    print!(rt; ": lists {name} {index}, which element {k} lists already")
}

// Element k, whose rows are out of order.
pub fn order(
    rt: &impl Print,
    first: u32,
    last: u32,
    faults: OrderFaults,
    k: usize,
) -> io::Result<()> {
    print!(rt; ": first row {first}, last row {last}")?;
    if faults.turned {
        print!(rt; "; the first row must be at most the last")?;
    }
    if faults.early {
        let before = faults.before;
        print!(rt;
            "; its first row must be at least {before}, that of element {} before it",
            ground::minus(k, 1)
        )?;
    }
    Ok(())
}

// The rows of the sheet that a thing touches.
pub fn touched(rt: &impl Print, rows: Option<Rows>) -> io::Result<()> {
    let Some(rows) = rows else {
        return Ok(());
    };
    let Rows { first, last } = rows;
    print!(rt; ": the first touched row of the sheet is {first}, the last is {last}")
}

// The rows on which element k lists a thing.
pub fn listed(rt: &impl Print, k: usize, first: u32, last: u32) -> io::Result<()> {
    print!(rt; "; element {k} lists rows {first} to {last}, and must list both")
}
