// A value in columns of a plane: colours and stamps.
ghost use Rattle.std.specs.Prelude.{◌≡◌, ◌+◌, ◌*◌, ◌≤◌, length};
ghost use Rattle.window.specs.Writes.{fill, paint_on};
ghost use Rattle.window.specs.Window.{on_part, on_row, plane_of, Room, LentRoom};
ghost use Rattle.window.specs.Computed.{on_rows};

use crate::{Lent, Tint};
use rows::Window;

// In so many columns of a row from x on; columns past the row's end vanish.
pub fn fill(row: &mut [u32], x: usize, columns: usize, value: u32)
    ensures { row.new ≡ fill value x columns row.old }
{
    let room = ground::minus(row.len(), x);
    // counted from 0: of one column the compiler then sees that it is one
    for k in 0..ground::min(columns, room) {
        row[x + k] = value;
    }
}

fn fill_part(plane: &mut [u32], start: usize, width: usize, x: usize, columns: usize, value: u32)
    requires { start + width ≤ length plane.old }
    ensures { plane.new ≡ on_part start width (fill value x columns) plane.old }
{
    let end = start + width;
    fill(&mut plane[start..end], x, columns, value);
}

fn paint_part(
    plane: &mut [u32],
    start: usize,
    width: usize,
    x: usize,
    columns: usize,
    paint: Option<u32>,
)
    requires { start + width ≤ length plane.old }
    ensures { plane.new ≡ on_part start width (paint_on paint x columns) plane.old }
{
    if let Some(value) = paint {
        fill_part(plane, start, width, x, columns, value);
    }
}

// The colour and the stamp of so many columns of a row, by where the row begins in the lent planes.
pub fn tint_part(
    colours: &mut [u32],
    stamps: &mut [u32],
    lent: Lent,
    v: Window,
    start: usize,
    x: usize,
    columns: usize,
    tint: Tint,
)
    requires { (start + v.width ≤ v.rows * v.width) × LentRoom lent v colours.old stamps.old }
    ensures colours_after { plane_of lent colours.new ≡ on_part start v.width (paint_on tint.colour x columns) (plane_of lent colours.old) }
    ensures stamps_after { plane_of lent stamps.new ≡ on_part start v.width (paint_on tint.stamp x columns) (plane_of lent stamps.old) }
{
    match lent {
        Lent::Cells => {}
        Lent::All => {
            let width = v.width;
            let colour = tint.colour;
            let stamp = tint.stamp;
            paint_part(colours, start, width, x, columns, colour);
            paint_part(stamps, start, width, x, columns, stamp);
        }
    }
}

// The same by the row of the sheet.
pub fn tint_row(
    colours: &mut [u32],
    stamps: &mut [u32],
    lent: Lent,
    v: Window,
    y: usize,
    x: usize,
    columns: usize,
    tint: Tint,
)
    requires { (v.rows * v.width ≤ 0xFFFFFFFFFFFFFFFF) × LentRoom lent v colours.old stamps.old }
    ensures colours_after { plane_of lent colours.new ≡ on_row v y (paint_on tint.colour x columns) (plane_of lent colours.old) }
    ensures stamps_after { plane_of lent stamps.new ≡ on_row v y (paint_on tint.stamp x columns) (plane_of lent stamps.old) }
{
    if v.has(y) {
        let start = crate::row_at(v, y);
        tint_part(colours, stamps, lent, v, start, x, columns, tint);
    }
}

// In a column, in the rows from low to below high that the window has.
fn fill_down(plane: &mut [u32], v: Window, x: usize, low: usize, high: usize, value: u32)
    requires { Room v plane.old × (v.first + v.rows ≤ 0xFFFFFFFF) }
    ensures { plane.new ≡ on_rows v low high (λ y. fill value x 1) plane.old }
{
    let width = v.width;
    let first = v.first;
    let rows = v.rows;
    let end = ground::min(high, first + rows);
    for y in ground::max(low, first)..end {
        let start = crate::row_start(y - first, width, rows);
        fill_part(plane, start, width, x, 1, value);
    }
}

fn paint_down(plane: &mut [u32], v: Window, x: usize, low: usize, high: usize, paint: Option<u32>)
    requires { Room v plane.old × (v.first + v.rows ≤ 0xFFFFFFFF) }
    ensures { plane.new ≡ on_rows v low high (λ y. paint_on paint x 1) plane.old }
{
    if let Some(value) = paint {
        fill_down(plane, v, x, low, high, value);
    }
}

// The colour and the stamp of a column, in the rows from low to below high.
pub fn tint_down(
    colours: &mut [u32],
    stamps: &mut [u32],
    lent: Lent,
    v: Window,
    x: usize,
    low: usize,
    high: usize,
    tint: Tint,
)
    requires { LentRoom lent v colours.old stamps.old × (v.first + v.rows ≤ 0xFFFFFFFF) }
    ensures colours_after { plane_of lent colours.new ≡ on_rows v low high (λ y. paint_on tint.colour x 1) (plane_of lent colours.old) }
    ensures stamps_after { plane_of lent stamps.new ≡ on_rows v low high (λ y. paint_on tint.stamp x 1) (plane_of lent stamps.old) }
{
    match lent {
        Lent::Cells => {}
        Lent::All => {
            let colour = tint.colour;
            let stamp = tint.stamp;
            paint_down(colours, v, x, low, high, colour);
            paint_down(stamps, v, x, low, high, stamp);
        }
    }
}
