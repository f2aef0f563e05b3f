// A node's label painted in a window of rows: in a box, or between brackets.
#![tactic(auto)]

ghost use Rattle.std.specs.Prelude.{◌≡◌, ◌≤◌, length};
ghost use Rattle.window.specs.Writes.{tinted};
ghost use Rattle.window.specs.Window.{ink_window, canvas_of, Ready};
ghost use Rattle.frame.specs.Nodes.{boxed_spots, closing, simple_spots};

use cell::Weight;
use frame::frames;
use image::Node;
use rows::Window;
use window::{Lent, Tint};

const OPENING: u32 = 0x5B;

const CLOSING: u32 = 0x5D;

// "Light box, fitting part at x + 2, y + 1"
pub fn paint_boxed(
    cells: &mut [u32],
    colours: &mut [u32],
    stamps: &mut [u32],
    lent: Lent,
    ranges: &[u32],
    v: Window,
    n: Node,
    label: &[u32],
    tint: Tint,
)
    requires { Ready lent v cells.old colours.old stamps.old × (length label.now ≤ 0x100000000) }
    ensures { canvas_of lent cells.new colours.new stamps.new ≡ ink_window v ranges.now (tinted tint (boxed_spots ranges.now n label.now)) (canvas_of lent cells.old colours.old stamps.old) }
{
    let x = ground::number(n.x);
    let y = ground::number(n.y);
    let width = ground::number(n.width);
    let height = ground::number(n.height);
    boxes::box_at(
        cells,
        colours,
        stamps,
        lent,
        ranges,
        v,
        x,
        y,
        width,
        height,
        Weight::Light,
        tint,
    );
    let part = frames::fitting_part(ranges, n.width, label);
    text::text_at(
        cells,
        colours,
        stamps,
        lent,
        ranges,
        v,
        x + 2,
        y + 1,
        part,
        tint,
    );
}

// "the closing column x + max(width,1) − 1"
fn closing(n: Node) -> usize
    ensures { result ≡ closing n }
{
    ground::number(n.x) + ground::max(ground::number(n.width), 1) - 1
}

// "`[` always; glyphs until the first that would reach the closing column ..; `]` there if width ≥ 2"
pub fn paint_simple(
    cells: &mut [u32],
    colours: &mut [u32],
    stamps: &mut [u32],
    lent: Lent,
    ranges: &[u32],
    v: Window,
    n: Node,
    label: &[u32],
    tint: Tint,
)
    requires { Ready lent v cells.old colours.old stamps.old × (length label.now ≤ 0x100000000) }
    ensures { canvas_of lent cells.new colours.new stamps.new ≡ ink_window v ranges.now (tinted tint (simple_spots ranges.now n label.now)) (canvas_of lent cells.old colours.old stamps.old) }
{
    let x = ground::number(n.x);
    let y = ground::number(n.y);
    let close = closing(n);
    window::glyph_at(cells, colours, stamps, lent, ranges, v, x, y, OPENING, tint);
    text::text_until(
        cells,
        colours,
        stamps,
        lent,
        ranges,
        v,
        close,
        x + 1,
        y,
        label,
        tint,
    );
    if 2 <= n.width {
        window::glyph_at(
            cells, colours, stamps, lent, ranges, v, close, y, CLOSING, tint,
        );
    }
}
