// "Subgraphs": the border, and later the label.
ghost use Rattle.std.specs.Prelude.{◌≡◌, ◌≤◌, length};
ghost use Rattle.window.specs.Writes.{tinted};
ghost use Rattle.window.specs.Window.{ink_window, canvas_of, Ready};
ghost use Rattle.frame.specs.Subgraphs.{border_spots, subgraph_label_spots};

use frame::{frames, subgraphs};
use image::Subgraph;
use rows::Window;
use window::{Lent, Tint};

// "Border if width and height ≥ 2."
pub fn paint_border(
    cells: &mut [u32],
    colours: &mut [u32],
    stamps: &mut [u32],
    lent: Lent,
    ranges: &[u32],
    v: Window,
    s: Subgraph,
    tint: Tint,
)
    requires { Ready lent v cells.old colours.old stamps.old }
    ensures { canvas_of lent cells.new colours.new stamps.new ≡ ink_window v ranges.now (tinted tint (border_spots s)) (canvas_of lent cells.old colours.old stamps.old) }
{
    let border = s.border;
    if subgraphs::has_border(s) {
        let x = ground::number(s.x);
        let y = ground::number(s.y);
        let width = ground::number(s.width);
        let height = ground::number(s.height);
        boxes::box_at(
            cells, colours, stamps, lent, ranges, v, x, y, width, height, border, tint,
        );
    }
}

// "Label at x + 2 if nonempty, width ≥ 4, height ≥ 3": its fitting part.
pub fn paint_label(
    cells: &mut [u32],
    colours: &mut [u32],
    stamps: &mut [u32],
    lent: Lent,
    ranges: &[u32],
    v: Window,
    s: Subgraph,
    label: &[u32],
    tint: Tint,
)
    requires { Ready lent v cells.old colours.old stamps.old × (length label.now ≤ 0x100000000) }
    ensures { canvas_of lent cells.new colours.new stamps.new ≡ ink_window v ranges.now (tinted tint (subgraph_label_spots ranges.now s label.now)) (canvas_of lent cells.old colours.old stamps.old) }
{
    if subgraphs::has_label(s, label) {
        let x = ground::number(s.x) + 2;
        let y = subgraphs::label_row(s);
        let part = frames::fitting_part(ranges, s.width, label);
        text::text_at(cells, colours, stamps, lent, ranges, v, x, y, part, tint);
    }
}
