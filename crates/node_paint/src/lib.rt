// Nodes painted in a window of rows: a dummy's marker, a node with its label, and the self-loop marker.
#![tactic(auto)]

ghost use Rattle.std.specs.Prelude.{◌≡◌, ◌≤◌, length};
ghost use Rattle.window.specs.Writes.{tinted};
ghost use Rattle.window.specs.Window.{ink_window, canvas_of, Ready};
ghost use Rattle.frame.specs.Nodes.{dummy_spots, loop_spots, look_spots, node_spots};

use cell::{Dir, MarkerKind};
use frame::Look;
use image::{Node, Point};
use rows::Window;
use window::{Lent, Tint};

// "Then the self-loop marker, Up."
fn paint_loop(
    cells: &mut [u32],
    colours: &mut [u32],
    stamps: &mut [u32],
    lent: Lent,
    ranges: &[u32],
    v: Window,
    at: Option<Point>,
    tint: Tint,
)
    requires { Ready lent v cells.old colours.old stamps.old }
    ensures { canvas_of lent cells.new colours.new stamps.new ≡ ink_window v ranges.now (tinted tint (loop_spots at)) (canvas_of lent cells.old colours.old stamps.old) }
{
    let Some(point) = at else {
        return;
    };
    window::marker_at(
        cells,
        colours,
        stamps,
        lent,
        ranges,
        v,
        ground::number(point.x),
        ground::number(point.y),
        MarkerKind::SelfLoop,
        Dir::Up,
        false,
        tint,
    );
}

// "Dummy: a Dummy Up marker if shown, nothing else."
fn paint_dummy(
    cells: &mut [u32],
    colours: &mut [u32],
    stamps: &mut [u32],
    lent: Lent,
    ranges: &[u32],
    v: Window,
    n: Node,
    tint: Tint,
)
    requires { Ready lent v cells.old colours.old stamps.old }
    ensures { canvas_of lent cells.new colours.new stamps.new ≡ ink_window v ranges.now (tinted tint (dummy_spots n)) (canvas_of lent cells.old colours.old stamps.old) }
{
    window::marker_at(
        cells,
        colours,
        stamps,
        lent,
        ranges,
        v,
        ground::number(n.x),
        ground::number(n.y),
        MarkerKind::Dummy,
        Dir::Up,
        false,
        tint,
    );
}

// What a node shows that looks so: all but dummies then show their self-loop.
fn paint_look(
    cells: &mut [u32],
    colours: &mut [u32],
    stamps: &mut [u32],
    lent: Lent,
    ranges: &[u32],
    v: Window,
    n: Node,
    label: &[u32],
    look: Look,
    tint: Tint,
)
    requires { Ready lent v cells.old colours.old stamps.old × (length label.now ≤ 0x100000000) }
    ensures { canvas_of lent cells.new colours.new stamps.new ≡ ink_window v ranges.now (tinted tint (look_spots ranges.now n label.now look)) (canvas_of lent cells.old colours.old stamps.old) }
{
    let at = n.self_loop;
    match look {
        Look::Hidden => {}
        Look::Dummy => paint_dummy(cells, colours, stamps, lent, ranges, v, n, tint),
        Look::Box => {
            node_labels::paint_boxed(cells, colours, stamps, lent, ranges, v, n, label, tint);
            paint_loop(cells, colours, stamps, lent, ranges, v, at, tint);
        }
        Look::Simple => {
            node_labels::paint_simple(cells, colours, stamps, lent, ranges, v, n, label, tint);
            paint_loop(cells, colours, stamps, lent, ranges, v, at, tint);
        }
        Look::Blank => paint_loop(cells, colours, stamps, lent, ranges, v, at, tint),
    }
}

// A node, with dummies shown or not.
pub fn paint_node(
    cells: &mut [u32],
    colours: &mut [u32],
    stamps: &mut [u32],
    lent: Lent,
    ranges: &[u32],
    v: Window,
    show_dummies: bool,
    n: Node,
    label: &[u32],
    tint: Tint,
)
    requires { Ready lent v cells.old colours.old stamps.old × (length label.now ≤ 0x100000000) }
    ensures { canvas_of lent cells.new colours.new stamps.new ≡ ink_window v ranges.now (tinted tint (node_spots ranges.now show_dummies n label.now)) (canvas_of lent cells.old colours.old stamps.old) }
{
    let look = frame::nodes::look_of(show_dummies, n);
    paint_look(
        cells, colours, stamps, lent, ranges, v, n, label, look, tint,
    );
}
