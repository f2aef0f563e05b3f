// The border of a box: four corners, and strokes between them.
#![tactic(auto)]

ghost use Rattle.std.specs.Prelude.{◌≡◌, ◌&&◌, ◌||◌, ◌++◌, ◌+◌, ◌≤◌, ◌<◌, leb, ltb};
ghost use Rattle.window.specs.Writes.{tinted};
ghost use Rattle.window.specs.Window.{ink_window, canvas_of, Ready};
ghost use Rattle.frame.specs.Frames.{corners, across, down, box};
ghost use Rattle.boxes.specs.Computed.{plain_line, corner_pair};

use cell::{Arms, Weight};
use flow::Line;
use rows::Window;
use window::{Lent, Tint};

// A line with no arrow.
fn plain(lane: usize, from: usize, to: usize) -> Line
    ensures { result ≡ plain_line lane from to }
{
    Line {
        lane: lane,
        from: from,
        to: to,
        winner: None,
        other: None,
    }
}

// The two corners on a row, each with its two arms inward.
fn corner_pair(
    cells: &mut [u32],
    colours: &mut [u32],
    stamps: &mut [u32],
    lent: Lent,
    ranges: &[u32],
    v: Window,
    left: usize,
    right: usize,
    y: usize,
    down: bool,
    w: Weight,
    tint: Tint,
)
    requires { Ready lent v cells.old colours.old stamps.old }
    ensures { canvas_of lent cells.new colours.new stamps.new ≡ ink_window v ranges.now (tinted tint (corner_pair w left right y down)) (canvas_of lent cells.old colours.old stamps.old) }
{
    let one = flow::corner(w, down, true);
    let two = flow::corner(w, down, false);
    window::stroke_at(cells, colours, stamps, lent, ranges, v, left, y, one, tint);
    window::stroke_at(cells, colours, stamps, lent, ranges, v, right, y, two, tint);
}

fn corners(
    cells: &mut [u32],
    colours: &mut [u32],
    stamps: &mut [u32],
    lent: Lent,
    ranges: &[u32],
    v: Window,
    left: usize,
    right: usize,
    top: usize,
    bottom: usize,
    w: Weight,
    tint: Tint,
)
    requires { Ready lent v cells.old colours.old stamps.old }
    ensures { canvas_of lent cells.new colours.new stamps.new ≡ ink_window v ranges.now (tinted tint (corners w left right top bottom)) (canvas_of lent cells.old colours.old stamps.old) }
{
    corner_pair(
        cells, colours, stamps, lent, ranges, v, left, right, top, true, w, tint,
    );
    corner_pair(
        cells, colours, stamps, lent, ranges, v, left, right, bottom, false, w, tint,
    );
}

// The strokes between the corners: along the top and the bottom row.
fn across_both(
    cells: &mut [u32],
    colours: &mut [u32],
    stamps: &mut [u32],
    lent: Lent,
    ranges: &[u32],
    v: Window,
    left: usize,
    right: usize,
    top: usize,
    bottom: usize,
    w: Weight,
    tint: Tint,
)
    requires { Ready lent v cells.old colours.old stamps.old }
    ensures { canvas_of lent cells.new colours.new stamps.new ≡ ink_window v ranges.now (tinted tint (across w left right top ++ across w left right bottom)) (canvas_of lent cells.old colours.old stamps.old) }
{
    let arms = Arms::horizontal(w);
    let one = plain(top, left, right);
    let two = plain(bottom, left, right);
    lines::horizontal(
        cells, colours, stamps, lent, ranges, v, one, arms, false, tint,
    );
    lines::horizontal(
        cells, colours, stamps, lent, ranges, v, two, arms, false, tint,
    );
}

// Down the left and the right column.
fn down_both(
    cells: &mut [u32],
    colours: &mut [u32],
    stamps: &mut [u32],
    lent: Lent,
    ranges: &[u32],
    v: Window,
    left: usize,
    right: usize,
    top: usize,
    bottom: usize,
    w: Weight,
    tint: Tint,
)
    requires { Ready lent v cells.old colours.old stamps.old }
    ensures { canvas_of lent cells.new colours.new stamps.new ≡ ink_window v ranges.now (tinted tint (down w left top bottom ++ down w right top bottom)) (canvas_of lent cells.old colours.old stamps.old) }
{
    let arms = Arms::vertical(w);
    let one = plain(left, top, bottom);
    let two = plain(right, top, bottom);
    lines::vertical(
        cells, colours, stamps, lent, ranges, v, one, arms, false, tint,
    );
    lines::vertical(
        cells, colours, stamps, lent, ranges, v, two, arms, false, tint,
    );
}

fn sides(
    cells: &mut [u32],
    colours: &mut [u32],
    stamps: &mut [u32],
    lent: Lent,
    ranges: &[u32],
    v: Window,
    left: usize,
    right: usize,
    top: usize,
    bottom: usize,
    w: Weight,
    tint: Tint,
)
    requires { Ready lent v cells.old colours.old stamps.old }
    ensures { canvas_of lent cells.new colours.new stamps.new ≡ ink_window v ranges.now (tinted tint (across w left right top ++ across w left right bottom ++ (down w left top bottom ++ down w right top bottom))) (canvas_of lent cells.old colours.old stamps.old) }
{
    across_both(
        cells, colours, stamps, lent, ranges, v, left, right, top, bottom, w, tint,
    );
    down_both(
        cells, colours, stamps, lent, ranges, v, left, right, top, bottom, w, tint,
    );
}

// Whether rows from a top one to a bottom one all lie above the window, or all below it.
fn misses(v: Window, top: usize, bottom: usize) -> bool
    requires { v.first + v.rows ≤ 0xFFFFFFFF }
    ensures { result ≡ leb top bottom && (ltb bottom v.first || leb (v.first + v.rows) top) }
{
    let first = v.first;
    let end = first + v.rows;
    if bottom < top {
        return false;
    }
    if bottom < first {
        return true;
    }
    end <= top
}

// The border of a box at x, y, so wide and so tall. One whose rows miss the window costs nothing.
pub fn box_at(
    cells: &mut [u32],
    colours: &mut [u32],
    stamps: &mut [u32],
    lent: Lent,
    ranges: &[u32],
    v: Window,
    x: usize,
    y: usize,
    width: usize,
    height: usize,
    w: Weight,
    tint: Tint,
)
    requires ready { Ready lent v cells.old colours.old stamps.old }
    requires x_bound { (x < 0x100000000) × (y < 0x100000000) × (width < 0x100000000) × (height < 0x100000000) }
    ensures { canvas_of lent cells.new colours.new stamps.new ≡ ink_window v ranges.now (tinted tint (box w x y width height)) (canvas_of lent cells.old colours.old stamps.old) }
{
    let right = ground::minus(x + width, 1);
    let bottom = ground::minus(y + height, 1);
    if misses(v, y, bottom) {
        return;
    }
    corners(
        cells, colours, stamps, lent, ranges, v, x, right, y, bottom, w, tint,
    );
    sides(
        cells, colours, stamps, lent, ranges, v, x, right, y, bottom, w, tint,
    );
}
