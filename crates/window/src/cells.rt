// One write in the cells: the row is lent on as the part of the cells that it is.
ghost use Rattle.std.specs.Prelude.{◌≡◌, ◌+◌, ◌≤◌, length};
ghost use Rattle.rows.specs.Spots.{stroke, marker, glyph};
ghost use Rattle.window.specs.Writes.{ink_on};
ghost use Rattle.window.specs.Window.{on_part};

use canvas::{packed, row};
use cell::{Arms, Dir, MarkerKind};

pub fn stroke_part(
    cells: &mut [u32],
    ranges: &[u32],
    start: usize,
    width: usize,
    x: usize,
    arms: Arms,
)
    requires { start + width ≤ length cells.old }
    ensures { cells.new ≡ on_part start width (ink_on ranges.now x (stroke arms)) cells.old }
{
    let end = start + width;
    let word = packed::stroke_word(arms);
    packed::stroke_any(&mut cells[start..end], ranges, x, word);
}

pub fn marker_part(
    cells: &mut [u32],
    ranges: &[u32],
    start: usize,
    width: usize,
    x: usize,
    kind: MarkerKind,
    dir: Dir,
    dashed: bool,
)
    requires { start + width ≤ length cells.old }
    ensures { cells.new ≡ on_part start width (ink_on ranges.now x (marker kind dir dashed)) cells.old }
{
    let end = start + width;
    row::marker(&mut cells[start..end], ranges, x, kind, dir, dashed);
}

pub fn glyph_part(cells: &mut [u32], ranges: &[u32], start: usize, width: usize, x: usize, ch: u32)
    requires { start + width ≤ length cells.old }
    ensures { cells.new ≡ on_part start width (ink_on ranges.now x (glyph ch)) cells.old }
{
    let end = start + width;
    row::text(&mut cells[start..end], ranges, x, ch);
}
