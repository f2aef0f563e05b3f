// What subgraphs and nodes share: the rows of a box, the room for a label in it, and whether glyphs make ink.
ghost use Rattle.std.specs.Prelude.{◌≡◌, ◌&&◌, leb};
ghost use Rattle.rows.specs.Computed.{window_rows};
ghost use Rattle.frame.specs.Frames.{label_room, fitting_part};
ghost use Rattle.frame.specs.Computed.{box_rows, any_ink};

use rows::{Rows, Window};

// Whether two numbers are each at least so much.
pub fn at_least(a: u32, least_a: u32, b: u32, least_b: u32) -> bool
    ensures { result ≡ leb least_a a && leb least_b b }
{
    if least_a <= a { least_b <= b } else { false }
}

// A row alone.
pub fn row_at(window: Window, y: u32) -> Option<Rows>
    ensures { result ≡ window_rows window y y }
{
    let row = ground::number(y);
    window.clip(row, row)
}

// The rows of a box, so many from y on.
pub fn box_rows(window: Window, y: u32, height: u32) -> Option<Rows>
    ensures { result ≡ box_rows window y height }
{
    let first = ground::number(y);
    window.clip(first, ground::minus(first + ground::number(height), 1))
}

// "max(width,4) − 4 columns"
pub fn label_room(width: u32) -> usize
    ensures { result ≡ label_room width }
{
    ground::max(ground::number(width), 4) - 4
}

// "The fitting part is the longest prefix of at most max(width,4) − 4 columns": of a label in a box so wide.
pub fn fitting_part<'a, 'b>(ranges: &'b [u32], width: u32, label: &'a [u32]) -> &'a [u32]
    ensures { result.now ≡ fitting_part ranges.now width label.now }
{
    glyph::fit_prefix(label, ranges, label_room(width))
}

// Whether some glyph has width 1 or 2.
pub fn any_ink(ranges: &[u32], glyphs: &[u32]) -> bool
    ensures { result ≡ any_ink ranges.now glyphs.now }
{
    for glyph in glyphs {
        if 0 < glyph::char_width(ranges, *glyph) {
            return true;
        }
    }
    false
}
