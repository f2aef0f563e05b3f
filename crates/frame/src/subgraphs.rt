// The border of a subgraph, its label's row and fitting part, and the rows of a window that it touches.
ghost use Rattle.std.specs.Prelude.{◌≡◌};
ghost use Rattle.frame.specs.Subgraphs.{has_border, has_label, label_row};
ghost use Rattle.frame.specs.Computed.{label_inks, border_rows, label_rows, subgraph_rows};

use crate::frames;
use image::{LabelPosition, Subgraph};
use rows::{Rows, Window};

// "Border if width and height ≥ 2"
pub fn has_border(s: Subgraph) -> bool
    ensures { result ≡ has_border s }
{
    if s.border.is_arm() {
        frames::at_least(s.width, 2, s.height, 2)
    } else {
        false
    }
}

// "if nonempty, width ≥ 4, height ≥ 3"
pub fn has_label(s: Subgraph, label: &[u32]) -> bool
    ensures { result ≡ has_label s label.now }
{
    if 0 < label.len() {
        frames::at_least(s.width, 4, s.height, 3)
    } else {
        false
    }
}

// "on row y + 1 or y + height − 2"
pub fn label_row(s: Subgraph) -> usize
    ensures { result ≡ label_row s }
{
    let position = s.position;
    match position {
        LabelPosition::InsideTop => ground::number(s.y) + 1,
        LabelPosition::InsideBottom => ground::minus(
            ground::number(s.y) + ground::number(s.height),
            2,
        ),
    }
}

// Whether the label makes a glyph of width 1 or 2.
fn label_inks(ranges: &[u32], s: Subgraph, label: &[u32]) -> bool
    ensures { result ≡ label_inks ranges.now s label.now }
{
    if has_label(s, label) {
        frames::any_ink(ranges, frames::fitting_part(ranges, s.width, label))
    } else {
        false
    }
}

// The rows of the border, where there is one.
fn border_rows(window: Window, s: Subgraph) -> Option<Rows>
    ensures { result ≡ border_rows window s }
{
    if has_border(s) {
        frames::box_rows(window, s.y, s.height)
    } else {
        None
    }
}

// The row of the label, where it makes ink.
fn label_rows(window: Window, ranges: &[u32], s: Subgraph, label: &[u32]) -> Option<Rows>
    ensures { result ≡ label_rows window ranges.now s label.now }
{
    if label_inks(ranges, s, label) {
        let row = label_row(s);
        window.clip(row, row)
    } else {
        None
    }
}

// The rows of a window that a subgraph touches, from the first to the last.
pub fn subgraph_rows(window: Window, ranges: &[u32], s: Subgraph, label: &[u32]) -> Option<Rows>
    ensures { result ≡ subgraph_rows window ranges.now s label.now }
{
    rows::join(border_rows(window, s), label_rows(window, ranges, s, label))
}
