// "Placed labels": an edge's label between quotes.
ghost use Rattle.std.specs.Prelude.{◌≡◌, ◌≤◌, ◌<◌, length};
ghost use Rattle.window.specs.Writes.{tinted};
ghost use Rattle.window.specs.Window.{ink_window, canvas_of, Ready};
ghost use Rattle.frame.specs.Frames.{text};
ghost use Rattle.frame.specs.PlacedLabels.{quoted, paints_under};

use image::{LabelPolicy, PlacedLabel};
use rows::Window;
use window::{Lent, Tint};

const QUOTE: u32 = 0x22;

// "Geometric paints if placeable; AvoidNodeRows also needs no node in the row."
pub fn paints_under(policy: LabelPolicy, p: PlacedLabel) -> bool
    ensures { result ≡ paints_under policy p }
{
    match policy {
        LabelPolicy::Geometric => p.placeable,
        LabelPolicy::AvoidNodeRows => if p.placeable { !p.row_has_node } else { false },
    }
}

// "`\"`, all glyphs, `\"`"
pub fn paint_quoted(
    cells: &mut [u32],
    colours: &mut [u32],
    stamps: &mut [u32],
    lent: Lent,
    ranges: &[u32],
    v: Window,
    x: usize,
    y: usize,
    glyphs: &[u32],
    tint: Tint,
)
    requires { Ready lent v cells.old colours.old stamps.old × (length glyphs.now ≤ 0x100000000) × (x < 0x100000000) }
    ensures { canvas_of lent cells.new colours.new stamps.new ≡ ink_window v ranges.now (tinted tint (text ranges.now x y (quoted glyphs.now))) (canvas_of lent cells.old colours.old stamps.old) }
{
    if v.has(y) {
        let columns = window::glyph_at(cells, colours, stamps, lent, ranges, v, x, y, QUOTE, tint);
        let end = text::text_at(
            cells,
            colours,
            stamps,
            lent,
            ranges,
            v,
            x + columns,
            y,
            glyphs,
            tint,
        );
        window::glyph_at(cells, colours, stamps, lent, ranges, v, end, y, QUOTE, tint);
    }
}
