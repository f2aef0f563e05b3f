// "Orthogonal, both axes": the bend and the interior of each leg, drawn leg by leg. It makes no runs.
#![tactic(auto)]

ghost use Rattle.std.specs.Prelude.{◌≡◌};
ghost use Rattle.orthogonal.specs.Orthogonal.{leg_pieces, orthogonal_pieces};
ghost use Rattle.window.specs.Window.{canvas_of, Ready};
ghost use Rattle.draw.specs.Drawn.{Inked};

use draw::{Pen, draw_cell, draw_line};
use image::Edge;
use orthogonal::{EndMark, PathLeg, walk};

// The bend at a leg's start, then its interior.
fn draw_leg(
    cells: &mut [u32],
    colours: &mut [u32],
    stamps: &mut [u32],
    ranges: &[u32],
    pen: Pen,
    target: Option<EndMark>,
    source: Option<EndMark>,
    leg: PathLeg,
)
    requires { Ready pen.lent pen.window cells.old colours.old stamps.old }
    ensures { Inked pen ranges.now (leg_pieces pen.weight target source leg) (canvas_of pen.lent cells.old colours.old stamps.old) (canvas_of pen.lent cells.new colours.new stamps.new) }
{
    let weight = pen.weight;
    let bend = leg_pieces::leg_bend_piece(weight, target, source, leg);
    draw_cell(cells, colours, stamps, ranges, pen, bend);
    let line = leg_pieces::leg_line(target, source, leg);
    draw_line(cells, colours, stamps, ranges, pen, line);
}

// The whole path: its arrows first, since they are "drawn wherever the path passes that cell".
pub fn draw_orthogonal(
    cells: &mut [u32],
    colours: &mut [u32],
    stamps: &mut [u32],
    ranges: &[u32],
    pen: Pen,
    e: Edge,
    points: &[u32],
)
    requires { Ready pen.lent pen.window cells.old colours.old stamps.old × (pen.weight ≡ e.weight) }
    ensures { Inked pen ranges.now (orthogonal_pieces e points.now) (canvas_of pen.lent cells.old colours.old stamps.old) (canvas_of pen.lent cells.new colours.new stamps.new) }
{
    let marks = arrows::end_marks(e, points);
    let target = marks.target;
    let source = marks.source;
    let mut cursor = walk::begin_walk(e, points);
    while let Some((leg, next)) = cursor.step(e, points) {
        draw_leg(cells, colours, stamps, ranges, pen, target, source, leg);
        cursor = next;
    }
}
