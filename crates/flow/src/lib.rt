// What both flows share: the pieces of an edge as values, a coordinate so many cells along the flow, the arrows on a line, the arms of a corner, and the bend
// of an edge or of a leg.
#![tactic(auto)]

ghost use Rattle.std.specs.Prelude.{◌≡◌, ◌&&◌, ◌≤◌, ◌<◌};
ghost use Rattle.flow.specs.Flow.{sign_of, coordinate_of, along, source_marker, target_marker, head_at, start_head, end_head};
ghost use Rattle.flow.specs.Flow.{line_of, arm_if, corner, corner_bend, leg_bend, corner_steps};
ghost use Rattle.flow.specs.Bounds.{bound, SmallBend, SmallLeg, SmallCoordinate};

use cell::{Arms, Dir, Weight};
use image::Edge;
use rows::Rows;

// An arrow on a line.
#[derive(Clone, Copy)]
pub struct Head {
    // its row on a vertical line, its column on a horizontal one
    pub place: usize,
    // which way it points
    pub dir: Dir,
}

// A line with at most two arrows.
#[derive(Clone, Copy)]
pub struct Line {
    // the column of a vertical line, the row of a horizontal one
    pub lane: usize,
    // one end, which the line leaves out
    pub from: usize,
    // the other end, which it leaves out too
    pub to: usize,
    // the arrow that stands where both want one cell
    pub winner: Option<Head>,
    // the other arrow
    pub other: Option<Head>,
}

// One piece of ink of an edge.
#[derive(Clone, Copy)]
pub enum Piece {
    // no ink
    Nothing,
    // strokes, or an arrow, strictly between two rows of a column
    Vertical(Line),
    // strokes, or an arrow, strictly between two columns of a row
    Horizontal(Line),
    // cells from first to last on a row that wait: "Runs wait"
    Run {
        // its row
        row: usize,
        // its first column
        first: usize,
        // its last column
        last: usize,
    },
    // one stroke
    Stroke {
        // its column
        x: usize,
        // its row
        y: usize,
        // what it strokes
        arms: Arms,
    },
    // one arrow
    Mark {
        // its column
        x: usize,
        // its row
        y: usize,
        // which way it points
        dir: Dir,
    },
}

// A way that bends once.
#[derive(Clone, Copy)]
pub struct Bend {
    // it has a line from its start to the bend
    pub has_trunk: bool,
    // it strokes its own start
    pub strokes_start: bool,
    // an arrow is wanted at its start
    pub start_arrow: bool,
    // an arrow is wanted at its end
    pub end_arrow: bool,
    // the row on which it bends; on X flow the column
    pub bend: usize,
    // the column of its start
    pub x1: usize,
    // the row of its start
    pub y1: usize,
    // the column of its end
    pub x2: usize,
    // the row of its end
    pub y2: usize,
}

// A leg of a path through points.
#[derive(Clone, Copy)]
pub struct Leg {
    // the column of its start
    pub x1: usize,
    // the row of its start
    pub y1: usize,
    // the column of its end
    pub x2: usize,
    // the row of its end
    pub y2: usize,
    // it starts at the source
    pub first: bool,
    // it ends at the target
    pub last: bool,
}

// What ink reaches in a window of rows.
#[derive(Clone, Copy)]
pub struct Reach {
    // the rows that it touches, from the first to the last, if any
    pub rows: Option<Rows>,
    // how many runs it makes there
    pub runs: usize,
}

// 1 with the rows or columns, -1 against them.
fn sign_of(s: bool) -> i64
    ensures { result ≡ sign_of s }
{
    if s { 1 } else { -1 }
}

// A signed sum as a row or a column: "compared before any cast". None is less than 0: it "matches no cell", and a corner there is refused.
fn coordinate_of(sum: i64) -> Option<usize>
    ensures { result ≡ coordinate_of sum }
{
    if sum < 0 { None } else { Some(sum as usize) }
}

// from + s·steps, in "signed 64-bit sums".
pub fn along(s: bool, from: usize, steps: usize) -> Option<usize>
    requires { (from < 0x800000000000) × (steps < 0x800000000000) }
    ensures { (result ≡ along s from steps) × SmallCoordinate result }
{
    let sum = (from as i64) + sign_of(s) * (steps as i64);
    coordinate_of(sum)
}

// "Reversed swaps start and end markers": the one at the source.
pub fn source_marker(e: Edge) -> bool
    ensures { result ≡ source_marker e }
{
    if e.reversed {
        e.end_marker
    } else {
        e.start_marker
    }
}

// The one at the target.
pub fn target_marker(e: Edge) -> bool
    ensures { result ≡ target_marker e }
{
    if e.reversed {
        e.start_marker
    } else {
        e.end_marker
    }
}

// An arrow at a coordinate, where one is wanted.
fn head_at(wanted: bool, coordinate: Option<usize>, dir: Dir) -> Option<Head>
    ensures { result ≡ head_at wanted coordinate dir }
{
    let place = coordinate?;
    if wanted {
        Some(Head { place, dir })
    } else {
        None
    }
}

// "a start arrow points −s at from y + s"
pub fn start_head(wanted: bool, s: bool, from: usize, dir: Dir) -> Option<Head>
    requires { from < 0x800000000000 }
    ensures { result ≡ start_head wanted s from dir }
{
    head_at(wanted, along(s, from, 1), dir)
}

// "An end arrow points s at to y − s"
pub fn end_head(wanted: bool, s: bool, to: usize, dir: Dir) -> Option<Head>
    requires { to < 0x800000000000 }
    ensures { result ≡ end_head wanted s to dir }
{
    head_at(wanted, along(!s, to, 1), dir)
}

pub fn line_of(
    lane: usize,
    from: usize,
    to: usize,
    winner: Option<Head>,
    other: Option<Head>,
) -> Line
    ensures { result ≡ line_of lane from to winner other }
{
    Line {
        lane,
        from,
        to,
        winner,
        other,
    }
}

fn arm_if(wanted: bool, w: Weight) -> Weight
    ensures { result ≡ arm_if wanted w }
{
    if wanted { w } else { Weight::None }
}

// A corner: an arm down (else up) and an arm right (else left).
pub fn corner(w: Weight, down: bool, right: bool) -> Arms
    ensures { result ≡ corner w down right }
{
    Arms {
        up: arm_if(!down, w),
        down: arm_if(down, w),
        left: arm_if(!right, w),
        right: arm_if(right, w),
    }
}

pub fn and(a: bool, b: bool) -> bool
    ensures { result ≡ a && b }
{
    if a { b } else { false }
}

// The bend of an edge with a Corner.
pub fn corner_bend(e: Edge, bend: u32) -> Bend
    ensures { (result ≡ corner_bend e bend) × SmallBend result }
{
    Bend {
        has_trunk: true,
        strokes_start: false,
        start_arrow: source_marker(e),
        end_arrow: target_marker(e),
        bend: ground::number(bend),
        x1: ground::number(e.from_x),
        y1: ground::number(e.from_y),
        x2: ground::number(e.to_x),
        y2: ground::number(e.to_y),
    }
}

// The bend of a leg of a MultiSegment.
pub fn leg_bend(e: Edge, offset: u32, leg: Leg, bend: usize) -> Bend
    requires { SmallLeg leg × (bend < bound) }
    ensures { (result ≡ leg_bend e offset leg bend) × SmallBend result }
{
    Bend {
        has_trunk: and(leg.first, 0 < offset),
        strokes_start: !leg.first,
        start_arrow: and(leg.first, source_marker(e)),
        end_arrow: and(leg.last, target_marker(e)),
        bend: bend,
        x1: leg.x1,
        y1: leg.y1,
        x2: leg.x2,
        y2: leg.y2,
    }
}

// "1 + offset on the first leg, 0 later"
pub fn corner_steps(offset: u32, leg: Leg) -> usize
    ensures { (result ≡ corner_steps offset leg) × (result ≤ 0x100000000) }
{
    if leg.first {
        1 + ground::number(offset)
    } else {
        1
    }
}
