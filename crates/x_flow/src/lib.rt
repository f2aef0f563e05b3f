// "X flow": the pieces of an edge that flows right or left, one maker for each, and what they reach in a window of rows. It is written out and no mirror of Y:
// "crossings are immediate strokes; the corner arrow needs bend = from x + s exactly; SideChannel has a source trunk and start arrow, its bend being span
// start".
#![tactic(auto)]

ghost use Rattle.std.specs.Prelude.{◌≡◌, ◌<◌};
ghost use Rattle.x_flow.specs.XFlow.{sign_x, with_x, against_x, direct_x, cross_line_x, cross_first_x, cross_last_x, corner_arrow_x};
ghost use Rattle.x_flow.specs.XFlow.{trunk_x, own_start_x, tail_x, channel_line_x, straight_line_x, corner_column};
ghost use Rattle.flow.specs.Flow.{start_head, end_head};
ghost use Rattle.flow.specs.Bounds.{SmallBend, SmallLeg, SmallCoordinate};

use cell::{Arms, Dir, Weight};
use flow::{Bend, Head, Leg, Piece};
use image::Edge;

// s is +1 if to x ≥ from x, else −1.
pub fn sign(e: Edge) -> bool
    ensures { result ≡ sign_x e }
{
    e.from_x <= e.to_x
}

// The direction −s.
fn against_flow(s: bool) -> Dir
    ensures { result ≡ against_x s }
{
    if s { Dir::Left } else { Dir::Right }
}

// A start arrow points −s at from x + s.
fn start_head(wanted: bool, s: bool, from: usize) -> Option<Head>
    requires { from < 0x800000000000 }
    ensures { result ≡ start_head wanted s from (against_x s) }
{
    flow::start_head(wanted, s, from, against_flow(s))
}

// An end arrow points s at to x − s.
fn end_head(wanted: bool, s: bool, to: usize) -> Option<Head>
    requires { to < 0x800000000000 }
    ensures { result ≡ end_head wanted s to (with_x s) }
{
    if s {
        flow::end_head(wanted, true, to, Dir::Right)
    } else {
        flow::end_head(wanted, false, to, Dir::Left)
    }
}

// Direct, Spline: horizontal at from y, between; end arrow beats start arrow.
pub fn direct(e: Edge) -> Piece
    ensures { result ≡ direct_x e }
{
    let s = sign(e);
    let y = ground::number(e.from_y);
    let from = ground::number(e.from_x);
    let to = ground::number(e.to_x);
    let end = end_head(flow::target_marker(e), s, to);
    let start = start_head(flow::source_marker(e), s, from);
    Piece::Horizontal(flow::line_of(y, from, to, end, start))
}

// "crossings are immediate strokes"
pub fn cross_line(column: usize, y1: usize, y2: usize) -> Piece
    ensures { result ≡ cross_line_x column y1 y2 }
{
    Piece::Vertical(flow::line_of(column, y1, y2, None, None))
}

// The first corner of a crossing, or the arrow that replaces it.
pub fn cross_first(w: Weight, s: bool, arrow: bool, column: usize, y1: usize, y2: usize) -> Piece
    ensures { result ≡ cross_first_x w s arrow column y1 y2 }
{
    if y1 == y2 {
        return Piece::Nothing;
    }
    if arrow {
        return Piece::Mark {
            x: column,
            y: y1,
            dir: against_flow(s),
        };
    }
    Piece::Stroke {
        x: column,
        y: y1,
        arms: flow::corner(w, y1 < y2, !s),
    }
}

// The last corner of a crossing.
pub fn cross_last(w: Weight, s: bool, column: usize, y1: usize, y2: usize) -> Piece
    ensures { result ≡ cross_last_x w s column y1 y2 }
{
    if y1 == y2 {
        return Piece::Nothing;
    }
    Piece::Stroke {
        x: column,
        y: y2,
        arms: flow::corner(w, y2 < y1, s),
    }
}

// Whether an arrow replaces the first corner: "bend = from x + s exactly".
pub fn corner_arrow(s: bool, v: Bend) -> bool
    requires { SmallBend v }
    ensures { result ≡ corner_arrow_x s v }
{
    let from = v.x1;
    let bend = v.bend;
    if v.start_arrow {
        if s {
            bend == from + 1
        } else {
            bend + 1 == from
        }
    } else {
        false
    }
}

// A horizontal to a bend (start arrow only), where there is one.
pub fn trunk(s: bool, v: Bend) -> Piece
    requires { SmallBend v }
    ensures { result ≡ trunk_x s v }
{
    if v.has_trunk {
        let head = start_head(v.start_arrow, s, v.x1);
        Piece::Horizontal(flow::line_of(v.y1, v.x1, v.bend, head, None))
    } else {
        Piece::Nothing
    }
}

// A stroke of the horizontal at a leg's own start, where it has one.
pub fn own_start(w: Weight, strokes: bool, x: usize, y: usize) -> Piece
    ensures { result ≡ own_start_x w strokes x y }
{
    if strokes {
        Piece::Stroke {
            x: x,
            y: y,
            arms: Arms::horizontal(w),
        }
    } else {
        Piece::Nothing
    }
}

// A horizontal from a bend to an end (end arrow only).
pub fn tail(s: bool, arrow: bool, y: usize, from: usize, to: usize) -> Piece
    requires { to < 0x800000000000 }
    ensures { result ≡ tail_x s arrow y from to }
{
    let head = end_head(arrow, s, to);
    Piece::Horizontal(flow::line_of(y, from, to, head, None))
}

// A horizontal in the channel.
pub fn channel_line(channel: usize, start: usize, end: usize) -> Piece
    ensures { result ≡ channel_line_x channel start end }
{
    Piece::Horizontal(flow::line_of(channel, start, end, None, None))
}

// Equal y gives a horizontal (start arrow on the first leg beats end arrow on the last).
pub fn straight_line(e: Edge, leg: Leg) -> Piece
    requires { SmallLeg leg }
    ensures { result ≡ straight_line_x e leg }
{
    let s = sign(e);
    let starts = flow::and(leg.first, flow::source_marker(e));
    let ends = flow::and(leg.last, flow::target_marker(e));
    let start = start_head(starts, s, leg.x1);
    let end = end_head(ends, s, leg.x2);
    Piece::Horizontal(flow::line_of(leg.y1, leg.x1, leg.x2, start, end))
}

// The corner column is px + s·(1 + offset on the first leg, 0 later).
pub fn corner_column(e: Edge, offset: u32, leg: Leg) -> Option<usize>
    requires { SmallLeg leg }
    ensures { (result ≡ corner_column e offset leg) × SmallCoordinate result }
{
    flow::along(sign(e), leg.x1, flow::corner_steps(offset, leg))
}
