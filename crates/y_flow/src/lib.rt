// "Y flow": the pieces of an edge that flows down or up, one maker for each, and what they reach in a window of rows.
#![tactic(auto)]

ghost use Rattle.std.specs.Prelude.{◌≡◌, ◌<◌};
ghost use Rattle.y_flow.specs.YFlow.{sign_y, with_y, against_y, direct_y, cross_run_y, cross_first_y, cross_last_y, corner_arrow_y};
ghost use Rattle.y_flow.specs.YFlow.{trunk_y, own_start_y, tail_y, channel_line_y, straight_line_y, corner_row};
ghost use Rattle.flow.specs.Flow.{start_head, end_head};
ghost use Rattle.flow.specs.Bounds.{SmallBend, SmallLeg, SmallCoordinate};

use cell::{Arms, Dir, Weight};
use flow::{Bend, Head, Leg, Piece};
use image::Edge;

// "Let s be +1 if to y ≥ from y, else −1."
pub fn sign(e: Edge) -> bool
    ensures { result ≡ sign_y e }
{
    e.from_y <= e.to_y
}

// The direction −s.
fn against_flow(s: bool) -> Dir
    ensures { result ≡ against_y s }
{
    if s { Dir::Up } else { Dir::Down }
}

// "a start arrow points −s at from y + s"
fn start_head(wanted: bool, s: bool, from: usize) -> Option<Head>
    requires { from < 0x800000000000 }
    ensures { result ≡ start_head wanted s from (against_y s) }
{
    flow::start_head(wanted, s, from, against_flow(s))
}

// "An end arrow points s at to y − s"
fn end_head(wanted: bool, s: bool, to: usize) -> Option<Head>
    requires { to < 0x800000000000 }
    ensures { result ≡ end_head wanted s to (with_y s) }
{
    if s {
        flow::end_head(wanted, true, to, Dir::Down)
    } else {
        flow::end_head(wanted, false, to, Dir::Up)
    }
}

// "Direct, Spline: vertical at from x, between; end arrow beats start arrow."
pub fn direct(e: Edge) -> Piece
    ensures { result ≡ direct_y e }
{
    let s = sign(e);
    let x = ground::number(e.from_x);
    let from = ground::number(e.from_y);
    let to = ground::number(e.to_y);
    let end = end_head(flow::target_marker(e), s, to);
    let start = start_head(flow::source_marker(e), s, from);
    Piece::Vertical(flow::line_of(x, from, to, end, start))
}

// "a run strictly inside (none if adjacent)"
pub fn cross_run(row: usize, x1: usize, x2: usize) -> Piece
    requires { (x1 < 0x1000000000000) × (x2 < 0x1000000000000) }
    ensures { result ≡ cross_run_y row x1 x2 }
{
    let first = ground::min(x1, x2) + 1;
    let end = ground::max(x1, x2);
    if first < end {
        Piece::Run {
            row: row,
            first: first,
            last: end - 1,
        }
    } else {
        Piece::Nothing
    }
}

// "first corner with an arm toward −s and inward .. An arrow asked for replaces the first corner."
pub fn cross_first(w: Weight, s: bool, arrow: bool, row: usize, x1: usize, x2: usize) -> Piece
    ensures { result ≡ cross_first_y w s arrow row x1 x2 }
{
    if x1 == x2 {
        return Piece::Nothing;
    }
    if arrow {
        return Piece::Mark {
            x: x1,
            y: row,
            dir: against_flow(s),
        };
    }
    Piece::Stroke {
        x: x1,
        y: row,
        arms: flow::corner(w, !s, x1 < x2),
    }
}

// "last with an arm toward s and inward"
pub fn cross_last(w: Weight, s: bool, row: usize, x1: usize, x2: usize) -> Piece
    ensures { result ≡ cross_last_y w s row x1 x2 }
{
    if x1 == x2 {
        return Piece::Nothing;
    }
    Piece::Stroke {
        x: x2,
        y: row,
        arms: flow::corner(w, s, x2 < x1),
    }
}

// Whether an arrow replaces the first corner: "(bend − from y)·s ≤ 1".
pub fn corner_arrow(s: bool, v: Bend) -> bool
    requires { SmallBend v }
    ensures { result ≡ corner_arrow_y s v }
{
    let from = v.y1;
    let bend = v.bend;
    if v.start_arrow {
        if s {
            bend <= from + 1
        } else {
            from <= bend + 1
        }
    } else {
        false
    }
}

// A vertical to a bend (start arrow only), where there is one.
pub fn trunk(s: bool, v: Bend) -> Piece
    requires { SmallBend v }
    ensures { result ≡ trunk_y s v }
{
    if v.has_trunk {
        let head = start_head(v.start_arrow, s, v.y1);
        Piece::Vertical(flow::line_of(v.x1, v.y1, v.bend, head, None))
    } else {
        Piece::Nothing
    }
}

// "strokes the vertical at its own start"
pub fn own_start(w: Weight, strokes: bool, x: usize, y: usize) -> Piece
    ensures { result ≡ own_start_y w strokes x y }
{
    if strokes {
        Piece::Stroke {
            x: x,
            y: y,
            arms: Arms::vertical(w),
        }
    } else {
        Piece::Nothing
    }
}

// A vertical from a bend to an end (end arrow only).
pub fn tail(s: bool, arrow: bool, x: usize, from: usize, to: usize) -> Piece
    requires { to < 0x800000000000 }
    ensures { result ≡ tail_y s arrow x from to }
{
    let head = end_head(arrow, s, to);
    Piece::Vertical(flow::line_of(x, from, to, head, None))
}

// "vertical in the channel"
pub fn channel_line(channel: usize, start: usize, end: usize) -> Piece
    ensures { result ≡ channel_line_y channel start end }
{
    Piece::Vertical(flow::line_of(channel, start, end, None, None))
}

// "equal x gives a vertical (start arrow on the first leg beats end arrow on the last)"
pub fn straight_line(e: Edge, leg: Leg) -> Piece
    requires { SmallLeg leg }
    ensures { result ≡ straight_line_y e leg }
{
    let s = sign(e);
    let starts = flow::and(leg.first, flow::source_marker(e));
    let ends = flow::and(leg.last, flow::target_marker(e));
    let start = start_head(starts, s, leg.y1);
    let end = end_head(ends, s, leg.y2);
    Piece::Vertical(flow::line_of(leg.x1, leg.y1, leg.y2, start, end))
}

// "the corner row is py + s·(1 + offset on the first leg, 0 later)"
pub fn corner_row(e: Edge, offset: u32, leg: Leg) -> Option<usize>
    requires { SmallLeg leg }
    ensures { (result ≡ corner_row e offset leg) × SmallCoordinate result }
{
    flow::along(sign(e), leg.y1, flow::corner_steps(offset, leg))
}
