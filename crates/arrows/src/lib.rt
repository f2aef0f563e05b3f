// The two arrows of an Orthogonal path.
#![tactic(auto)]

ghost use Rattle.std.specs.Prelude.{◌≡◌, ◌+◌, ◌≤◌, ◌<◌};
ghost use Rattle.orthogonal.specs.Points.{stops};
ghost use Rattle.orthogonal.specs.Orthogonal.{toward, straight, apart, long, nearer, inside, mark_facing, end_mark, end_marks};
ghost use Rattle.orthogonal.specs.Walk.{source_after, target_after};

use cell::Dir;
use image::{Edge, Point};
use orthogonal::{EndMark, EndMarks, PathLeg, walk};

// From a cell toward another: "x compared first".
pub fn toward(a: Point, t: Point) -> Dir
    ensures { result ≡ toward a t }
{
    if t.x < a.x {
        Dir::Left
    } else if a.x < t.x {
        Dir::Right
    } else if t.y < a.y {
        Dir::Up
    } else {
        Dir::Down
    }
}

fn is_straight(a: Point, b: Point) -> bool
    ensures { result ≡ straight a b }
{
    a.x == b.x || a.y == b.y
}

fn apart(u: u32, v: u32) -> usize
    ensures { (result ≡ apart u v) × (result < 4294967296) }
{
    ground::number(u.abs_diff(v))
}

// "a leg of length ≥ 2"
fn is_long(a: Point, b: Point) -> bool
    ensures { result ≡ long a b }
{
    2 <= apart(a.x, b.x) + apart(a.y, b.y)
}

// One cell from a number toward another.
fn nearer(u: u32, v: u32) -> u32
    ensures { result ≡ nearer u v }
{
    if u < v { u + 1 } else { u.saturating_sub(1) }
}

// One cell from a toward b, on a straight leg.
fn inside(a: Point, b: Point) -> Point
    ensures { result ≡ inside a b }
{
    if a.x == b.x {
        Point {
            x: a.x,
            y: nearer(a.y, b.y),
        }
    } else {
        Point {
            x: nearer(a.x, b.x),
            y: a.y,
        }
    }
}

// An arrow in a cell, pointing toward another.
fn mark_facing(at: Point, t: Point) -> EndMark
    ensures { result ≡ mark_facing at t }
{
    EndMark {
        x: ground::number(at.x),
        y: ground::number(at.y),
        dir: toward(at, t),
    }
}

// "one cell inside a leg of length ≥ 2, else the neighbouring bend, else none"; "slanted legs .. give no marker".
fn end_mark(wanted: bool, only: bool, at: Point, next: Point) -> Option<EndMark>
    ensures { result ≡ end_mark wanted only at next }
{
    if !wanted {
        return None;
    }
    if !is_straight(at, next) {
        return None;
    }
    if is_long(at, next) {
        Some(mark_facing(inside(at, next), at))
    } else if only {
        None
    } else {
        Some(mark_facing(next, at))
    }
}

// What a leg makes of the source's arrow: the first leg decides it.
fn source_after(e: Edge, leg: PathLeg, source: Option<EndMark>) -> Option<EndMark>
    ensures { result ≡ source_after e leg source }
{
    let from = leg.from;
    let to = leg.to;
    if leg.first {
        end_mark(flow::source_marker(e), leg.last, from, to)
    } else {
        source
    }
}

// What a leg makes of the target's arrow: the last leg decides it.
fn target_after(e: Edge, leg: PathLeg, target: Option<EndMark>) -> Option<EndMark>
    ensures { result ≡ target_after e leg target }
{
    let from = leg.from;
    let to = leg.to;
    if leg.last {
        end_mark(flow::target_marker(e), leg.first, to, from)
    } else {
        target
    }
}

// The two arrows of a path: of the source on its first leg, of the target on its last.
pub fn end_marks(e: Edge, points: &[u32]) -> EndMarks
    ensures { result ≡ end_marks e (stops e points.now) }
{
    let mut source = None;
    let mut target = None;
    let mut cursor = walk::begin_walk(e, points);
    while let Some((leg, next)) = cursor.step(e, points) {
        source = source_after(e, leg, source);
        target = target_after(e, leg, target);
        cursor = next;
    }
    EndMarks { source, target }
}
