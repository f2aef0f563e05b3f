// "Orthogonal, both axes": a path through points, and its legs, handed back one by one.
#![tactic(auto)]

use cell::Dir;
use image::Point;

pub mod points;
pub mod walk;

// An arrow of an Orthogonal path.
#[derive(Clone, Copy)]
pub struct EndMark {
    // its column
    pub x: usize,
    // its row
    pub y: usize,
    // which way it points
    pub dir: Dir,
}

// The two arrows of an Orthogonal path.
#[derive(Clone, Copy)]
pub struct EndMarks {
    // the arrow at the source's end
    pub source: Option<EndMark>,
    // the arrow at the target's end, which wins
    pub target: Option<EndMark>,
}

// A stop of an Orthogonal path: a point that differs from the stop before it.
#[derive(Clone, Copy)]
pub struct Stop {
    // where it lies
    pub point: Point,
    // the number of the point after it
    pub next: usize,
}

// A leg of an Orthogonal path.
#[derive(Clone, Copy)]
pub struct PathLeg {
    // the stop before the leg's start (on the first leg its start)
    pub before: Point,
    // the stop at which it starts
    pub from: Point,
    // the stop at which it ends
    pub to: Point,
    // whether it starts at the source
    pub first: bool,
    // whether it ends at the target
    pub last: bool,
}

// Where a walk along an Orthogonal path stands.
#[derive(Clone, Copy)]
pub struct Cursor {
    // the stop from which it came (at the source the source itself)
    pub before: Point,
    // the stop at which it stands, where the next leg starts
    pub stop: Point,
    // the stop to which the next leg goes, where a point is left that differs
    pub ahead: Option<Stop>,
    // whether it stands at the source
    pub first: bool,
}
