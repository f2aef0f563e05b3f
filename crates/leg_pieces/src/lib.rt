// The two pieces of a leg of an Orthogonal path: the bend at its start, and its interior.
#![tactic(auto)]

ghost use Rattle.std.specs.Prelude.{◌≡◌};
ghost use Rattle.orthogonal.specs.Orthogonal.{head_on_column, head_on_row, column_line, row_line, leg_line, only_arm, bend_arms, mark_or, bend_piece, leg_bend_piece};

use cell::{Arms, Dir, Weight};
use flow::{Head, Piece};
use image::Point;
use orthogonal::{EndMark, PathLeg};

// An arrow of the path as an arrow of the line at a column.
fn head_on_column(mark: Option<EndMark>, column: usize) -> Option<Head>
    ensures { result ≡ head_on_column mark column }
{
    let EndMark { x, y, dir } = mark?;
    if x == column {
        Some(Head { place: y, dir })
    } else {
        None
    }
}

// An arrow of the path as an arrow of the line at a row.
fn head_on_row(mark: Option<EndMark>, row: usize) -> Option<Head>
    ensures { result ≡ head_on_row mark row }
{
    let EndMark { x, y, dir } = mark?;
    if y == row {
        Some(Head { place: x, dir })
    } else {
        None
    }
}

// The interior of a leg: "slanted legs paint no interior"; "target wins; drawn wherever the path passes that cell".
pub fn leg_line(target: Option<EndMark>, source: Option<EndMark>, leg: PathLeg) -> Piece
    ensures { result ≡ leg_line target source leg }
{
    let from = leg.from;
    let to = leg.to;
    if from.x == to.x {
        return column_line(target, source, from, to);
    }
    if from.y == to.y {
        return row_line(target, source, from, to);
    }
    Piece::Nothing
}

// The interior of a leg along a column.
fn column_line(target: Option<EndMark>, source: Option<EndMark>, from: Point, to: Point) -> Piece
    ensures { result ≡ column_line target source from to }
{
    let x = ground::number(from.x);
    Piece::Vertical(flow::line_of(
        x,
        ground::number(from.y),
        ground::number(to.y),
        head_on_column(target, x),
        head_on_column(source, x),
    ))
}

// The interior of a leg along a row.
fn row_line(target: Option<EndMark>, source: Option<EndMark>, from: Point, to: Point) -> Piece
    ensures { result ≡ row_line target source from to }
{
    let y = ground::number(from.y);
    Piece::Horizontal(flow::line_of(
        y,
        ground::number(from.x),
        ground::number(to.x),
        head_on_row(target, y),
        head_on_row(source, y),
    ))
}

// One arm, in a direction.
fn only_arm(w: Weight, dir: Dir) -> Arms
    ensures { result ≡ only_arm w dir }
{
    let n = Weight::None;
    let none = Arms {
        up: n,
        down: n,
        left: n,
        right: n,
    };
    match dir {
        Dir::Up => Arms { up: w, ..none },
        Dir::Down => Arms { down: w, ..none },
        Dir::Left => Arms { left: w, ..none },
        Dir::Right => Arms { right: w, ..none },
    }
}

// "Other bends get arms toward both neighbours"
fn bend_arms(w: Weight, at: Point, before: Point, next: Point) -> Arms
    ensures { result ≡ bend_arms w at before next }
{
    let one = only_arm(w, arrows::toward(at, before));
    one.max(only_arm(w, arrows::toward(at, next)))
}

// The arrow in a cell, or else what is drawn there.
fn mark_or(mark: Option<EndMark>, x: usize, y: usize, other: Piece) -> Piece
    ensures { result ≡ mark_or mark x y other }
{
    match mark {
        Some(m) if m.x == x && m.y == y => Piece::Mark { x, y, dir: m.dir },
        _ => other,
    }
}

// The bend at a stop: the target's arrow, the source's, or arms.
fn bend_piece(
    w: Weight,
    target: Option<EndMark>,
    source: Option<EndMark>,
    at: Point,
    before: Point,
    next: Point,
) -> Piece
    ensures { result ≡ bend_piece w target source at before next }
{
    let x = ground::number(at.x);
    let y = ground::number(at.y);
    let bend = Piece::Stroke {
        x: x,
        y: y,
        arms: bend_arms(w, at, before, next),
    };
    mark_or(target, x, y, mark_or(source, x, y, bend))
}

// The bend at a leg's start: there is none at the source.
pub fn leg_bend_piece(
    w: Weight,
    target: Option<EndMark>,
    source: Option<EndMark>,
    leg: PathLeg,
) -> Piece
    ensures { result ≡ leg_bend_piece w target source leg }
{
    let before = leg.before;
    let from = leg.from;
    let to = leg.to;
    if leg.first {
        return Piece::Nothing;
    }
    bend_piece(w, target, source, from, before, to)
}
