// How a node looks, and the rows of a window that it touches.
ghost use Rattle.std.specs.Prelude.{◌≡◌};
ghost use Rattle.frame.specs.Nodes.{box_or_simple, look_of};
ghost use Rattle.frame.specs.Computed.{loop_rows, look_rows, node_rows};

use crate::{Look, frames};
use image::{Node, NodeKind, Point};
use rows::{Rows, Window};

// "Boxed with height ≥ 3 and width ≥ 2"; otherwise it looks simple.
fn box_or_simple(width: u32, height: u32) -> Look
    ensures { result ≡ box_or_simple width height }
{
    if frames::at_least(height, 3, width, 2) {
        Look::Box
    } else {
        Look::Simple
    }
}

// How a node looks, with dummies shown or not.
pub fn look_of(show_dummies: bool, n: Node) -> Look
    ensures { result ≡ look_of show_dummies n }
{
    let kind = n.kind;
    match kind {
        NodeKind::Simple => Look::Simple,
        NodeKind::Boxed => box_or_simple(n.width, n.height),
        NodeKind::Blank => Look::Blank,
        NodeKind::Dummy => if show_dummies {
            Look::Dummy
        } else {
            Look::Hidden
        },
    }
}

// The row of a self-loop.
fn loop_rows(window: Window, at: Option<Point>) -> Option<Rows>
    ensures { result ≡ loop_rows window at }
{
    let Some(point) = at else {
        return None;
    };
    frames::row_at(window, point.y)
}

// The rows of a window that a node touches which looks so.
fn look_rows(window: Window, n: Node, look: Look) -> Option<Rows>
    ensures { result ≡ look_rows window n look }
{
    let at = n.self_loop;
    match look {
        Look::Hidden => None,
        Look::Dummy => frames::row_at(window, n.y),
        Look::Box => rows::join(
            frames::box_rows(window, n.y, n.height),
            loop_rows(window, at),
        ),
        Look::Simple => rows::join(frames::row_at(window, n.y), loop_rows(window, at)),
        Look::Blank => loop_rows(window, at),
    }
}

// The rows of a window that a node touches, from the first to the last.
pub fn node_rows(window: Window, show_dummies: bool, n: Node) -> Option<Rows>
    ensures { result ≡ node_rows window show_dummies n }
{
    look_rows(window, n, look_of(show_dummies, n))
}
