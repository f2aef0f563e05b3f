// Code 4 for an edge: its words in turn. Each function is told where the edge begins and what the tables that it refers to hold.
#![tactic(auto)]

ghost use Rattle.std.specs.Prelude.{◌≡◌, ◌+◌, ◌≤◌, ◌<◌, length};
ghost use Rattle.ground.specs.Judged.{first_bad, judged_words};
ghost use Rattle.layout.specs.Layout.{edge_a, edge_label_start, edge_size};
ghost use Rattle.layout.specs.Tables.{word};
ghost use Rattle.header.specs.Words.{inside};
ghost use Rattle.header.specs.InTurn.{or_unless, or_words, words_at};
ghost use Rattle.edge_rules.specs.Edge.{path_number, weight_number, edge_flags_good, path_good, edge_path, path_rules, label_start_good, label_count_good, label_rules, edge_rules};

use header::{four_at_most, or_unless};
use layout::{MAX_COORDINATE, flag, word_inside};

// "start + count leaves its table"
pub fn span_good(start: u32, count: u32, held: usize) -> bool
    ensures { result ≡ inside start count held }
{
    ground::number(start) + ground::number(count) <= held
}

// "path 3 bits"
pub fn path_number(flags: u32) -> u32
    ensures { result ≡ path_number flags }
{
    layout::bits(flags, layout::PATH_STEP, layout::PATHS)
}

// "weight 2"
pub fn weight_number(flags: u32) -> u32
    ensures { result ≡ weight_number flags }
{
    layout::bits(flags, layout::WEIGHT_STEP, layout::WEIGHTS)
}

// The path is 0 to 5, the weight 1 to 3, and the spare bits 0.
fn edge_flags_good(flags: u32) -> bool
    ensures { result ≡ edge_flags_good flags }
{
    let weight = weight_number(flags);
    (path_number(flags) <= layout::PATH_SPLINE) & ((0 < weight) & (flags % layout::EDGE_SPARE == 0))
}

fn bad_edge_flags(before: Option<usize>, image: &[u32], place: usize) -> Option<usize>
    requires { place < length image.now }
    ensures { result ≡ or_unless before (edge_flags_good (word image.now place)) place }
{
    or_unless(before, edge_flags_good(word_inside(image, place)), place)
}

// Whether an edge's a, b and c each keep the rule of its path.
#[derive(Clone, Copy)]
pub struct PathWords {
    // a bend, a channel, a first point, or unused
    pub a: bool,
    // a span's start, a count of points, or unused
    pub b: bool,
    // a span's end, a start offset, or unused
    pub c: bool,
}

// "Corner: a bend. SideChannel: channel, span start, span end. MultiSegment: first point, count, start offset.
// Orthogonal: first point, count. Unused a, b, c are 0."
fn path_good(points: usize, path: u32, a: u32, b: u32, c: u32) -> PathWords
    ensures { result ≡ path_good points path a b c }
{
    match path {
        layout::PATH_CORNER => PathWords {
            a: a <= MAX_COORDINATE,
            b: b == 0,
            c: c == 0,
        },
        layout::PATH_SIDE_CHANNEL => PathWords {
            a: a <= MAX_COORDINATE,
            b: b <= MAX_COORDINATE,
            c: c <= MAX_COORDINATE,
        },
        layout::PATH_MULTI_SEGMENT => PathWords {
            a: span_good(a, b, points),
            b: true,
            c: c <= MAX_COORDINATE,
        },
        layout::PATH_ORTHOGONAL => PathWords {
            a: span_good(a, b, points),
            b: true,
            c: c == 0,
        },
        _ => PathWords {
            a: a == 0,
            b: b == 0,
            c: c == 0,
        },
    }
}

// The same of the edge at a place.
fn path_at(image: &[u32], at: usize, points: usize) -> PathWords
    requires { at + edge_size ≤ length image.now }
    ensures { result ≡ edge_path points (words_at image.now at) }
{
    let a = word_inside(image, at + layout::EDGE_A);
    let b = word_inside(image, at + layout::EDGE_B);
    let c = word_inside(image, at + layout::EDGE_C);
    let flags = word_inside(image, at + layout::EDGE_FLAGS);
    path_good(points, path_number(flags), a, b, c)
}

fn bad_path(before: Option<usize>, image: &[u32], at: usize, points: usize) -> Option<usize>
    requires { at + edge_size ≤ length image.now }
    ensures { result ≡ or_words before at edge_a (path_rules points (words_at image.now at)) }
{
    let good = path_at(image, at, points);
    let bad_a = or_unless(before, good.a, at + layout::EDGE_A);
    let bad_b = or_unless(bad_a, good.b, at + layout::EDGE_B);
    or_unless(bad_b, good.c, at + layout::EDGE_C)
}

// "label present 1 (else start and count 0)"
fn label_start_good(glyphs: usize, flags: u32, start: u32, count: u32) -> bool
    ensures { result ≡ label_start_good glyphs flags start count }
{
    if flag(flags, layout::LABEL_PRESENT) {
        span_good(start, count, glyphs)
    } else {
        start == 0
    }
}

fn label_count_good(flags: u32, count: u32) -> bool
    ensures { result ≡ label_count_good flags count }
{
    flag(flags, layout::LABEL_PRESENT) || count == 0
}

fn bad_edge_label(before: Option<usize>, image: &[u32], at: usize, glyphs: usize) -> Option<usize>
    requires { at + edge_size ≤ length image.now }
    ensures { result ≡ or_words before at edge_label_start (label_rules glyphs (words_at image.now at)) }
{
    let flags = word_inside(image, at + layout::EDGE_FLAGS);
    let start = word_inside(image, at + layout::EDGE_LABEL_START);
    let count = word_inside(image, at + layout::EDGE_LABEL_COUNT);
    let bad_start = or_unless(
        before,
        label_start_good(glyphs, flags, start, count),
        at + layout::EDGE_LABEL_START,
    );
    or_unless(
        bad_start,
        label_count_good(flags, count),
        at + layout::EDGE_LABEL_COUNT,
    )
}

// An edge, where so many points and glyphs are held.
pub fn bad_edge(image: &[u32], at: usize, points: usize, glyphs: usize) -> Option<usize>
    requires { at + edge_size ≤ length image.now }
    ensures { result ≡ first_bad (judged_words at 0 (edge_rules points glyphs (words_at image.now at))) }
{
    let ends = four_at_most(None, image, at, MAX_COORDINATE);
    let flags = bad_edge_flags(ends, image, at + layout::EDGE_FLAGS);
    let path = bad_path(flags, image, at, points);
    bad_edge_label(path, image, at, glyphs)
}
