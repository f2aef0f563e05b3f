// Code 2, the header's words; and how words are looked at in turn.
#![tactic(auto)]

ghost use Rattle.std.specs.Prelude.{◌≡◌, ◌+◌, ◌≤◌, ◌<◌, length, None};
ghost use Rattle.ground.specs.Judged.{first_bad};
ghost use Rattle.layout.specs.Layout.{header_nodes, header_size};
ghost use Rattle.layout.specs.Tables.{word};
ghost use Rattle.header.specs.Words.{at_most, clear};
ghost use Rattle.header.specs.Header.{header_judged, size_rules, count_rules};
ghost use Rattle.header.specs.InTurn.{or_unless, or_words, words_at, four_rules};

use layout::word_inside;

// What was found before, or the place of a word that is not good.
pub fn or_unless(before: Option<usize>, good: bool, place: usize) -> Option<usize>
    ensures { result ≡ or_unless before good place }
{
    if good { before } else { before.or(Some(place)) }
}

// A number that is over its limit.
pub fn at_most(before: Option<usize>, image: &[u32], place: usize, limit: u32) -> Option<usize>
    requires { place < length image.now }
    ensures { result ≡ or_unless before (at_most (word image.now place) limit) place }
{
    or_unless(before, word_inside(image, place) <= limit, place)
}

// Four numbers in a row with one limit.
pub fn four_at_most(before: Option<usize>, image: &[u32], at: usize, limit: u32) -> Option<usize>
    requires { at + 4 ≤ length image.now }
    ensures { result ≡ or_words before at 0 (four_rules (words_at image.now at) limit) }
{
    if limit < word_inside(image, at) {
        return before.or(Some(at));
    }
    if limit < word_inside(image, at + 1) {
        return before.or(Some(at + 1));
    }
    if limit < word_inside(image, at + 2) {
        return before.or(Some(at + 2));
    }
    if limit < word_inside(image, at + 3) {
        return before.or(Some(at + 3));
    }
    before
}

// Flags of which a spare bit, one below the lowest in use, is set.
pub fn clear(before: Option<usize>, image: &[u32], place: usize, lowest: u32) -> Option<usize>
    requires { (place < length image.now) × (0 < lowest) }
    ensures { result ≡ or_unless before (clear (word image.now place) lowest) place }
{
    or_unless(before, word_inside(image, place) % lowest == 0, place)
}

// Width, height, run capacity and flags.
fn bad_sizes(image: &[u32]) -> Option<usize>
    requires { header_size ≤ length image.now }
    ensures { result ≡ or_words None 0 0 (size_rules image.now) }
{
    let width = at_most(None, image, layout::HEADER_WIDTH, layout::MAX_WIDTH);
    let height = at_most(width, image, layout::HEADER_HEIGHT, layout::MAX_HEIGHT);
    let runs = at_most(height, image, layout::HEADER_RUNS, layout::MAX_RUNS);
    clear(runs, image, layout::HEADER_FLAGS, layout::HEADER_SPARE)
}

// The counts of the tables.
fn bad_counts(before: Option<usize>, image: &[u32]) -> Option<usize>
    requires { header_size ≤ length image.now }
    ensures { result ≡ or_words before 0 header_nodes (count_rules image.now) }
{
    let things = four_at_most(before, image, layout::HEADER_NODES, layout::MAX_THINGS);
    let elements = at_most(things, image, layout::HEADER_ELEMENTS, layout::MAX_ELEMENTS);
    let points = at_most(elements, image, layout::HEADER_POINTS, layout::MAX_POINTS);
    let glyphs = at_most(points, image, layout::HEADER_GLYPHS, layout::MAX_GLYPHS);
    at_most(glyphs, image, layout::HEADER_RANGES, layout::MAX_RANGES)
}

// Code 2: "header number over its limit or spare bit set".
pub fn bad_header(image: &[u32]) -> Option<usize>
    requires { header_size ≤ length image.now }
    ensures { result ≡ first_bad (header_judged image.now) }
{
    bad_counts(bad_sizes(image), image)
}
