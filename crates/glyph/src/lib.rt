// The width of a glyph, the rule of the ranges that give it, and the part of a label that fits.
#![tactic(auto)]

ghost use Rattle.std.specs.Prelude.{◌≡◌, ◌+◌, ◌*◌, ◌/◌, ◌≤◌, ◌<◌, length, get_or};
ghost use Rattle.glyph.specs.Width.{width_of, first_of, last_of, range_width, range_count, as_width};
ghost use Rattle.glyph.specs.Ranges.{holds, holds_fixed, not_above, range_broken, first_broken};
ghost use Rattle.glyph.specs.Fitting.{fit_count, fit_prefix};

// One width range: the values from first to last have this width.
#[derive(Clone, Copy)]
pub struct Range {
    // the least value that it holds
    pub first: u32,
    // the greatest value that it holds
    pub last: u32,
    // how many columns each of them takes
    pub width: u32,
}

// "width 0 or 2; all others 1"
fn as_width(word: u32) -> u32
    ensures { (result ≡ as_width word) × (result ≤ 2) }
{
    match word {
        0 => 0,
        2 => 2,
        _ => 1,
    }
}

fn range_at(ranges: &[u32], k: usize) -> Range
    requires { k < range_count ranges.now }
    ensures { (result.first ≡ first_of ranges.now k) × (result.last ≡ last_of ranges.now k) × (result.width ≡ range_width ranges.now k) × (result.width ≤ 2) }
{
    let at = layout::RANGE_SIZE * k;
    Range {
        first: ranges[at],
        last: ranges[at + layout::RANGE_LAST],
        width: as_width(ranges[at + layout::RANGE_WIDTH]),
    }
}

// The width of a value, by bisection of the lent ranges: 0 or 2 where a range says so, all others 1.
pub fn char_width(ranges: &[u32], value: u32) -> u32
    ensures { (result ≡ width_of ranges.now value) × (result ≤ 2) }
{
    let mut low: usize = 0;
    let mut high: usize = ranges.len() / layout::RANGE_SIZE;
    while low < high {
        let middle = low + (high - low) / 2;
        let range = range_at(ranges, middle);
        if value < range.first {
            high = middle;
        } else if range.last < value {
            low = middle + 1;
        } else {
            return range.width;
        }
    }
    1
}

fn holds(first: u32, last: u32, value: u32) -> bool
    ensures { result ≡ holds first last value }
{
    (first <= value) & (value <= last)
}

// "holds 0020, 0022, 005B or 005D"
fn holds_fixed(first: u32, last: u32) -> bool
    ensures { result ≡ holds_fixed first last }
{
    holds(first, last, 0x20)
        | holds(first, last, 0x22)
        | holds(first, last, 0x5B)
        | holds(first, last, 0x5D)
}

// "first not above the last before it"; before range 0 there is none.
fn not_above(ranges: &[u32], k: usize) -> bool
    requires { k < range_count ranges.now }
    ensures { result ≡ not_above ranges.now k }
{
    let before = ground::minus(k, 1);
    let first = ranges[layout::RANGE_SIZE * k];
    let last_before = ranges[layout::RANGE_SIZE * before + layout::RANGE_LAST];
    (0 < k) & (first <= last_before)
}

fn range_broken(ranges: &[u32], k: usize) -> bool
    requires { k < range_count ranges.now }
    ensures { result ≡ range_broken ranges.now k }
{
    let first = ranges[layout::RANGE_SIZE * k];
    let last = ranges[layout::RANGE_SIZE * k + layout::RANGE_LAST];
    (last < first) | not_above(ranges, k) | holds_fixed(first, last)
}

// The first range that breaks the rule of code 5.
pub fn first_broken(ranges: &[u32]) -> Option<usize>
    ensures { result ≡ first_broken ranges.now }
{
    let count = ranges.len() / layout::RANGE_SIZE;
    ground::first_found(count, |k| range_broken(ranges, k).then_some(k))
}

// How many glyphs of the label fit into so many columns.
fn fit_count(label: &[u32], ranges: &[u32], columns: usize) -> usize
    ensures { (result ≡ fit_count label.now ranges.now columns) × (result ≤ length label.now) }
{
    let mut left = columns;
    for (n, glyph) in label.iter().enumerate() {
        let width = ground::number(char_width(ranges, *glyph));
        if left < width {
            return n;
        }
        left -= width;
    }
    label.len()
}

// "The fitting part is the longest prefix .. handed back as a part of the lent glyphs."
pub fn fit_prefix<'a, 'b>(label: &'a [u32], ranges: &'b [u32], columns: usize) -> &'a [u32]
    ensures { result.now ≡ fit_prefix label.now ranges.now columns }
{
    let n = fit_count(label, ranges, columns);
    &label[..n]
}
