// A row's cover: the heaviest weight over each of its columns. "each inked cell gets left and right arms of the heaviest covering weight"
ghost use Rattle.std.specs.Prelude.{◌≡◌, [], ◌+◌, ◌*◌, ◌-◌, ◌≤◌, min, max, length, get_or};
ghost use Rattle.ground.specs.Turns.{turns};
ghost use Rattle.runs.specs.Runs.{ink_column, flush_cells};
ghost use Rattle.runs.specs.Kept.{run_size, run_at, kept_runs, last_on, Linked, on_columns, raise_column, Covered, Blank};

use crate::Columns;
use canvas::packed;
use cell::{Arms, Weight};

fn heavier(a: u8, b: u8) -> u8
    ensures { result ≡ max a b }
{
    if a < b { b } else { a }
}

// The weights of the columns from a to just before e, raised to a run's.
fn raise(cover: &mut [u8], a: usize, e: usize, weight: u8)
    requires { e ≤ length cover.old }
    ensures { cover.new ≡ turns (raise_column weight) a (e - a) cover.old }
{
    for x in a..e {
        let old = cover[x];
        cover[x] = heavier(weight, old);
    }
}

// The columns of the run at record k that the row has, raised to its weight, one of four whatever the word. Answered are
// those columns.
fn cover_run(scratch: &[u32], k: usize, width: usize, cover: &mut [u8]) -> Columns
    requires { (run_size * k + run_size ≤ length scratch.now) × (width ≤ length cover.old) }
    ensures cover_after { cover.new ≡ on_columns (raise_column (run_at scratch.now k).weight) (run_at scratch.now k) width cover.old }
    ensures low_value { (result.low ≡ (run_at scratch.now k).first) × (result.high ≡ min ((run_at scratch.now k).last + 1) width) }
{
    let columns = crate::columns_at(scratch, k, width);
    let low = columns.low;
    let high = columns.high;
    let weight = crate::word_at(scratch, k, crate::WEIGHT) % 4;
    raise(cover, low, high, weight as u8);
    columns
}

// The runs of row y, threaded from a head, raise its cover, the last of them first. Answered are columns outside which there is no weight.
fn cover_row(
    scratch: &[u32],
    n: usize,
    head: usize,
    y: usize,
    width: usize,
    cover: &mut [u8],
) -> Columns
    requires n_in_bounds { (run_size * n ≤ length scratch.now) × (width ≤ length cover.old) }
    requires head_value { (head ≡ last_on scratch.now y n) × Linked scratch.now y n × Covered cover.old width [] y × Blank cover.old width 0 }
    ensures covered { Covered cover.new width (kept_runs scratch.now n) y }
    ensures blank { Blank cover.new result.low result.high × (result.high ≤ width) }
{
    let mut low = width;
    let mut high: usize = 0;
    let mut link = head;
    // the runs of a row are reached link by link, which no range gives
    while link != 0 {
        let k = link - 1;
        let run = cover_run(scratch, k, width, cover);
        let first = run.low;
        let end = run.high;
        low = ground::min(low, first);
        high = ground::max(high, end);
        link = crate::link_at(scratch, k);
    }
    Columns { low, high }
}

fn ink_column(row: &mut [u32], ranges: &[u32], weight: u8, x: usize)
    ensures { row.new ≡ ink_column ranges.now weight x row.old }
{
    if weight != 0 {
        let arms = Arms::horizontal(Weight::from(weight as u32));
        packed::stroke(row, ranges, x, packed::stroke_word(arms));
    }
}

// The columns from low to just before high, each inked with its weight.
fn ink_columns(row: &mut [u32], ranges: &[u32], cover: &[u8], low: usize, high: usize)
    requires { high ≤ length cover.now }
    ensures { row.new ≡ turns (λ x. ink_column ranges.now (get_or cover.now x 0) x) low (high - low) row.old }
{
    for x in low..high {
        ink_column(row, ranges, cover[x], x);
    }
}

// The cells of row y with the runs that waited, threaded from a head.
pub fn flush_cells(
    row: &mut [u32],
    ranges: &[u32],
    scratch: &[u32],
    n: usize,
    head: usize,
    y: usize,
)
    requires n_in_bounds { (run_size * n ≤ length scratch.now) × (length row.old ≤ 1024) }
    requires head_value { (head ≡ last_on scratch.now y n) × Linked scratch.now y n }
    ensures { row.new ≡ flush_cells ranges.now (kept_runs scratch.now n) y row.old }
{
    let mut cover = [0u8; 1024];
    let width = row.len();
    let inked = cover_row(scratch, n, head, y, width, &mut cover);
    let low = inked.low;
    let high = inked.high;
    ink_columns(row, ranges, &cover, low, high);
}
