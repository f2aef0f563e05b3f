// A row's owners: over each of its columns the run with the highest number. Each takes "the colour of the highest-numbered covering edge only if that number
// exceeds the stamp".
ghost use Rattle.std.specs.Prelude.{◌≡◌, [], ◌+◌, ◌*◌, ◌-◌, ◌≤◌, ◌<◌, min, length, get_or};
ghost use Rattle.ground.specs.Turns.{turns};
ghost use Rattle.runs.specs.Runs.{colour_column, flush_colours};
ghost use Rattle.runs.specs.Kept.{run_size, run_at, kept_runs, last_on, Linked, on_columns, Blank, owners, owner_in, claim_column, Owned};

use crate::Columns;

// A column becomes the run's where the run's number is the higher one. Both words are written in any case: a loop of choices takes several columns at once,
// one of branches a column at a time.
fn claim_column(numbers: &mut [u32], colours: &mut [u32], x: usize, number: u32, colour: u32)
    requires { (x < length numbers.old) × (x < length colours.old) }
    ensures { owners numbers.new colours.new ≡ claim_column number colour x (owners numbers.old colours.old) }
{
    let old = numbers[x];
    let kept = colours[x];
    numbers[x] = if old < number { number } else { old };
    colours[x] = if old < number { colour } else { kept };
}

// The columns from a to just before e, claimed by a run.
fn claim(numbers: &mut [u32], colours: &mut [u32], a: usize, e: usize, number: u32, colour: u32)
    requires { (e ≤ length numbers.old) × (e ≤ length colours.old) }
    ensures { owners numbers.new colours.new ≡ turns (claim_column number colour) a (e - a) (owners numbers.old colours.old) }
{
    for x in a..e {
        claim_column(numbers, colours, x, number, colour);
    }
}

// The columns of the run at record k that the row has, claimed by it. Answered are those columns.
fn claim_run(
    scratch: &[u32],
    k: usize,
    width: usize,
    numbers: &mut [u32],
    colours: &mut [u32],
) -> Columns
    requires { (run_size * k + run_size ≤ length scratch.now) × (width ≤ length numbers.old) × (width ≤ length colours.old) }
    ensures colours_after { owners numbers.new colours.new ≡ on_columns (claim_column (run_at scratch.now k).number (run_at scratch.now k).colour) (run_at scratch.now k) width (owners numbers.old colours.old) }
    ensures low_value { (result.low ≡ (run_at scratch.now k).first) × (result.high ≡ min ((run_at scratch.now k).last + 1) width) }
{
    let columns = crate::columns_at(scratch, k, width);
    let low = columns.low;
    let high = columns.high;
    let number = crate::word_at(scratch, k, crate::NUMBER);
    let colour = crate::word_at(scratch, k, crate::COLOUR);
    claim(numbers, colours, low, high, number, colour);
    columns
}

// The runs of row y, threaded from a head, claim its columns, the last of them first. Answered are columns outside which nobody is an owner.
fn claim_row(
    scratch: &[u32],
    n: usize,
    head: usize,
    y: usize,
    width: usize,
    numbers: &mut [u32],
    colours: &mut [u32],
) -> Columns
    requires n_in_bounds { (run_size * n ≤ length scratch.now) × (width ≤ length numbers.old) × (width ≤ length colours.old) }
    requires head_value { (head ≡ last_on scratch.now y n) × Linked scratch.now y n × Owned (owners numbers.old colours.old) width [] y × Blank numbers.old width 0 }
    ensures owned { Owned (owners numbers.new colours.new) width (kept_runs scratch.now n) y }
    ensures blank { Blank numbers.new result.low result.high × (result.high ≤ width) }
{
    let mut low = width;
    let mut high: usize = 0;
    let mut link = head;
    // the runs of a row are reached link by link, which no range gives
    while link != 0 {
        let k = link - 1;
        let run = claim_run(scratch, k, width, numbers, colours);
        let first = run.low;
        let end = run.high;
        low = ground::min(low, first);
        high = ground::max(high, end);
        link = crate::link_at(scratch, k);
    }
    Columns { low, high }
}

fn colour_column(row: &mut [u32], x: usize, stamp: u32, number: u32, colour: u32)
    requires { x < length row.old }
    ensures { row.new ≡ colour_column (record { number = number; colour = colour }) stamp x row.old }
{
    if stamp < number {
        row[x] = colour;
    }
}

// The columns from low to just before high, each coloured by its owner.
fn colour_columns(
    row: &mut [u32],
    stamps: &[u32],
    numbers: &[u32],
    colours: &[u32],
    low: usize,
    high: usize,
)
    requires { (high ≤ length row.old) × (high ≤ length stamps.now) × (high ≤ length numbers.now) × (high ≤ length colours.now) }
    ensures { row.new ≡ turns (λ x. colour_column (owner_in (owners numbers.now colours.now) x) (get_or stamps.now x 0) x) low (high - low) row.old }
{
    for x in low..high {
        colour_column(row, x, stamps[x], numbers[x], colours[x]);
    }
}

// The colours of row y, over its stamps, with the runs that waited, threaded from a head.
pub fn flush_colours(
    row: &mut [u32],
    stamps: &[u32],
    scratch: &[u32],
    n: usize,
    head: usize,
    y: usize,
)
    requires n_in_bounds { (run_size * n ≤ length scratch.now) × (length row.old ≤ 1024) × (length row.old ≤ length stamps.now) }
    requires head_value { (head ≡ last_on scratch.now y n) × Linked scratch.now y n }
    ensures { row.new ≡ flush_colours (kept_runs scratch.now n) y stamps.now row.old }
{
    let mut numbers = [0u32; 1024];
    let mut colours = [0u32; 1024];
    let width = row.len();
    let owned = claim_row(scratch, n, head, y, width, &mut numbers, &mut colours);
    let low = owned.low;
    let high = owned.high;
    colour_columns(row, stamps, &numbers, &colours, low, high);
}
