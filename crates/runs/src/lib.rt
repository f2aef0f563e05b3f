// Runs: kept in the lent scratch while edges are painted, and put into a row afterwards.
#![tactic(auto)]

ghost use Rattle.std.specs.Prelude.{◌≡◌, [], ◌∷◌, ◌+◌, ◌*◌, ◌≤◌, ◌<◌, min, length};
ghost use Rattle.runs.specs.Kept.{run_size, field_at, run_at, row_at, link_at, keep, run_room, Kept};

pub mod cover;
pub mod owners;

// A run that waits.
#[derive(Clone, Copy)]
pub struct Run {
    // its row
    pub row: u32,
    // its first column
    pub first: u32,
    // its last column
    pub last: u32,
    // the number of its edge's weight
    pub weight: u32,
    // the number of its edge: the edge's index and 1
    pub number: u32,
    // its edge's colour
    pub colour: u32,
}

// Columns of a row, from low to just before high; none where high is not above low.
#[derive(Clone, Copy)]
pub struct Columns {
    // the first
    pub low: usize,
    // just past the last
    pub high: usize,
}

// "scratch 8 × run capacity": the words of a run.
pub const RUN_SIZE: usize = 8;
// Which of them are its fields; the first word is its link.
const ROW: usize = 1;

const FIRST: usize = 2;

const LAST: usize = 3;

const WEIGHT: usize = 4;

const NUMBER: usize = 5;

const COLOUR: usize = 6;

// A run put at record k. Its link is written when the runs are threaded.
fn push_run(scratch: &mut [u32], k: usize, run: Run)
    requires { run_size * k + run_size ≤ length scratch.old }
    ensures { scratch.new ≡ keep k run scratch.old }
{
    let at = RUN_SIZE * k;
    scratch[at + ROW] = run.row;
    scratch[at + FIRST] = run.first;
    scratch[at + LAST] = run.last;
    scratch[at + WEIGHT] = run.weight;
    scratch[at + NUMBER] = run.number;
    scratch[at + COLOUR] = run.colour;
}

// A run is kept at record `kept` where there is room. Answered is how many are kept now.
pub fn keep_run(scratch: &mut [u32], kept: usize, run: Run) -> usize
    requires { (kept ≤ run_room scratch.old) × (run.weight ≤ 3) }
    ensures { Kept scratch.old kept (run ∷ []) scratch.new result }
{
    if kept < scratch.len() / RUN_SIZE {
        push_run(scratch, kept, run);
        kept + 1
    } else {
        kept
    }
}

// Word f of record k.
fn word_at(scratch: &[u32], k: usize, f: usize) -> u32
    requires { (run_size * k + run_size ≤ length scratch.now) × (f < run_size) }
    ensures { result ≡ field_at scratch.now k f }
{
    let at = RUN_SIZE * k + f;
    scratch[at]
}

// The columns of the run at record k that a row has.
fn columns_at(scratch: &[u32], k: usize, width: usize) -> Columns
    requires { run_size * k + run_size ≤ length scratch.now }
    ensures { (result.low ≡ (run_at scratch.now k).first) × (result.high ≡ min ((run_at scratch.now k).last + 1) width) }
{
    let first = ground::number(word_at(scratch, k, FIRST));
    let last = ground::number(word_at(scratch, k, LAST));
    let end = ground::min(last + 1, width);
    Columns {
        low: first,
        high: end,
    }
}

// The row of the run at record k.
pub fn row_at(scratch: &[u32], k: usize) -> usize
    requires { run_size * k + run_size ≤ length scratch.now }
    ensures { (result ≡ row_at scratch.now k) × (result < 4294967296) }
{
    ground::number(word_at(scratch, k, ROW))
}

// Its link: the number of the run before it on its row and 1, or 0 where there is none.
pub fn link_at(scratch: &[u32], k: usize) -> usize
    requires { run_size * k + run_size ≤ length scratch.now }
    ensures { (result ≡ link_at scratch.now k) × (result < 4294967296) }
{
    let at = RUN_SIZE * k;
    ground::number(scratch[at])
}
