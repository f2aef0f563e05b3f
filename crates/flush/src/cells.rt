// The cells of rows of a window with the runs that waited.
ghost use Rattle.std.specs.Prelude.{◌≡◌, ◌+◌, ◌*◌, ◌-◌, ◌≤◌, ◌<◌, length};
ghost use Rattle.ground.specs.Turns.{turns};
ghost use Rattle.window.specs.Window.{Room};
ghost use Rattle.runs.specs.Kept.{run_size, kept_runs, last_on, Linked};
ghost use Rattle.flush.specs.Threads.{block_rows, AllThreaded};
ghost use Rattle.flush.specs.Rows.{cells_at};

use rows::Window;
use runs::cover;

// Row y of the window, a part of the lent cells; where no run lies on it nothing is done.
fn flush_row(
    cells: &mut [u32],
    ranges: &[u32],
    scratch: &[u32],
    n: usize,
    head: usize,
    v: Window,
    y: usize,
)
    requires width_bound { (v.width ≤ 1024) × (v.first ≤ y) × (y < v.first + v.rows) × Room v cells.old × (run_size * n ≤ length scratch.now) }
    requires head_value { (head ≡ last_on scratch.now y n) × Linked scratch.now y n }
    ensures { cells.new ≡ cells_at v ranges.now (kept_runs scratch.now n) y cells.old }
{
    let width = v.width;
    let first = v.first;
    let rows = v.rows;
    if head != 0 {
        let a = window::row_start(y - first, width, rows);
        let e = a + width;
        cover::flush_cells(&mut cells[a..e], ranges, scratch, n, head, y);
    }
}

// The rows from base to just before end, of a block whose runs are threaded.
pub fn flush_rows(
    cells: &mut [u32],
    ranges: &[u32],
    scratch: &[u32],
    heads: &[u32],
    n: usize,
    v: Window,
    base: usize,
    end: usize,
)
    requires width_bound { (v.width ≤ 1024) × (v.first ≤ base) × (end ≤ v.first + v.rows) × (end ≤ base + block_rows) × Room v cells.old }
    requires n_in_bounds { (run_size * n ≤ length scratch.now) × (length heads.now ≡ block_rows) × AllThreaded scratch.now heads.now base n }
    ensures { cells.new ≡ turns (cells_at v ranges.now (kept_runs scratch.now n)) base (end - base) cells.old }
{
    for y in base..end {
        let head = ground::number(heads[y - base]);
        flush_row(cells, ranges, scratch, n, head, v, y);
    }
}
