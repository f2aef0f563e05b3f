// The colours of rows of a window, over their stamps, with the runs that waited.
ghost use Rattle.std.specs.Prelude.{◌≡◌, ◌+◌, ◌*◌, ◌-◌, ◌≤◌, ◌<◌, length};
ghost use Rattle.ground.specs.Turns.{turns};
ghost use Rattle.window.specs.Window.{plane_of, Room, LentRoom};
ghost use Rattle.runs.specs.Kept.{run_size, kept_runs, last_on, Linked};
ghost use Rattle.flush.specs.Threads.{block_rows, AllThreaded};
ghost use Rattle.flush.specs.Rows.{colours_at};

use rows::Window;
use runs::owners;
use window::Lent;

// Row y of the window, a part of the lent colours, over the same part of the lent stamps; where no run lies on it nothing is done.
fn colour_row(
    colours: &mut [u32],
    stamps: &[u32],
    scratch: &[u32],
    n: usize,
    head: usize,
    v: Window,
    y: usize,
)
    requires width_bound { (v.width ≤ 1024) × (v.first ≤ y) × (y < v.first + v.rows) × Room v colours.old × Room v stamps.now × (run_size * n ≤ length scratch.now) }
    requires head_value { (head ≡ last_on scratch.now y n) × Linked scratch.now y n }
    ensures { colours.new ≡ colours_at v (kept_runs scratch.now n) stamps.now y colours.old }
{
    let width = v.width;
    let first = v.first;
    let rows = v.rows;
    if head != 0 {
        let a = window::row_start(y - first, width, rows);
        let e = a + width;
        owners::flush_colours(&mut colours[a..e], &stamps[a..e], scratch, n, head, y);
    }
}

// The rows from base to just before end, of a block whose runs are threaded.
fn colour_rows(
    colours: &mut [u32],
    stamps: &[u32],
    scratch: &[u32],
    heads: &[u32],
    n: usize,
    v: Window,
    base: usize,
    end: usize,
)
    requires width_bound { (v.width ≤ 1024) × (v.first ≤ base) × (end ≤ v.first + v.rows) × (end ≤ base + block_rows) × Room v colours.old × Room v stamps.now }
    requires n_in_bounds { (run_size * n ≤ length scratch.now) × (length heads.now ≡ block_rows) × AllThreaded scratch.now heads.now base n }
    ensures { colours.new ≡ turns (colours_at v (kept_runs scratch.now n) stamps.now) base (end - base) colours.old }
{
    for y in base..end {
        let head = ground::number(heads[y - base]);
        colour_row(colours, stamps, scratch, n, head, v, y);
    }
}

// The same, where colours are lent.
pub fn colour_lent(
    colours: &mut [u32],
    stamps: &[u32],
    lent: Lent,
    scratch: &[u32],
    heads: &[u32],
    n: usize,
    v: Window,
    base: usize,
    end: usize,
)
    requires width_bound { (v.width ≤ 1024) × (v.first ≤ base) × (end ≤ v.first + v.rows) × (end ≤ base + block_rows) × LentRoom lent v colours.old stamps.now }
    requires n_in_bounds { (run_size * n ≤ length scratch.now) × (length heads.now ≡ block_rows) × AllThreaded scratch.now heads.now base n }
    ensures { plane_of lent colours.new ≡ turns (colours_at v (kept_runs scratch.now n) (plane_of lent stamps.now)) base (end - base) (plane_of lent colours.old) }
{
    match lent {
        Lent::Cells => {}
        Lent::All => colour_rows(colours, stamps, scratch, heads, n, v, base, end),
    }
}
