// The runs that waited, put into the lent planes of a window: "each inked cell gets left and right arms of the heaviest covering weight, and takes the colour of
// the highest-numbered covering edge only if that number exceeds the stamp".
#![tactic(auto)]

ghost use Rattle.std.specs.Prelude.{◌≡◌, ◌+◌, ◌*◌, ◌-◌, ◌≤◌, ◌<◌, length};
ghost use Rattle.ground.specs.Turns.{turns};
ghost use Rattle.window.specs.Window.{canvas_of, plane_of, Room, LentRoom, Ready};
ghost use Rattle.runs.specs.Window.{flush_window};
ghost use Rattle.runs.specs.Kept.{run_size, run_room, kept_runs};
ghost use Rattle.flush.specs.Threads.{block_rows, SameRuns};
ghost use Rattle.flush.specs.Rows.{cells_at, colours_at};

pub mod cells;
pub mod colours;
pub mod link;

use rows::Window;
use window::Lent;

// How many rows are threaded at a time: their heads are one array.
const BLOCK: usize = 1024;

// The rows from base to just before end, at most a block of them.
fn flush_block(
    cells: &mut [u32],
    colours: &mut [u32],
    stamps: &[u32],
    lent: Lent,
    ranges: &[u32],
    scratch: &mut [u32],
    n: usize,
    v: Window,
    base: usize,
    end: usize,
)
    requires width_bound { (v.width ≤ 1024) × (v.first ≤ base) × (end ≤ v.first + v.rows) × (end ≤ base + block_rows) × (v.first + v.rows ≤ 0xFFFFFFFF) }
    requires room { Room v cells.old × LentRoom lent v colours.old stamps.now × (run_size * n ≤ length scratch.old) × (n ≤ 65536) }
    ensures cells_after { cells.new ≡ turns (cells_at v ranges.now (kept_runs scratch.old n)) base (end - base) cells.old }
    ensures colours_after { plane_of lent colours.new ≡ turns (colours_at v (kept_runs scratch.old n) (plane_of lent stamps.now)) base (end - base) (plane_of lent colours.old) }
    ensures same_runs { SameRuns scratch.new scratch.old }
{
    let mut heads = [0u32; 1024];
    link::thread(scratch, &mut heads, base, n);
    cells::flush_rows(cells, ranges, scratch, &heads, n, v, base, end);
    colours::colour_lent(colours, stamps, lent, scratch, &heads, n, v, base, end);
}

// A window with the runs that waited. In the scratch only links change.
pub fn flush(
    cells: &mut [u32],
    colours: &mut [u32],
    stamps: &[u32],
    lent: Lent,
    ranges: &[u32],
    scratch: &mut [u32],
    kept: usize,
    v: Window,
)
    requires { Ready lent v cells.old colours.old stamps.now × (v.width ≤ 1024) × (kept ≤ run_room scratch.old) × (kept ≤ 65536) }
    ensures stamps_after { canvas_of lent cells.new colours.new stamps.now ≡ flush_window v ranges.now (kept_runs scratch.old kept) (canvas_of lent cells.old colours.old stamps.now) }
    ensures scratch_len_unchanged { length scratch.new ≡ length scratch.old }
{
    if kept == 0 {
        return;
    }
    let first = v.first;
    let last = first + v.rows;
    let mut base = first;
    // a block at a time, the last one cut short: a range of rows would name none of its ends
    while base < last {
        let end = ground::min(base + BLOCK, last);
        flush_block(
            cells, colours, stamps, lent, ranges, scratch, kept, v, base, end,
        );
        base = end;
    }
}
