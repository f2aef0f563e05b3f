// The runs of each row of a block threaded as a list, the last of them first.
ghost use Rattle.std.specs.Prelude.{◌≡◌, List, ℕ, ◌+◌, ◌*◌, ◌≤◌, ◌<◌, length, set};
ghost use Rattle.runs.specs.Kept.{run_size};
ghost use Rattle.flush.specs.Threads.{block_rows, Threaded};

fn set_link(scratch: &mut [u32], k: usize, link: u32)
    requires { run_size * k + run_size ≤ length scratch.old }
    ensures { scratch.new ≡ set scratch.old (run_size * k) link }
{
    let at = runs::RUN_SIZE * k;
    scratch[at] = link;
}

// The run at record k is threaded, where it lies on a row of the block from base on.
fn thread_run(scratch: &mut [u32], heads: &mut [u32], base: usize, k: usize)
    requires { (run_size * k + run_size ≤ length scratch.old) × (length heads.old ≡ block_rows) × (k < 65536) }
    ensures { (before : List ℕ) → Threaded before scratch.old heads.old base k → Threaded before scratch.new heads.new base (k + 1) }
{
    let row = runs::row_at(scratch, k);
    if base <= row {
        let i = row - base;
        if i < crate::BLOCK {
            let head = heads[i];
            set_link(scratch, k, head);
            heads[i] = (k + 1) as u32;
        }
    }
}

pub fn thread(scratch: &mut [u32], heads: &mut [u32], base: usize, n: usize)
    requires n_in_bounds { (run_size * n ≤ length scratch.old) × (length heads.old ≡ block_rows) × (n ≤ 65536) }
    requires threaded { Threaded scratch.old scratch.old heads.old base 0 }
    ensures { Threaded scratch.old scratch.new heads.new base n }
{
    for k in 0..n {
        thread_run(scratch, heads, base, k);
    }
}
