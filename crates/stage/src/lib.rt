// What every stage of painting shares: whether a thing is marked, and which is the next that may be.
#![tactic(auto)]

ghost use Rattle.std.specs.Prelude.{◌≡◌, true, not, ℕ, ◌+◌, ◌≤◌, ◌<◌, eqb, length, get_or};
ghost use Rattle.elements.specs.Slots.{slot_of};
ghost use Rattle.stage.specs.Staged.{Unmarked};

// Whether thing k of the kind of this number is marked.
pub fn is_marked(marks: &[u8], kind: u32, k: usize) -> bool
    requires { k < 4294967296 }
    ensures { result ≡ not (eqb (get_or marks.now (slot_of kind k) 0) 0) }
{
    let slot = elements::slot_of(kind, k);
    if slot < marks.len() {
        marks[slot] != 0
    } else {
        false
    }
}

// How many marks are looked at together.
const GROUP: usize = 16;

// A mark as a number that can be added.
fn wide(mark: u8) -> u32
    ensures { (result ≡ mark) × (result ≤ 255) }
{
    mark as u32
}

// Four marks, added up.
fn four_marks(marks: &[u8], slot: usize) -> u32
    requires { slot + 4 ≤ length marks.now }
    ensures value { result ≡ get_or marks.now slot 0 + get_or marks.now (slot + 1) 0 + get_or marks.now (slot + 2) 0 + get_or marks.now (slot + 3) 0 }
    ensures upper_bound { result ≤ 1020 }
{
    let a = wide(marks[slot]);
    let b = wide(marks[slot + 1]);
    let c = wide(marks[slot + 2]);
    let d = wide(marks[slot + 3]);
    a + b + c + d
}

// Whether all marks of a group are 0: one sum and no branch for each, which the compiler makes of a few wide words.
fn is_free(marks: &[u8], slot: usize) -> bool
    requires { slot + 16 ≤ length marks.now }
    ensures { result ≡ true → (i : ℕ) → slot ≤ i → i < slot + 16 → get_or marks.now i 0 ≡ 0 }
{
    let first = four_marks(marks, slot) + four_marks(marks, slot + 4);
    let last = four_marks(marks, slot + 8) + four_marks(marks, slot + 12);
    first + last == 0
}

// How many things from k on can be passed over, where k is not marked: a group, or k alone.
fn passed_at(marks: &[u8], kind: u32, k: usize) -> usize
    requires { (k < 4294967296) × (get_or marks.now (slot_of kind k) 0 ≡ 0) }
    ensures { (result ≤ 16) × (k < k + result) × Unmarked marks.now kind k (k + result) }
{
    let slot = elements::slot_of(kind, k);
    if slot + GROUP <= marks.len() {
        if is_free(marks, slot) {
            return GROUP;
        }
    }
    1
}

// The first thing from one on that is marked, or how many there are. Most things of a sheet lie off a low band.
pub fn next_marked(marks: &[u8], kind: u32, from: usize, count: usize) -> usize
    requires { (from ≤ count) × (count ≤ 4294967295) }
    ensures { (from ≤ result) × (result ≤ count) × Unmarked marks.now kind from result }
{
    let mut k = from;
    // groups are passed over whole, so that no range steps as this does
    while k < count {
        if is_marked(marks, kind, k) {
            return k;
        }
        k += passed_at(marks, kind, k);
    }
    count
}
