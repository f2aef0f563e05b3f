// A window of rows by value, and rows of it, from a first to a last, or none.
#![tactic(auto)]

ghost use Rattle.std.specs.Prelude.{◌≡◌};
ghost use Rattle.rows.specs.Window.{join_rows, in_window};
ghost use Rattle.rows.specs.Computed.{window_rows, rows_within};

// Rows of the sheet, side by side: all of them, or a band.
#[derive(Clone, Copy)]
pub struct Window {
    // how many columns each row has
    pub width: usize,
    // the number of its first row
    pub first: usize,
    // how many rows it has
    pub rows: usize,
}

// Rows of a window, from a first to a last. Where there may be none they are an `Option`.
#[derive(Clone, Copy)]
pub struct Rows {
    // the first
    pub first: usize,
    // the last, not below the first
    pub last: usize,
}

impl Window {
    // The rows from a to b that the window has. No sum is made that the window or b does not bound, so that every number will do.
    pub fn clip(self, a: usize, b: usize) -> Option<Rows>
        ensures { result ≡ window_rows self a b }
    {
        let top = self.first;
        let rows = self.rows;
        let from = ground::max(a, top);
        if b < from {
            return None;
        }
        if rows <= from - top {
            return None;
        }
        if b - top < rows {
            return Some(Rows {
                first: from,
                last: b,
            });
        }
        Some(Rows {
            first: from,
            last: top + (rows - 1),
        })
    }

    // Whether a row is the window's.
    pub fn has(self, y: usize) -> bool
        ensures { result ≡ in_window self y }
    {
        self.first <= y && y - self.first < self.rows
    }
}

impl Rows {
    // Whether all of them lie from low to high.
    pub fn within(self, low: usize, high: usize) -> bool
        ensures { result ≡ rows_within low high (Some self) }
    {
        low <= self.first && self.last <= high
    }
}

// Whether all rows lie from low to high, as they do where there are none.
pub fn within(rows: Option<Rows>, low: usize, high: usize) -> bool
    ensures { result ≡ rows_within low high rows }
{
    match rows {
        None => true,
        Some(some) => some.within(low, high),
    }
}

// From the least row of both to the greatest.
pub fn join(one: Option<Rows>, other: Option<Rows>) -> Option<Rows>
    ensures { result ≡ join_rows one other }
{
    let Some(a) = one else {
        return other;
    };
    let Some(b) = other else {
        return one;
    };
    Some(Rows {
        first: ground::min(a.first, b.first),
        last: ground::max(a.last, b.last),
    })
}
