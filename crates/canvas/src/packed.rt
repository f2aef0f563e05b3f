// A stroke in a row, on packed words where the cell is empty or a stroke: most cells of a line are. It comes to the same as `row::stroke`.
ghost use Rattle.std.specs.Prelude.{◌≡◌, ◌≤◌, max};
ghost use Rattle.cell.specs.OneCell.{pack, read_arms};
ghost use Rattle.cell.specs.declared.Parts.TheVariants as parts;
ghost use Rattle.canvas.specs.Row.{stroke_row};
ghost use Rattle.canvas.specs.Packed.{arm_number, merged_word, FourArms};

use crate::row;
use cell::Arms;

// "the greater weight per arm", of two fields. A field that no weight has is no arm.
fn arm(old: u32, new: u32) -> u32
    requires { new ≤ 3 }
    ensures { (result ≡ max (arm_number old) new) × (result ≤ 3) }
{
    if old <= new {
        return new;
    }
    if old <= 3 { old } else { new }
}

fn merged(old: u32, word: u32) -> u32
    requires { FourArms word }
    ensures { result ≡ merged_word old word }
{
    let up = arm(old % 8, word % 8);
    let down = arm(old / 8 % 8, word / 8 % 8);
    let left = arm(old / 64 % 8, word / 64 % 8);
    let right = arm(old / 512 % 8, word / 512 % 8);
    0x8000_0000 + (up + 8 * down + 64 * left + 512 * right)
}

// A stroke, packed. It is made of its arms alone: `Cell::stroke` makes its parts first, and reads them back.
pub fn stroke_word(arms: Arms) -> u32
    ensures { (result ≡ pack (parts.Stroke arms)) × (read_arms result ≡ arms) }
{
    0x8000_0000 + arms.pack()
}

// The word is a stroke, packed: whoever paints a line packs it once. A single stroke comes here too, so this stays a function of its own.
pub fn stroke_any(row: &mut [u32], ranges: &[u32], x: usize, word: u32)
    requires { word ≡ pack (parts.Stroke (read_arms word)) }
    ensures { row.new ≡ stroke_row row.old ranges.now x (read_arms word) }
{
    if x < row.len() {
        let old = row[x];
        if old == 0 {
            row[x] = word;
        } else if old / 0x4000_0000 == 2 {
            row[x] = merged(old, word);
        } else {
            row::stroke(row, ranges, x, Arms::read(word));
        }
    }
}

// The same. A line mostly crosses empty cells: this is small enough to become a part of the loops that go along a line, and all other cells are left to
// `stroke_any`.
pub fn stroke(row: &mut [u32], ranges: &[u32], x: usize, word: u32)
    requires { word ≡ pack (parts.Stroke (read_arms word)) }
    ensures { row.new ≡ stroke_row row.old ranges.now x (read_arms word) }
{
    if x < row.len() {
        if row[x] == 0 {
            row[x] = word;
        } else {
            stroke_any(row, ranges, x, word);
        }
    }
}
