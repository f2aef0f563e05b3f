// The check and the painting of an accepted image apart, with numbers and slices alone, for C and Rust to time: `timed_c` exports each of them.
#![tactic(auto)]

ghost use Rattle.std.specs.Prelude.{◌≡◌, ◌++◌, ◌+◌, ◌≤◌, length, drop, replicate};
ghost use Rattle.refusals.specs.Accepted.{Keeps};
ghost use Rattle.refusals.specs.Rules.{checked};
ghost use Rattle.picture.specs.Picture.{height, picture_cells, picture_colours};
ghost use Rattle.picture.specs.Painted.{room, scratch_room};

use paint::accepted;

// The code of an image.
pub fn timed_check(image: &[u32]) -> u32
    ensures { result ≡ (checked image.now).code }
{
    let found = refusals::check(image);
    found.code
}

// A plain band.
pub fn timed_paint(image: &[u32], first: usize, rows: usize, cells: &mut [u32], scratch: &mut [u32])
    requires { Keeps image.now × (first + rows ≤ height image.now) × (room image.now rows ≤ length cells.old) × (scratch_room image.now ≤ length scratch.old) }
    ensures cells_after { cells.new ≡ picture_cells image.now first rows ++ drop (room image.now rows) cells.old }
    ensures scratch_after { scratch.new ≡ replicate (scratch_room image.now) 0 ++ drop (scratch_room image.now) scratch.old }
{
    accepted::paint_plain(image, first, rows, cells, scratch);
}

// A coloured band.
pub fn timed_paint_coloured(
    image: &[u32],
    first: usize,
    rows: usize,
    cells: &mut [u32],
    colours: &mut [u32],
    stamps: &mut [u32],
    scratch: &mut [u32],
)
    requires { Keeps image.now × (first + rows ≤ height image.now) × (room image.now rows ≤ length cells.old) × (room image.now rows ≤ length colours.old) × (room image.now rows ≤ length stamps.old) × (scratch_room image.now ≤ length scratch.old) }
    ensures cells_after { cells.new ≡ picture_cells image.now first rows ++ drop (room image.now rows) cells.old }
    ensures colours_after { colours.new ≡ picture_colours image.now first rows ++ drop (room image.now rows) colours.old }
    ensures stamps_after { stamps.new ≡ replicate (room image.now rows) 0 ++ drop (room image.now rows) stamps.old }
    ensures scratch_after { scratch.new ≡ replicate (scratch_room image.now) 0 ++ drop (scratch_room image.now) scratch.old }
{
    accepted::paint_planes(image, first, rows, cells, colours, stamps, scratch);
}
