// Lines on standard output.
use layout::MAX_WIDTH;
use std::io;

pub fn unread(rt: &impl Print) -> io::Result<()> {
    println!(rt; "unread")
}

pub fn refused(rt: &impl Print, code: u32, place: usize) -> io::Result<()> {
    println!(rt; "refused {code} {place}")
}

pub fn sheet(rt: &impl Print, width: usize, height: usize, runs: usize) -> io::Result<()> {
    println!(rt; "sheet {width} {height} runs {runs}")
}

// "a line per row, each cell eight upper-case hex digits, single-spaced": the last space is left out.
pub fn row(rt: &impl Print, cells: &[u32]) -> io::Result<()> {
    let mut spelled = [0u8; hexrow::WORD_BYTES * MAX_WIDTH as usize];
    let size = hexrow::spell(cells, &mut spelled);
    let shown = ground::minus(size, 1);
    rt.write_all(&spelled[..shown])?;
    rt.write_all(b"\n")
}
