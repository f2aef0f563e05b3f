// Lines on standard output that are no drawing.
use std::io;

fn text(rt: &impl Print, bytes: &[u8]) -> io::Result<()> {
    rt.write_all(bytes)
}

pub fn unread(rt: &impl Print) -> io::Result<()> {
    text(rt, b"unread\n")
}

pub fn refused(rt: &impl Print, code: u32, place: usize) -> io::Result<()> {
    println!(rt; "refused {code} {place}")
}

// How to call the program.
pub fn usage(rt: &impl Print) -> io::Result<()> {
    text(rt, b"usage: sheetshow [--colour] < IMAGE\n")
}

// On standard error: the drawing before it is not whole. Where standard error takes nothing either, nobody can be told.
pub fn not_written(rt: &impl Eprint) {
    let _ = rt.eprintln("sheetshow: the drawing cannot be written to its end");
}
