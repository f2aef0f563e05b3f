// Answers on standard output.
use crate::buffer::{Item, checksum};
use paint::Outcome;
use painttext::Written;
use std::io;

// How many words or bytes are written at a time.
const PART_ITEMS: usize = 1024;

// So many words or bytes, or fewer, with a space before each: the one after the last is left out.
fn part<T: Item>(rt: &impl Print, items: &[T]) -> io::Result<()> {
    let mut spelled = [0u8; hexrow::WORD_BYTES * PART_ITEMS];
    let size = T::spell(items, &mut spelled);
    let shown = ground::minus(size, 1);
    rt.write_all(b" ")?;
    rt.write_all(&spelled[..shown])
}

// A line with a buffer's name, and its words or bytes or their checksum.
pub fn buffer<T: Item>(rt: &impl Print, name: &str, lent: &[T], short: bool) -> io::Result<()> {
    rt.print(name)?;
    if short {
        part(rt, &[checksum(lent)])?;
    } else {
        for items in lent.chunks(PART_ITEMS) {
            part(rt, items)?;
        }
    }
    rt.write_all(b"\n")
}

pub fn outcome(rt: &impl Print, answer: Outcome) -> io::Result<()> {
    println!(rt; "{} {}", answer.code, answer.place)
}

pub fn written(rt: &impl Print, answer: Written) -> io::Result<()> {
    println!(rt; "{} {} {}", answer.code, answer.place, answer.bytes)
}
