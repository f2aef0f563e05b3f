// Answers a request in buffers of the lengths that it asks for: they are filled, the call is made, and every word and byte that was lent is shown.
ghost use Rattle.std.specs.Prelude.{◌≤◌, length};
ghost use Rattle.paintlines.specs.Request.{most_lent, most_output};

use crate::{Request, buffer, say};
use std::io;

// The buffers as they stand before a request.
fn fill_all(
    cells: &mut [u32],
    colours: &mut [u32],
    stamps: &mut [u32],
    scratch: &mut [u32],
    out: &mut [u8],
)
    requires cells_len_bound { (length cells.old ≤ most_lent) × (length colours.old ≤ most_lent) }
    requires stamps_len_bound { (length stamps.old ≤ most_lent) × (length scratch.old ≤ most_lent) × (length out.old ≤ most_output) }
{
    buffer::fill_pattern(buffer::CELLS, cells);
    buffer::fill_pattern(buffer::COLOURS, colours);
    buffer::fill_pattern(buffer::STAMPS, stamps);
    buffer::fill_pattern(buffer::SCRATCH, scratch);
    buffer::fill_output(out);
}

// Paints the band, and says code and place.
fn paint_band(
    rt: &impl Print,
    r: Request,
    image: &[u32],
    cells: &mut [u32],
    colours: &mut [u32],
    stamps: &mut [u32],
    scratch: &mut [u32],
) -> io::Result<()> {
    let first = r.first;
    let rows = r.rows;
    if r.coloured {
        say::outcome(
            rt,
            paint::paint_coloured(image, first, rows, cells, colours, stamps, scratch),
        )
    } else {
        say::outcome(rt, paint::paint(image, first, rows, cells, scratch))
    }
}

// Paints the band and writes it as text, and says code, place and the number of bytes.
fn write_band(
    rt: &impl Print,
    r: Request,
    image: &[u32],
    cells: &mut [u32],
    colours: &mut [u32],
    stamps: &mut [u32],
    scratch: &mut [u32],
    out: &mut [u8],
) -> io::Result<()> {
    let first = r.first;
    let rows = r.rows;
    if r.coloured {
        say::written(
            rt,
            painttext::paint_text_coloured(
                image, first, rows, cells, colours, stamps, scratch, out,
            ),
        )
    } else {
        say::written(
            rt,
            painttext::paint_text(image, first, rows, cells, scratch, out),
        )
    }
}

// Paints the whole sheet, and says code and place.
fn paint_sheet(
    rt: &impl Print,
    r: Request,
    image: &[u32],
    cells: &mut [u32],
    colours: &mut [u32],
    stamps: &mut [u32],
    scratch: &mut [u32],
) -> io::Result<()> {
    let band = r.rows;
    if r.coloured {
        say::outcome(
            rt,
            paintsheet::paint_sheet_coloured(image, band, cells, colours, stamps, scratch),
        )
    } else {
        say::outcome(rt, paintsheet::paint_sheet(image, band, cells, scratch))
    }
}

// A line for each buffer that is lent.
fn say_lent(
    rt: &impl Print,
    r: Request,
    cells: &[u32],
    colours: &[u32],
    stamps: &[u32],
    scratch: &[u32],
    out: &[u8],
) -> io::Result<()> {
    let short = r.short;
    say::buffer(rt, "cells", cells, short)?;
    if r.coloured {
        say::buffer(rt, "colours", colours, short)?;
        say::buffer(rt, "stamps", stamps, short)?;
    }
    say::buffer(rt, "scratch", scratch, short)?;
    if r.text {
        say::buffer(rt, "out", out, short)?;
    }
    Ok(())
}

// Makes the call that is asked for.
fn call(
    rt: &impl Print,
    r: Request,
    image: &[u32],
    cells: &mut [u32],
    colours: &mut [u32],
    stamps: &mut [u32],
    scratch: &mut [u32],
    out: &mut [u8],
) -> io::Result<()> {
    if r.text {
        return write_band(rt, r, image, cells, colours, stamps, scratch, out);
    }
    if r.sheet {
        return paint_sheet(rt, r, image, cells, colours, stamps, scratch);
    }
    paint_band(rt, r, image, cells, colours, stamps, scratch)
}

pub fn answer_in(
    rt: &impl Print,
    r: Request,
    image: &[u32],
    cells: &mut [u32],
    colours: &mut [u32],
    stamps: &mut [u32],
    scratch: &mut [u32],
    out: &mut [u8],
) -> io::Result<()>
    requires cells_len_bound { (length cells.old ≤ most_lent) × (length colours.old ≤ most_lent) }
    requires stamps_len_bound { (length stamps.old ≤ most_lent) × (length scratch.old ≤ most_lent) × (length out.old ≤ most_output) }
{
    fill_all(cells, colours, stamps, scratch, out);
    call(rt, r, image, cells, colours, stamps, scratch, out)?;
    say_lent(rt, r, cells, colours, stamps, scratch, out)
}
