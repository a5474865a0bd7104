// The question that places a page.
use crate::rooms;
use asking::lines::word;
use asking::{files, pages, words};
use std::fs::Files;
use std::io::{Result, Write};

// place FILE TABLE R PAGE AREA-BYTES
pub fn place<R: Files, W: Write>(
    rt: &R,
    out: &mut W,
    line: &[u8],
    file: &mut [u8],
    widths: &mut [u8],
    area: &mut [u8],
) -> Result<()> {
    try_place(rt, out, line, file, widths, area).unwrap_or_else(|| asking::no_input(out))
}

fn try_place<R: Files, W: Write>(
    rt: &R,
    out: &mut W,
    line: &[u8],
    file: &mut [u8],
    widths: &mut [u8],
    area: &mut [u8],
) -> Option<Result<()>> {
    let room = rooms::for_records(word(line, 5), area.len())?;
    let resolution = words::read_unsigned32(word(line, 3))?;
    let page = words::read_unsigned32(word(line, 4))?;
    let file_length = files::read_whole(rt, word(line, 1), file)?;
    let widths_length = files::read_whole(rt, word(line, 2), widths)?;
    Some(pages::place(
        out,
        &file[..file_length],
        &widths[..widths_length],
        resolution,
        page,
        &mut area[..room],
    ))
}
