// The question about a PK font, which is read into the buffer that is lent.
use crate::{records, rooms};
use asking::lines::word;
use asking::{files, words};
use std::fs::Files;
use std::io::{Result, Write};
use widths::table;

// widths PK SCALE AREA-BYTES
pub fn widths<R: Files, W: Write>(
    rt: &R,
    out: &mut W,
    line: &[u8],
    file: &mut [u8],
    area: &mut [u8],
) -> Result<()> {
    try_widths(rt, out, line, file, area).unwrap_or_else(|| asking::no_input(out))
}

fn try_widths<R: Files, W: Write>(
    rt: &R,
    out: &mut W,
    line: &[u8],
    file: &mut [u8],
    area: &mut [u8],
) -> Option<Result<()>> {
    let room = rooms::for_records(word(line, 3), area.len())?;
    let scale = words::read_unsigned32(word(line, 2))?;
    let length = files::read_whole(rt, word(line, 1), file)?;
    Some(made(out, &file[..length], scale, &mut area[..room]))
}

fn made<W: Write>(out: &mut W, pk: &[u8], scale: u32, area: &mut [u8]) -> Result<()> {
    let made = reader::width_table(pk, scale, area);
    records::print(out, area, made, table::RECORD_SIZE)
}
