// Questions that bring a width table to its other form. The table is read into the buffer that is lent.
use crate::{records, rooms};
use asking::files;
use asking::lines::word;
use converting::old;
use std::fs::Files;
use std::io::{Result, Write};
use widths::table;

// widen TABLE AREA-BYTES
pub fn widen<R: Files, W: Write>(
    rt: &R,
    out: &mut W,
    line: &[u8],
    widths: &mut [u8],
    area: &mut [u8],
) -> Result<()> {
    in_other_form(rt, out, line, widths, area, widened).unwrap_or_else(|| asking::no_input(out))
}

// narrow TABLE AREA-BYTES
pub fn narrow<R: Files, W: Write>(
    rt: &R,
    out: &mut W,
    line: &[u8],
    widths: &mut [u8],
    area: &mut [u8],
) -> Result<()> {
    in_other_form(rt, out, line, widths, area, narrowed).unwrap_or_else(|| asking::no_input(out))
}

// What is made of the table in the area is printed by the last parameter. None where the words are no such question.
fn in_other_form<R: Files, W: Write, F: Fn(&mut W, &[u8], &mut [u8]) -> Result<()>>(
    rt: &R,
    out: &mut W,
    line: &[u8],
    widths: &mut [u8],
    area: &mut [u8],
    converted: F,
) -> Option<Result<()>>
    requires { F.IsAlwaysCallable converted }
{
    let room = rooms::for_records(word(line, 2), area.len())?;
    let length = files::read_whole(rt, word(line, 1), widths)?;
    Some(converted(out, &widths[..length], &mut area[..room]))
}

fn widened<W: Write>(out: &mut W, old: &[u8], area: &mut [u8]) -> Result<()> {
    let made = reader::widen_table(old, area);
    records::print(out, area, made, table::RECORD_SIZE)
}

fn narrowed<W: Write>(out: &mut W, widths: &[u8], area: &mut [u8]) -> Result<()> {
    let made = reader::narrow_table(widths, area);
    records::print(out, area, made, old::RECORD_SIZE)
}
