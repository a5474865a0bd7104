// The question that names chosen pages, a thousand at most. The file of them can be long: it is printed in rows of 32 bytes.
use crate::rooms;
use asking::lines::word;
use asking::{files, words};
use printing::line::Line;
use printing::rows;
use std::fs::Files;
use std::io::{Result, Write};

// cut FILE AREA-BYTES PAGE…, of so many pages
pub fn cut<R: Files, W: Write>(
    rt: &R,
    out: &mut W,
    line: &[u8],
    pages: usize,
    file: &mut [u8],
    area: &mut [u8],
) -> Result<()> {
    try_cut(rt, out, line, pages, file, area).unwrap_or_else(|| asking::no_input(out))
}

fn try_cut<R: Files, W: Write>(
    rt: &R,
    out: &mut W,
    line: &[u8],
    pages: usize,
    file: &mut [u8],
    area: &mut [u8],
) -> Option<Result<()>> {
    // No heap: fixed memory, of which the line's pages take the start.
    let mut list = [0u32; 1000];
    let list = list.get_mut(..pages)?;
    read_pages(line, list)?;
    let room = rooms::within(word(line, 2), area.len())?;
    let length = files::read_whole(rt, word(line, 1), file)?;
    Some(made(out, &file[..length], list, &mut area[..room]))
}

// The words from the fourth on, as numbers of pages; none where one is no such number, or missing.
fn read_pages(line: &[u8], list: &mut [u32]) -> Option<()> {
    let mut words = line.split(|byte| *byte == b' ').skip(3);
    for page in list.iter_mut() {
        *page = words::read_unsigned32(words.next()?)?;
    }
    Some(())
}

fn made<W: Write>(out: &mut W, file: &[u8], list: &[u32], area: &mut [u8]) -> Result<()> {
    match reader::cut_pages(file, list, area) {
        Ok(bytes) => {
            rows::print(out, &area[..bytes], 32)?;
            Line::of(b"end").number(bytes).text(b"\n").print(out)
        }
        Err(refusal) => asking::refused(refusal).print(out),
    }
}
