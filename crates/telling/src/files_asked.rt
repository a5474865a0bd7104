// Questions about a DVI file, which is read into the buffer that is lent.
use asking::lines::word;
use asking::{files, words};
use printing::line::Line;
use std::fs::Files;
use std::io::{Result, Write};

// read FILE AT
pub fn read<R: Files>(rt: &R, line: &[u8], file: &mut [u8]) -> Line {
    asking::or_no_input(try_read(rt, line, file))
}

fn try_read<R: Files>(rt: &R, line: &[u8], file: &mut [u8]) -> Option<Line> {
    let at = words::read_unsigned(word(line, 2), u64::MAX)?;
    let length = files::read_whole(rt, word(line, 1), file)?;
    Some(command(&file[..length], at as usize))
}

fn command(file: &[u8], at: usize) -> Line {
    match reader::read_command(file, at) {
        Ok(reading) => Line::of(b"command")
            .number(reading.opcode)
            .number(reading.start)
            .number(reading.next)
            .text(b"\n"),
        Err(refusal) => asking::refused(refusal),
    }
}

// check FILE
pub fn check<R: Files>(rt: &R, line: &[u8], file: &mut [u8]) -> Line {
    asking::or_no_input(try_check(rt, line, file))
}

fn try_check<R: Files>(rt: &R, line: &[u8], file: &mut [u8]) -> Option<Line> {
    let length = files::read_whole(rt, word(line, 1), file)?;
    Some(checked(&file[..length]))
}

fn checked(file: &[u8]) -> Line {
    match reader::check_file(file) {
        Ok(summary) => Line::of(b"accepted")
            .number(summary.pages)
            .number(summary.fonts)
            .number(summary.depth)
            .number(summary.post)
            .text(b"\n"),
        Err(refusal) => asking::refused(refusal),
    }
}

// name FILE FONT
pub fn name<R: Files>(rt: &R, line: &[u8], file: &mut [u8]) -> Line {
    asking::or_no_input(try_name(rt, line, file))
}

fn try_name<R: Files>(rt: &R, line: &[u8], file: &mut [u8]) -> Option<Line> {
    let font = words::read_signed32(word(line, 2))?;
    let length = files::read_whole(rt, word(line, 1), file)?;
    Some(named(&file[..length], font))
}

fn named(file: &[u8], font: i32) -> Line {
    match reader::font_name(file, font) {
        Ok(name) => Line::of(b"name")
            .number(name.start)
            .number(name.start + name.bytes.len())
            .text(b"\n"),
        Err(refusal) => asking::refused(refusal),
    }
}

// spell FILE FONT, whose answer can be longer than a line holds: it is printed as it is found, and fails where a write of it fails
pub fn spell<R: Files, W: Write>(rt: &R, out: &mut W, line: &[u8], file: &mut [u8]) -> Result<()> {
    try_spell(rt, out, line, file).unwrap_or_else(|| asking::no_input(out))
}

fn try_spell<R: Files, W: Write>(
    rt: &R,
    out: &mut W,
    line: &[u8],
    file: &mut [u8],
) -> Option<Result<()>> {
    let font = words::read_signed32(word(line, 2))?;
    let length = files::read_whole(rt, word(line, 1), file)?;
    Some(spelled(out, &file[..length], font))
}

fn spelled<W: Write>(out: &mut W, file: &[u8], font: i32) -> Result<()> {
    match reader::font_name(file, font) {
        Ok(name) => {
            printing::text(out, b"spelled ")?;
            if name.bytes.is_empty() {
                printing::text(out, b"-")?;
            }
            printing::hexadecimal(out, name.bytes)?;
            printing::text(out, b"\n")
        }
        Err(refusal) => asking::refused(refusal).print(out),
    }
}
