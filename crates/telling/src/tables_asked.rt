// Questions about a width table, which is read into the buffer that is lent.
use asking::lines::word;
use asking::{files, spelled, words};
use printing::line::Line;
use std::fs::Files;

// table TABLE
pub fn table<R: Files>(rt: &R, line: &[u8], widths: &mut [u8]) -> Line {
    asking::or_no_input(try_table(rt, line, widths))
}

fn try_table<R: Files>(rt: &R, line: &[u8], widths: &mut [u8]) -> Option<Line> {
    let length = files::read_whole(rt, word(line, 1), widths)?;
    Some(match reader::check_table(&widths[..length]) {
        Ok(records) => Line::of(b"right").number(records).text(b"\n"),
        Err(refusal) => asking::refused(refusal),
    })
}

// look TABLE CHECKSUM SCALE NAME CODE, of a name of 255 bytes at most
pub fn look<R: Files>(rt: &R, line: &[u8], widths: &mut [u8]) -> Line {
    asking::or_no_input(try_look(rt, line, widths))
}

fn try_look<R: Files>(rt: &R, line: &[u8], widths: &mut [u8]) -> Option<Line> {
    let mut name = [0u8; 255];
    let count = spelled::read_bytes(word(line, 4), &mut name)?;
    let checksum = words::read_unsigned32(word(line, 2))?;
    let scale = words::read_unsigned32(word(line, 3))?;
    let code = words::read_signed32(word(line, 5))?;
    let length = files::read_whole(rt, word(line, 1), widths)?;
    Some(looked(&widths[..length], checksum, scale, &name[..count], code))
}

fn looked(widths: &[u8], checksum: u32, scale: u32, name: &[u8], code: i32) -> Line {
    match reader::look_up(widths, checksum, scale, name, code) {
        Ok(Some(metric)) => {
            let width = metric.width;
            Line::of(b"found")
                .number(metric.escapement)
                .number(width.b0)
                .number(width.b1)
                .number(width.b2)
                .number(width.b3)
                .text(b"\n")
        }
        Ok(None) => Line::of(b"absent\n"),
        Err(refusal) => asking::refused(refusal),
    }
}
