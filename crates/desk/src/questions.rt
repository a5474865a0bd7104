// A line's question, by how many words it has and its first one.
use crate::lines::Line;
use asking::lines::{word, word_count};
use filling::{cuts_asked, fonts_asked, forms_asked, pages_asked};
use printing::line;
use std::fs::Files;
use std::io::{Result, Write};
use telling::{files_asked, numbers_asked, tables_asked};

// Where the questions' files are read, and what they fill
#[derive(Drop)]
pub struct Room {
    file: [u8; 262144],
    widths: [u8; 65536],
    area: [u8; 262144],
}

impl Room {
    pub fn new() -> Room {
        Room {
            file: [0; 262144],
            widths: [0; 65536],
            area: [0; 262144],
        }
    }
}

pub fn answer<R: Files, W: Write>(rt: &R, out: &mut W, line: &Line, room: &mut Room) -> Result<()> {
    let Some(line) = line.whole() else {
        return asking::no_input(out);
    };
    let count = word_count(line);
    match (count, word(line, 0)) {
        (3, b"spell") => files_asked::spell(rt, out, line, &mut room.file),
        (4, b"widths") => fonts_asked::widths(rt, out, line, &mut room.file, &mut room.area),
        (3, b"widen") => forms_asked::widen(rt, out, line, &mut room.widths, &mut room.area),
        (3, b"narrow") => forms_asked::narrow(rt, out, line, &mut room.widths, &mut room.area),
        (6, b"place") => pages_asked::place(
            rt,
            out,
            line,
            &mut room.file,
            &mut room.widths,
            &mut room.area,
        ),
        // as many pages as it likes behind its first three words
        (3.., b"cut") => {
            cuts_asked::cut(rt, out, line, count - 3, &mut room.file, &mut room.area)
        }
        _ => told(rt, line, count, room).print(out),
    }
}

// A question whose answer is a line
fn told<R: Files>(rt: &R, line: &[u8], count: usize, room: &mut Room) -> line::Line {
    match (count, word(line, 0)) {
        (2, b"check") => files_asked::check(rt, line, &mut room.file),
        (2, b"table") => tables_asked::table(rt, line, &mut room.widths),
        (3, b"read") => files_asked::read(rt, line, &mut room.file),
        (3, b"name") => files_asked::name(rt, line, &mut room.file),
        (6, b"round") => numbers_asked::round(line),
        (6, b"scale") => numbers_asked::scale(line),
        (6, b"look") => tables_asked::look(rt, line, &mut room.widths),
        _ => asking::no_input_line(),
    }
}
