// Every public entry of the reader on a desk: a question a line on standard input, its answer on standard output.
// Where a write fails, the desk ends with that error.
#![tactic(auto)]

ghost use Rattle.io.specs.Counts.{IsPrefixLen};

mod lines;
mod questions;

use lines::Line;
use questions::Room;
use std::fs::Files;
use std::io::{Read, Result, Write, writer};

fn main(rt: HostRuntime) -> Result<()> {
    answer_all(&rt, &mut rt.stdin(), &mut writer(&rt), &mut Room::new())
}

// Standard input is read in blocks, and each answer is written before the next line is looked at. A read that fails counts as the input's end. A proved loop has to
// end, and nothing says that the input does: so the blocks are counted, up to a number that no run comes to.
fn answer_all<R: Files, I: Read, W: Write>(
    rt: &R,
    input: &mut I,
    out: &mut W,
    room: &mut Room,
) -> Result<()> {
    let mut block = [0u8; 65536];
    let mut line = Line::new();
    for _ in 0..u64::MAX {
        let count = read_block(input, &mut block);
        if count == 0 {
            return answer_rest(rt, out, &line, room);
        }
        for byte in &block[..count] {
            answer_byte(rt, out, *byte, &mut line, room)?;
        }
    }
    Ok(())
}

// How many bytes of the block one read brought.
fn read_block<I: Read>(input: &mut I, block: &mut [u8]) -> usize
    ensures { IsPrefixLen result block.new }
{
    input.read(block).unwrap_or(0)
}

// The input's last line may lack its end.
fn answer_rest<R: Files, W: Write>(
    rt: &R,
    out: &mut W,
    line: &Line,
    room: &mut Room,
) -> Result<()> {
    if line.is_empty() {
        return Ok(());
    }
    questions::answer(rt, out, line, room)
}

// A byte more of the line, which it may end: then the line is answered.
fn answer_byte<R: Files, W: Write>(
    rt: &R,
    out: &mut W,
    byte: u8,
    line: &mut Line,
    room: &mut Room,
) -> Result<()> {
    if byte != b'\n' {
        line.push(byte);
        return Ok(());
    }
    questions::answer(rt, out, line, room)?;
    line.clear();
    Ok(())
}
