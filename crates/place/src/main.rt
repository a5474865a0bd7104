// The program of document 01: place FILE TABLE R PAGE prints a page's records, a line each, and the counts. Where a write fails, it ends with that error.
#![tactic(auto)]

ghost use Rattle.std.specs.Prelude.{IfSome};
ghost use Rattle.io.specs.Counts.{IsPrefixLen};
ghost use Rattle.asking.specs.Decimal.{AtMost};

use asking::{files, words};
use std::env::FillError;
use std::io::{Result, Write, writer};
use std::rt::{Env, Files};

fn main(rt: HostRuntime) -> Result<()> {
    let out = &mut writer(&rt);
    asked(&rt, out).unwrap_or_else(|| asking::no_input(out))
}

// None where the arguments are no question
fn asked<R: Env + Files, W: Write>(rt: &R, out: &mut W) -> Option<Result<()>> {
    if !has_four_arguments(rt) {
        return None;
    }
    let resolution = number_argument(rt, 3)?;
    let page = number_argument(rt, 4)?;
    let mut file = [0u8; 65536];
    let file_length = file_argument(rt, 1, &mut file)?;
    let mut widths = [0u8; 65536];
    let widths_length = file_argument(rt, 2, &mut widths)?;
    // 3,000 records
    let mut area = [0u8; 60000];
    Some(asking::pages::place(
        out,
        &file[..file_length],
        &widths[..widths_length],
        resolution as u32,
        page as u32,
        &mut area,
    ))
}

// Argument 0 is the program's own name.
fn has_four_arguments<R: Env>(rt: &R) -> bool {
    has_argument(rt, 4) && !has_argument(rt, 5)
}

fn has_argument<R: Env>(rt: &R, index: usize) -> bool {
    !matches!(rt.arg(index, &mut []), Err(FillError::NotPresent))
}

// How many bytes an argument has, which are put at the buffer's start; none where it is missing, or longer than the buffer.
fn argument<R: Env>(rt: &R, index: usize, buffer: &mut [u8]) -> Option<usize>
    ensures { IfSome result (λ length. IsPrefixLen length buffer.new) }
{
    rt.arg(index, buffer).ok()
}

// A decimal number of one to nine digits
fn number_argument<R: Env>(rt: &R, index: usize) -> Option<u64>
    ensures { AtMost 999999999 result }
{
    let mut word = [0u8; 9];
    let length = argument(rt, index, &mut word)?;
    words::read_unsigned(&word[..length], 999999999)
}

// How many bytes the file has that an argument names, whose name is no longer than the array; an empty name no file has.
fn file_argument<R: Env + Files>(rt: &R, index: usize, buffer: &mut [u8]) -> Option<usize>
    ensures { IfSome result (λ length. IsPrefixLen length buffer.new) }
{
    let mut path = [0u8; 4096];
    let length = argument(rt, index, &mut path)?;
    files::read_whole(rt, &path[..length], buffer)
}
