// The short way: most commands of a page are plain, which with a font selected change nothing but the place; most of the others push, pop or select.
ghost use Rattle.std.specs.Prelude.{◌≡◌, ℕ, ◌≤◌, true, List, leb};
ghost use Rattle.std.specs.List.{position};
ghost use Rattle.commands.specs.Kinds.{kind_of};
ghost use Rattle.list.specs.declared.Stage.TheVariants.{OnPage};
ghost use Rattle.volume.specs.Steps.{is_plain, Passes, may_push_or_pop, may_pass, Onward};

use commands::{Kind, Lengths};
use list::{Stage, Volume, progress};
use state::Page;

const PUSH: u8 = 141;

const POP: u8 = 142;

// Whether an opcode is one that on a page, with a font selected, changes nothing but the place. No twin of the cutting's `is_short`: that one has the pushes,
// pops and short selections, which here `may_pass` judges by depth and fonts.
fn is_plain(opcode: u8) -> bool
    ensures { result ≡ is_plain (kind_of opcode) }
{
    matches!(opcode, 0..=138 | 143..=170)
}

// The index of the first byte above 127, which is no character of one byte: most of a page is runs of them.
fn first_long(bytes: &[u8]) -> Option<usize>
    ensures { result ≡ position (λ byte. leb 128 byte) bytes.now }
{
    bytes.iter().position(|byte| 128 <= *byte)
}

// The place after the characters of one byte that stand at a place.
fn pass_characters(file: &[u8], at: usize) -> usize
    ensures { Passes file.now at result }
{
    if file.len() <= at {
        return at;
    }
    match first_long(&file[at..]) {
        Some(characters) => at + characters,
        None => file.len(),
    }
}

// The place after the plain commands that stand at a place.
pub fn pass_plain(lengths: &Lengths, file: &[u8], at: usize) -> usize
    ensures { Passes file.now at result }
{
    let mut place = at;
    // No range: the place goes on by a command's length.
    loop {
        place = pass_characters(file, place);
        if file.len() <= place {
            return place;
        }
        let opcode = file[place];
        if !is_plain(opcode) {
            return place;
        }
        let length = lengths.fixed(opcode);
        if file.len() - place <= length {
            return place;
        }
        place += 1 + length;
    }
}

// Whether an opcode, at a depth, is a push or a pop that keeps the rules.
fn may_push_or_pop(opcode: u8, depth: usize) -> bool
    ensures { result ≡ may_push_or_pop opcode depth }
{
    match opcode {
        PUSH => depth < Page::DEPTH,
        POP => 0 < depth,
        _ => false,
    }
}

// Whether an opcode, at a depth, is a push, a pop or a short selection that keeps the rules.
fn may_pass(fonts: &[u32; 256], opcode: u8, depth: usize) -> bool
    ensures { result ≡ may_pass fonts.now opcode depth }
{
    match opcode {
        171..=234 => fonts[usize::from(opcode - 171)] != 0,
        _ => may_push_or_pop(opcode, depth),
    }
}

// The short way on a page with a font selected, as far as it goes.
fn pass_on(lengths: &Lengths, fonts: &[u32; 256], file: &[u8], v: Volume) -> Volume
    requires { (v.stage ≡ OnPage) × (v.selected ≡ true) }
    ensures onward { Onward file.now fonts.now v result }
    ensures at_le_at { v.at ≤ result.at }
{
    let mut place = v.at;
    let mut depth = v.depth;
    let mut greatest = v.greatest;
    // No range: the place goes on by a whole run of plain commands.
    loop {
        place = pass_plain(lengths, file, place);
        if file.len() <= place {
            break;
        }
        let opcode = file[place];
        if !may_pass(fonts, opcode, depth) {
            break;
        }
        depth = progress::next_depth(Kind::from(opcode), depth);
        greatest = greatest.max(depth);
        place += 1;
    }
    Volume {
        at: place,
        depth,
        greatest,
        ..v
    }
}

// The short way on a page before a font is selected: over pushes and pops alone, as far as it goes. No twin of `pass_on`: without a font a character breaks a
// rule, and a selection changes what may follow, so that it passes neither, and has no table of lengths or fonts.
fn pass_depths(file: &[u8], v: Volume) -> Volume
    requires { v.stage ≡ OnPage }
    ensures by_index { (fonts : List ℕ) → Onward file.now fonts v result }
    ensures at_le_at { v.at ≤ result.at }
{
    let mut depth = v.depth;
    let mut greatest = v.greatest;
    // The place that is reached is part of the answer: an iterator over the bytes would need a count beside it.
    for at in v.at..file.len() {
        let opcode = file[at];
        if !may_push_or_pop(opcode, depth) {
            return Volume {
                at,
                depth,
                greatest,
                ..v
            };
        }
        depth = progress::next_depth(Kind::from(opcode), depth);
        greatest = greatest.max(depth);
    }
    Volume {
        at: v.at.max(file.len()),
        depth,
        greatest,
        ..v
    }
}

// The short way, where it may be taken.
pub fn passed(lengths: &Lengths, fonts: &[u32; 256], file: &[u8], v: Volume) -> Volume
    ensures onward { Onward file.now fonts.now v result }
    ensures at_le_at { v.at ≤ result.at }
{
    if v.stage != Stage::OnPage {
        return v;
    }
    if v.selected {
        return pass_on(lengths, fonts, file, v);
    }
    pass_depths(file, v)
}
