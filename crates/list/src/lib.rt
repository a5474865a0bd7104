// The list of commands and its rules: what the commands so far amount to, and the fault of the next one.
#![tactic(auto)]

pub mod faults;
pub mod fonts;
pub mod progress;
pub mod rules;

ghost use Rattle.std.specs.Prelude.{◌≡◌, ◌≤◌, length};
ghost use Rattle.commands.specs.Kinds.{kind_of};
ghost use Rattle.commands.specs.Lengths.{fixed_length};

use commands::Kind;

// Where the list of commands stands
#[derive(Clone, Copy, PartialEq, Eq)]
pub enum Stage {
    AtStart,
    BeforePages,
    OnPage,
    BetweenPages,
    AfterPost,
    AfterEnd,
}

// What the commands so far amount to
#[derive(Clone, Copy)]
pub struct Volume {
    pub stage: Stage,
    pub at: usize,
    pub depth: usize,
    pub greatest: usize,
    pub pages: usize,
    // the place of the last bop, −1 before the first; and of the bop of the page that is wanted
    pub bop: i64,
    pub wanted: usize,
    pub post: usize,
    pub num: u64,
    pub den: u64,
    pub mag: u64,
    // how many fonts are defined before post, and again after it
    pub fonts: usize,
    pub again: usize,
    // a font was selected on this page
    pub selected: bool,
}

// The command that comes next, with as many parameters as the table of lengths gives its opcode, or more
#[derive(Clone, Copy)]
pub struct NextCommand<'a> {
    pub kind: Kind,
    pub opcode: u8,
    pub params: &'a [u8],
    ghost right: { (kind ≡ kind_of opcode) × (fixed_length opcode ≤ length params.now) },
}

// A part of the file, from its first byte to past its last: a Range that is Copy
#[derive(Clone, Copy)]
pub struct Part {
    pub start: usize,
    pub end: usize,
}
