// Chosen pages of a file, written as a file of their own.
#![tactic(auto)]

use commands::Kind;

pub mod choosing;
pub mod counting;
pub mod pages;
pub mod walking;
pub mod writing;

// Where a walk over the commands stands: how many pages have begun, how many of them are chosen, whether it is on a page,
// whether the last page that began is chosen, whether post has passed.
// No enum for the last three: bop, eop and post set them apart, and fate_of asks for them apart. No fact stands in this
// struct, nor in Counted and Made, since definitions of specs/Steps build them.
#[derive(Clone, Copy)]
pub struct Spot {
    pub pages: usize,
    pub met: usize,
    pub on: bool,
    pub here: bool,
    pub late: bool,
}

// Where a run over commands stands: its place, and the depth and the greatest depth there
#[derive(Clone, Copy)]
pub struct Run {
    pub at: usize,
    pub depth: usize,
    pub greatest: usize,
}

// What becomes of a command.
// No closures in its place: both walks ask it, and definitions of specs/Steps match on it.
#[derive(Clone, Copy)]
pub enum Fate {
    // it goes before all pages
    Opening,
    // it stays as it is
    Copied,
    // it stays with other numbers in it
    Mended,
    // it goes
    Dropped,
}

// A command that a walk comes to: from which place to which it stands, its kind, what becomes of it, and where the walk stands behind it
#[derive(Clone, Copy)]
pub struct Step {
    pub at: usize,
    pub next: usize,
    pub kind: Kind,
    pub fate: Fate,
    pub after: Spot,
}

// What the new list has of the commands so far: bytes of its opening, bytes of the others, its depth and its greatest depth
#[derive(Clone, Copy)]
pub struct Counted {
    pub opened: usize,
    pub kept: usize,
    pub depth: usize,
    pub greatest: usize,
}

// What post says of the new list: its greatest depth and its pages
#[derive(Clone, Copy)]
pub struct Totals {
    pub greatest: usize,
    pub pages: usize,
}

// What was written of the commands so far: where the bytes begin that are still to be copied, where the opening goes on,
// where the others go on; the pointer to the last bop, as four bytes hold it, and the place of post.
// No Options: the file gets both numbers as they are.
#[derive(Clone, Copy)]
pub struct Made {
    pub from: usize,
    pub opened: usize,
    pub size: usize,
    pub bop: usize,
    pub post: usize,
}
