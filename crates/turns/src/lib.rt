// One command of a page: the turn of the state that it asks, and what it adds to the page.
#![tactic(auto)]

ghost use Rattle.units.specs.Steps.{Workable};

use placements::Adds;
use state::moving::{Ruler, Stride};
use state::registers::Register;
use widths::blocks::Block;
use widths::table::Widths;

pub mod steps;

// What a page is placed by, beside the file: K and D, the width table, and the page's number
#[derive(Clone, Copy)]
pub struct Terms<'a> {
    pub ruler: Ruler,
    pub widths: Widths<'a>,
    pub page: u64,
    pub ghost workable: { Workable ruler.k },
}

// What a walk keeps for a font, so that no character pays for it: sixteen times its scale, less the bits that halving loses, and where the table's records of its own
// name and for any name stand
#[derive(Clone, Copy)]
pub struct Kept {
    pub sixteenfold: u64,
    pub own: Block,
    pub any: Block,
}

// What a command does to the page's state. No closure in its place: the definition `did` says what each turn means, and the walk carries it out where that copies no array.
#[derive(Clone, Copy)]
pub enum Turn {
    Stay,
    // sideways by a distance in a stride
    Sideways(Stride, i64),
    // down by a distance
    Down(i64),
    // by a distance that a register is set to
    ByRegister(Register, i64),
    // by the width of a character that is set, and its escapement in pixels
    PastCharacter(i64, i64),
    Push,
    Pop,
    // the font of a number
    Select(i64),
    // eop
    End,
    // h or v would leave its range
    Leave,
}

// What a command asks, and a hint for the next character's search
#[derive(Clone, Copy)]
pub struct Asked {
    pub turn: Turn,
    pub adds: Adds,
    pub hint: usize,
}

// What the command at a place asks, and the place after it
#[derive(Clone, Copy)]
pub struct Step {
    pub asked: Asked,
    pub next: usize,
}
