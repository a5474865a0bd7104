// Widths: the width table, and looking up a character.
#![tactic(auto)]

use scaling::FixWord;

pub mod blocks;
pub mod halving;
pub mod table;

// What the table says of a character: its escapement in pixels and its width
#[derive(Clone, Copy)]
pub struct Metric {
    pub escapement: i64,
    pub width: FixWord,
}
