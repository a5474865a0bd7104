// Placing one page: the walk over its commands, its fonts, and the output area.
#![tactic(auto)]

use state::Font;
use turns::Kept;

pub mod fonts;
pub mod placing;
pub mod walking;

// A font's number, the font, and what is kept for it
#[derive(Clone, Copy)]
pub struct Seen {
    pub number: i64,
    pub font: Font,
    pub kept: Kept,
}
