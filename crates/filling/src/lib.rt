// Questions whose answer fills an area: a placed page, a width table, a table in its other form, a file of chosen pages. Each
// function that writes fails where a write of it fails, and nowhere else.
#![tactic(auto)]

pub mod cuts_asked;
pub mod fonts_asked;
pub mod forms_asked;
pub mod pages_asked;
mod records;
mod rooms;
