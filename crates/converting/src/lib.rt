// Width tables of the old form, whose records have no name: into the new form, and back.
#![tactic(auto)]

pub mod converting;
pub mod old;
