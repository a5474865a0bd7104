// Questions whose answer is a line: about a DVI file, about numbers, about a width table. What answers words that are no such question is `no input`.
#![tactic(auto)]

pub mod files_asked;
pub mod numbers_asked;
pub mod tables_asked;
