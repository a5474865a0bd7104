// A volume: the list of commands of a whole file, judged from the front.
#![tactic(auto)]

pub mod naming;
pub mod plain;
pub mod scanning;

// What the check of an accepted file gives
#[derive(Clone, Copy)]
pub struct Summary {
    pub pages: usize,
    pub fonts: usize,
    pub depth: usize,
    pub post: usize,
}
