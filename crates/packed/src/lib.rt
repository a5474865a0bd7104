// PK fonts: which files are lawful ones, where the packet of each character stands, and the width table that they make.
#![tactic(auto)]

pub mod commands_in_font;
pub mod judging;
pub mod packets;
pub mod tables;

// A form of packets: what the flag adds to the packet length, how many bytes have the length, the code, the width and the escapement, and how many bytes there
// are from the width to the last offset
#[derive(Clone, Copy)]
pub struct Form {
    pub added: usize,
    pub length: usize,
    pub code: usize,
    pub width: usize,
    pub escapement: usize,
    pub fields: usize,
}

// What a packet says of its character; the width is a fix word as one number
#[derive(Clone, Copy)]
pub struct Packet {
    pub code: u32,
    pub width: u32,
    pub escapement: i32,
}

// What is found of a command that earns no refusal: the place behind it, and a packet's code
#[derive(Clone, Copy)]
pub struct Found {
    pub next: usize,
    pub code: Option<u8>,
}

// For each code the place of its packet, and how many packets there are. A code without one has 0, not None: rule 11.10 has it so.
#[derive(Clone, Copy)]
pub struct Note {
    pub places: [usize; 256],
    pub packets: usize,
}
