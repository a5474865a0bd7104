// One command: its kind, the length of its parameters, and the reading of what stands at a place.
#![tactic(auto)]

use refusals::{Reason, Refusal};

pub mod fields;
pub mod parameters;

ghost use Rattle.std.specs.Prelude.{◌≡◌, ◌+◌, ◌≤◌, ◌<◌, length, drop};
ghost use Rattle.commands.specs.Kinds.{kind_of};
ghost use Rattle.commands.specs.Lengths.{lengths, fixed_length, inner_length};
ghost use Rattle.commands.specs.Reading.{read_at};
ghost use Rattle.refusals.specs.Answer.{answered};

// A file longer than this is refused
pub const LONGEST_FILE: usize = 16777216;

// What a command is, by its range of opcodes
#[derive(Clone, Copy, PartialEq, Eq)]
pub enum Kind {
    SetCharacter,
    SetRule,
    PutCharacter,
    PutRule,
    Nop,
    Bop,
    Eop,
    Push,
    Pop,
    Right,
    W,
    X,
    Down,
    Y,
    Z,
    Select,
    Special,
    Define,
    Pre,
    Post,
    PostPost,
    Undefined,
}

// A command that stands in a file: its opcode, where its parameters start, and the place after them
#[derive(Clone, Copy)]
pub struct Reading {
    pub opcode: u8,
    pub start: usize,
    pub next: usize,
}

// The table of parameter lengths. Whoever reads many commands holds it: it would be laid out anew at each look at the constant.
#[derive(Drop)]
pub struct Lengths {
    table: [u8; 122],
    ghost right: { table ≡ lengths },
}

// The parameter bytes of opcodes 128 to 249, without what a length inside the command adds: one constant table, as document 01 has it.
const LENGTH_TABLE: [u8; 122] = [
    1, 2, 3, 4, 8, 1, 2, 3, 4, 8, 0, 44, 0, 0, 0, 1, 2, 3, 4, 0, 1, 2, 3, 4, 0, 1, 2, 3, 4, 1, 2,
    3, 4, 0, 1, 2, 3, 4, 0, 1, 2, 3, 4, 0, 0, 0, 0, 0, 0, 0, 0, 0, 0, 0, 0, 0, 0, 0, 0, 0, 0, 0, 0,
    0, 0, 0, 0, 0, 0, 0, 0, 0, 0, 0, 0, 0, 0, 0, 0, 0, 0, 0, 0, 0, 0, 0, 0, 0, 0, 0, 0, 0, 0, 0, 0,
    0, 0, 0, 0, 0, 0, 0, 0, 0, 0, 0, 0, 1, 2, 3, 4, 1, 2, 3, 4, 15, 16, 17, 18, 14, 28, 5,
];

impl From<u8> for Kind {
    ghost from_gives = { λ opcode kind. kind ≡ kind_of opcode };

    fn from(opcode: u8) -> Kind {
        match opcode {
            0..=131 => Kind::SetCharacter,
            132 => Kind::SetRule,
            133..=136 => Kind::PutCharacter,
            137 => Kind::PutRule,
            138 => Kind::Nop,
            139 => Kind::Bop,
            140 => Kind::Eop,
            141 => Kind::Push,
            142 => Kind::Pop,
            143..=146 => Kind::Right,
            147..=151 => Kind::W,
            152..=156 => Kind::X,
            157..=160 => Kind::Down,
            161..=165 => Kind::Y,
            166..=170 => Kind::Z,
            171..=238 => Kind::Select,
            239..=242 => Kind::Special,
            243..=246 => Kind::Define,
            247 => Kind::Pre,
            248 => Kind::Post,
            249 => Kind::PostPost,
            _ => Kind::Undefined,
        }
    }
}

// What a length inside the command adds, of the parameters that start at a place.
fn inner_length(file: &[u8], start: usize, opcode: u8) -> usize
    requires { (opcode < 250) × (start + fixed_length opcode ≤ length file.now) }
    ensures { result ≡ inner_length opcode (drop start file.now) }
{
    match opcode {
        239..=242 => {
            let count = usize::from(opcode - fields::BEFORE_SPECIAL);
            numbers::unsigned_at(file, start, count) as usize
        }
        243..=246 => {
            let said = start + usize::from(opcode - fields::BEFORE_DEFINITION);
            let area_length = usize::from(file[said + fields::DEFINITION_AREA_LENGTH.at]);
            let name_length = usize::from(file[said + fields::DEFINITION_NAME_LENGTH.at]);
            area_length + name_length
        }
        247 => usize::from(file[start + fields::PRE_COMMENT_LENGTH.at]),
        _ => 0,
    }
}

impl Lengths {
    pub fn new() -> Lengths {
        Lengths {
            table: LENGTH_TABLE,
        }
    }

    // The parameter bytes that the table gives.
    pub fn fixed(&self, opcode: u8) -> usize
        requires { opcode < 250 }
        ensures { result ≡ fixed_length opcode }
    {
        if opcode < 128 {
            return 0;
        }
        usize::from(self.table[usize::from(opcode - 128)])
    }

    // One command, read at a place.
    pub fn read(&self, file: &[u8], at: usize) -> Result<Reading, Refusal>
        ensures { answered result ≡ read_at file.now at }
    {
        let ends = Refusal {
            reason: Reason::FileEnds,
            place: at,
        };
        let Some(&opcode) = file.get(at) else {
            return Err(ends);
        };
        if 250 <= opcode {
            return Err(Refusal {
                reason: Reason::UndefinedOpcode,
                place: at,
            });
        }
        let start = at + 1;
        let left = file.len() - start;
        let fixed = self.fixed(opcode);
        if left < fixed {
            return Err(ends);
        }
        let inner = inner_length(file, start, opcode);
        if left - fixed < inner {
            return Err(ends);
        }
        let next = start + fixed + inner;
        Ok(Reading {
            opcode,
            start,
            next,
        })
    }
}

// One command, read at a place of a file.
pub fn read_at(file: &[u8], at: usize) -> Result<Reading, Refusal>
    ensures { answered result ≡ read_at file.now at }
{
    Lengths::new().read(file, at)
}
