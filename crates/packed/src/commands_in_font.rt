// The commands of a PK file: how many bytes each has.
// No struct of file, place and opcode: extent_of and packets::packet_at are public and keep their parameters.
ghost use Rattle.std.specs.Prelude.{◌≡◌, ◌+◌, ◌≤◌, ◌<◌, length, drop};
ghost use Rattle.packed.specs.Commands.{form_of, fixed_bytes, counted_bytes};
ghost use Rattle.packed.specs.Steps.{extent_of};

use crate::Form;

// No enum of kinds: these are bytes of the file, ends of ranges, and one of them is subtracted.
// Flags are up to this. A special's opcode is so much above the number of its length's bytes.
const LAST_FLAG: u64 = 239;

pub const SPECIAL1: u64 = 240;

const SPECIAL4: u64 = 243;

const NUMBER: u64 = 244;

pub const POSTAMBLE: u64 = 245;

pub const NO_OP: u64 = 246;

pub const PREAMBLE: u64 = 247;

// The form that a flag names.
#[tactic(auto, unfolding(crate::specs::Commands::form_of))]
pub fn form_of(flag: u64) -> Form
    ensures { result ≡ form_of flag }
{
    let high = (flag % 4) as usize;
    match flag % 8 {
        0..=3 => Form {
            added: high * 256,
            length: 1,
            code: 1,
            width: 3,
            escapement: 1,
            fields: 8,
        },
        4..=6 => Form {
            added: high * 65536,
            length: 2,
            code: 1,
            width: 3,
            escapement: 2,
            fields: 13,
        },
        _ => Form {
            added: 0,
            length: 4,
            code: 4,
            width: 4,
            escapement: 4,
            fields: 28,
        },
    }
}

// The parameter bytes that a command always has. Tests in this order, here and below, and no match of ranges: with one, and one expression in is_misplaced, a no-op takes a quarter more instructions and a special half as many again.
#[tactic(auto, unfolding(crate::specs::Commands::fixed_bytes, crate::specs::Commands::form_of))]
pub fn fixed_bytes(opcode: u64) -> usize
    ensures { (result ≡ fixed_bytes opcode) × (result ≤ 18) }
{
    if opcode <= LAST_FLAG {
        let form = form_of(opcode);
        return form.length + form.code;
    }
    if opcode <= SPECIAL4 {
        return (opcode - LAST_FLAG) as usize;
    }
    match opcode {
        NUMBER => 4,
        PREAMBLE => 18,
        _ => 0,
    }
}

// The bytes that a length inside the command counts; its parameters start at a place.
#[tactic(auto, unfolding(crate::specs::Commands::counted_bytes, crate::specs::Commands::fixed_bytes, crate::specs::Commands::form_of))]
fn counted_bytes(pk: &[u8], from: usize, opcode: u64) -> usize
    requires { from + fixed_bytes opcode ≤ length pk.now }
    ensures { (result ≡ counted_bytes opcode (drop from pk.now)) × (result < 4294967296) }
{
    if opcode <= LAST_FLAG {
        let form = form_of(opcode);
        return form.added + numbers::unsigned_at(pk, from, form.length) as usize;
    }
    if opcode <= SPECIAL4 {
        return numbers::unsigned_at(pk, from, (opcode - LAST_FLAG) as usize) as usize;
    }
    if opcode == PREAMBLE {
        return usize::from(pk[from + 1]);
    }
    0
}

// Where the command ends whose parameters start at a place, if its bytes are all there.
pub fn extent_of(pk: &[u8], from: usize, opcode: u64) -> Option<usize>
    requires { from ≤ length pk.now }
    ensures { result ≡ extent_of pk.now from opcode }
{
    let room = pk.len() - from;
    let fixed = fixed_bytes(opcode);
    if room < fixed {
        return None;
    }
    let counted = counted_bytes(pk, from, opcode);
    if room - fixed < counted {
        return None;
    }
    Some(from + fixed + counted)
}
