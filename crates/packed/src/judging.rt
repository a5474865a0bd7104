// A PK file judged from its front on, in one pass that notes where each packet stands.
ghost use Rattle.std.specs.Prelude.{◌≡◌, ◌+◌, ◌≤◌, ◌<◌, ◌^◌, length, drop, get_or};
ghost use Rattle.refusals.specs.Answer.{answered};
ghost use Rattle.packed.specs.Commands.{param_bytes};
ghost use Rattle.packed.specs.Rules.{lawful_escapement};
ghost use Rattle.packed.specs.Judged.{noted};
ghost use Rattle.packed.specs.Steps.{misplaced_at, wrong_fields, packet_found, found_at, note_with};

use crate::{Found, Note, Packet, commands_in_font, packets};
use commands_in_font::{NO_OP, POSTAMBLE, PREAMBLE};
use refusals::{Reason, Refusal};

// The identification of a PK file.
const IDENTIFICATION: u8 = 89;

// How many codes there are.
pub const CODES: usize = 256;

// 19: whether a command may not stand at its place. Returns, not one expression: that the compiler works out whole for each command, and a no-op takes a sixth more instructions.
#[tactic(auto, using(crate::proofs::Fields::first_byte))]
fn is_misplaced(pk: &[u8], at: usize, opcode: u64, ended: bool) -> bool
    requires { (at < length pk.now) × (opcode ≡ 247 → at + 1 < length pk.now) }
    ensures { result ≡ misplaced_at at ended opcode (drop (at + 1) pk.now) }
{
    if at == 0 {
        return opcode != PREAMBLE || pk[at + 1] != IDENTIFICATION;
    }
    if !ended {
        return PREAMBLE <= opcode;
    }
    opcode != NO_OP
}

// Whether two bytes with a sign hold an escapement.
fn lawful_escapement(escapement: i32) -> bool
    ensures { result ≡ lawful_escapement escapement }
{
    (-32768..=32767).contains(&escapement)
}

// 21: whether a packet's fields break the rules; the places of the packets before are noted.
fn is_wrong(packet: Packet, places: &[usize; 256]) -> bool
    ensures { result ≡ wrong_fields places.now packet }
{
    255 < packet.code
        || 0 < places[packet.code as usize]
        || !scaling::lawful_first((packet.width / 16777216) as u8)
        || !lawful_escapement(packet.escapement)
}

// A packet's lowest refusal, 20 or 21, or its code.
#[tactic(auto, unfolding(crate::specs::Commands::form_of, crate::specs::Commands::fixed_bytes))]
fn packet_found(
    pk: &[u8],
    at: usize,
    flag: u64,
    next: usize,
    places: &[usize; 256],
) -> Result<Found, Refusal>
    requires { (flag < 240) × (next ≡ at + 1 + param_bytes flag (drop (at + 1) pk.now)) × (next ≤ length pk.now) }
    ensures { answered result ≡ packet_found at places.now flag (drop (at + 1) pk.now) next }
{
    let from = at + 1;
    let form = commands_in_font::form_of(flag);
    let width_from = from + form.length + form.code;
    if next - width_from < form.fields {
        return Err(Refusal {
            reason: Reason::PacketTooShort,
            place: at,
        });
    }
    let packet = packets::packet_at(pk, from, flag);
    if is_wrong(packet, places) {
        return Err(Refusal {
            reason: Reason::WrongPacket,
            place: at,
        });
    }
    Ok(Found {
        next,
        code: Some(packet.code as u8),
    })
}

// The command at a place: its lowest refusal, 18 to 21, or the place behind it and a packet's code.
#[tactic(auto, unfolding(crate::specs::Commands::form_of, crate::specs::Commands::fixed_bytes))]
fn command_found(pk: &[u8], at: usize, ended: bool, places: &[usize; 256]) -> Result<Found, Refusal>
    requires { at < length pk.now }
    ensures { answered result ≡ found_at at ended places.now (get_or pk.now at 0) (drop (at + 1) pk.now) }
{
    let opcode = u64::from(pk[at]);
    let cut = Refusal {
        reason: Reason::FontEnds,
        place: at,
    };
    let next = commands_in_font::extent_of(pk, at + 1, opcode).ok_or(cut)?;
    if is_misplaced(pk, at, opcode, ended) {
        return Err(Refusal {
            reason: Reason::MisplacedInFont,
            place: at,
        });
    }
    if opcode < commands_in_font::SPECIAL1 {
        return packet_found(pk, at, opcode, next, places);
    }
    Ok(Found { next, code: None })
}

impl Note {
    // A packet's place under its code, and one packet more. Of another command, which has no code, nothing is noted.
    fn put(&mut self, code: Option<u8>, at: usize)
        requires { self.old.packets < 2 ^ 63 }
        ensures { self.new ≡ note_with code at self.old }
    {
        if let Some(code) = code {
            self.places[usize::from(code)] = at;
            self.packets += 1;
        }
    }
}

// The note of a file, or refusal 18 to 21.
pub fn scan(pk: &[u8]) -> Result<Note, Refusal>
    ensures { answered result ≡ noted pk.now }
{
    let mut note = Note {
        places: [0; CODES],
        packets: 0,
    };
    let mut at = 0;
    let mut ended = false;
    // No range: the place goes on by a command's length.
    while at < pk.len() {
        let found = command_found(pk, at, ended, &note.places)?;
        note.put(found.code, at);
        ended = ended || u64::from(pk[at]) == POSTAMBLE;
        at = found.next;
    }
    if ended {
        Ok(note)
    } else {
        Err(Refusal {
            reason: Reason::FontEnds,
            place: at,
        })
    }
}
