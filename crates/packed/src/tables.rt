// The width table of a PK file, written into the output area.
ghost use Rattle.std.specs.Prelude.{◌≡◌, cond, ◌++◌, ◌+◌, ◌≤◌, ◌<◌, ltb, length, take, drop};
ghost use Rattle.refusals.specs.Answer.{answered};
ghost use Rattle.numbers.specs.Bytes.{unsigned_at};
ghost use Rattle.widths.specs.Table.{width_record_size};
ghost use Rattle.widths.specs.Entries.{entry_bytes};
ghost use Rattle.packed.specs.Table.{checksum_in, table_made, records_made, table_area};
ghost use Rattle.packed.specs.Steps.{entry_from, entry_at, Puttable, Writable, WrittenBy};

use crate::{Packet, judging, packets};
use refusals::{Reason, Refusal};
use widths::table;

// The bytes of a width record for any name: where the name stands, the zeros stay.
fn entry_bytes(checksum: u32, scale: u32, packet: Packet) -> [u8; table::RECORD_SIZE]
    ensures { result ≡ entry_bytes (entry_from checksum scale packet) }
{
    let escapement = numbers::to_twos(65536, i64::from(packet.escapement)) as u16;
    let mut bytes = [0; table::RECORD_SIZE];
    areas::paste(&mut bytes, 0, &checksum.to_be_bytes());
    areas::paste(&mut bytes, table::SCALE_AT, &scale.to_be_bytes());
    bytes[table::CODE_AT] = (packet.code % 256) as u8;
    areas::paste(&mut bytes, table::ESCAPEMENT_AT, &escapement.to_be_bytes());
    areas::paste(&mut bytes, table::WIDTH_AT, &packet.width.to_be_bytes());
    bytes
}

// The check sum of a font; its preamble starts the file and is all there.
#[tactic(auto, using(numbers::proofs::Bytes::unsigned_one))]
fn checksum_of(pk: &[u8]) -> u32
    requires { 19 + unsigned_at pk.now 2 1 ≤ length pk.now }
    ensures { result ≡ checksum_in (drop 1 pk.now) }
{
    let comment = usize::from(pk[2]);
    numbers::unsigned_at(pk, 7 + comment, 4) as u32
}

// The record of the packet at a place, put into the area: where it ends there. At place 0 there is no packet, and nothing is put.
fn put_record(
    pk: &[u8],
    at: usize,
    checksum: u32,
    scale: u32,
    out: &mut [u8],
    written: usize,
) -> usize
    requires { 0 < at → Puttable pk.now at written (length out.old) }
    ensures value { result ≡ cond (ltb 0 at) (written + width_record_size) written }
    ensures out_after { out.new ≡ cond (ltb 0 at) (take written out.old ++ entry_bytes (entry_at checksum scale pk.now at) ++ drop (written + width_record_size) out.old) out.old }
{
    if at == 0 {
        return written;
    }
    let packet = packets::packet_at(pk, at + 1, u64::from(pk[at]));
    areas::paste(out, written, &entry_bytes(checksum, scale, packet));
    written + table::RECORD_SIZE
}

// The records of the packets that are noted, in the order of their codes.
fn write_records(pk: &[u8], scale: u32, places: &[usize; 256], out: &mut [u8])
    requires { Writable pk.now scale places.now (length out.old) }
    ensures { WrittenBy pk.now scale out.old out.new }
{
    let checksum = checksum_of(pk);
    let mut written = 0;
    for at in places {
        written = put_record(pk, *at, checksum, scale, out, written);
    }
}

// The width table of a PK file at a scale, written into the output area: how many records, or refusal 22, 18 to 21, or 17. A refusal leaves every byte of the area.
pub fn width_table(pk: &[u8], scale: u64, out: &mut [u8]) -> Result<usize, Refusal>
    ensures result_value { answered result ≡ records_made (table_made pk.now scale (length out.old)) }
    ensures out_after { out.new ≡ table_area out.old (table_made pk.now scale (length out.old)) }
{
    if !numbers::lawful_size(scale) {
        return Err(Refusal {
            reason: Reason::WrongScale,
            place: 0,
        });
    }
    let note = judging::scan(pk)?;
    if out.len() / table::RECORD_SIZE < note.packets {
        return Err(Refusal {
            reason: Reason::AreaTooShort,
            place: 0,
        });
    }
    write_records(pk, scale as u32, &note.places, out);
    Ok(note.packets)
}
