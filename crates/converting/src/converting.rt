// A table from the one form to the other: the records are judged, then written into the output area.
ghost use Rattle.std.specs.Prelude.{◌≡◌, ◌++◌, not, ◌+◌, ◌*◌, ◌≤◌, eqb, length, drop, IfOk};
ghost use Rattle.std.proofs.lemmas.List.Edits.{sets};
ghost use Rattle.refusals.specs.Answer.{answered};
ghost use Rattle.widths.specs.Table.{size_with, record_at};
ghost use Rattle.converting.specs.Converting.{in_form, unnamed_from, with_room, widen_table, narrow_table, converted_area, widened_area, narrowed_area};

use crate::old;
use names::{NAME_SIZE, Name};
use refusals::{Reason, Refusal};
use widths::table;
use widths::table::Widths;

// The bytes of a record before its name, check sum and scale, and those behind it: eight each.
const SIDE: usize = 8;

// One record in another form: the bytes before the name, zeros for the name, the bytes behind it.
fn put_record<const FROM: usize, const TO: usize>(
    table: &[u8],
    at: usize,
    out: &mut [u8],
    written: usize,
)
    requires { (at + size_with FROM ≤ length table.now) × (written + size_with TO ≤ length out.old) }
    ensures { out.new ≡ sets out.old written (in_form FROM TO 1 (drop at table.now)) }
{
    let zeros = [0u8; TO];
    areas::paste(&mut *out, written, &table[at..at + SIDE]);
    areas::paste(&mut *out, written + SIDE, &zeros);
    let behind = at + SIDE + FROM;
    areas::paste(
        &mut *out,
        written + SIDE + TO,
        &table[behind..behind + SIDE],
    );
}

// The first so many records of a table, whose names have FROM bytes, with TO zeros for a name. No `Widths` for table and count: that has the new form alone.
fn write_records<const FROM: usize, const TO: usize>(table: &[u8], records: usize, out: &mut [u8])
    requires { (records * size_with FROM ≤ length table.now) × (records * size_with TO ≤ length out.old) }
    ensures { out.new ≡ in_form FROM TO records table.now ++ drop (records * size_with TO) out.old }
{
    // An index has a place in each of the two areas: chunks of both, zipped, would be no plainer.
    for index in 0..records {
        let at = index * (FROM + old::RECORD_SIZE);
        let written = index * (TO + old::RECORD_SIZE);
        put_record::<FROM, TO>(table, at, &mut *out, written);
    }
}

// So many records in another form, where the area has room for them: how many, or refusal 17.
fn convert<const FROM: usize, const TO: usize>(
    table: &[u8],
    records: usize,
    out: &mut [u8],
) -> Result<usize, Refusal>
    requires { (TO ≤ 16) × (records * size_with FROM ≤ length table.now) }
    ensures result_value { answered result ≡ with_room (length out.old) (size_with TO) records }
    ensures out_after { out.new ≡ converted_area FROM TO table.now out.old (with_room (length out.old) (size_with TO) records) }
{
    if out.len() / (TO + old::RECORD_SIZE) < records {
        return Err(Refusal {
            reason: Reason::AreaTooShort,
            place: 0,
        });
    }
    write_records::<FROM, TO>(table, records, out);
    Ok(records)
}

// Whether the record at a place has a name: one that is not sixteen zeros.
fn is_named(table: &[u8], at: usize) -> bool
    requires { at + 32 ≤ length table.now }
    ensures { result ≡ not (eqb (record_at table.now at).name 0) }
{
    names::name_at(table, at + SIDE) != Name::ANY
}

// How many records a right table has, or refusal 24 at the first that has a name.
fn first_named(widths: Widths) -> Result<usize, Refusal>
    ensures result_value { answered result ≡ unnamed_from widths.entry.records widths.entry.bytes.now 0 }
    ensures all { IfOk result (λ records. records ≡ widths.entry.records) }
{
    // The record's place is what the refusal tells: an iterator over the records would need a count beside it.
    for index in 0..widths.records {
        let at = widths.place_of(index);
        if is_named(widths.bytes, at) {
            return Err(Refusal {
                reason: Reason::NamedRecord,
                place: at,
            });
        }
    }
    Ok(widths.records)
}

// An old table in the new form, every name sixteen zeros: how many records, or refusal 14, 17. A refusal leaves every byte of the area.
pub fn widen_table(old: &[u8], out: &mut [u8]) -> Result<usize, Refusal>
    ensures result_value { answered result ≡ widen_table old.now (length out.old) }
    ensures out_after { out.new ≡ widened_area old.now out.old (widen_table old.now (length out.old)) }
{
    let records = old::check_old(old)?;
    convert::<0, NAME_SIZE>(old, records, out)
}

// A table without names in the old form: how many records, or refusal 14, 24, 17. A refusal leaves every byte of the area.
pub fn narrow_table(table: &[u8], out: &mut [u8]) -> Result<usize, Refusal>
    ensures result_value { answered result ≡ narrow_table table.now (length out.old) }
    ensures out_after { out.new ≡ narrowed_area table.now out.old (narrow_table table.now (length out.old)) }
{
    let widths = Widths::judged(table)?;
    let records = first_named(widths)?;
    convert::<NAME_SIZE, 0>(table, records, out)
}
