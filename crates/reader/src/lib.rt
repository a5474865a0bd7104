// The front door: every public entry, and nothing else. None has a `requires`: what an input breaks is refused, by number and place.
#![tactic(auto)]

ghost use Rattle.std.specs.Prelude.{◌≡◌, ◌↔◌, ◌+◌, ◌≤◌, length, IsOk, IfOk, OnErr};
ghost use Rattle.refusals.specs.Answer.{answered};
ghost use Rattle.commands.specs.Reading.{command_read};
ghost use Rattle.list.specs.Lawful.{Lawful};
ghost use Rattle.volume.specs.Judged.{judged};
ghost use Rattle.volume.specs.Names.{name_place, name_of, name_start, bytes_after};
ghost use Rattle.units.specs.Rounding.{rounded_distance};
ghost use Rattle.scaling.specs.Scaling.{fix_word, scaled_width};
ghost use Rattle.widths.specs.Table.{checked_table};
ghost use Rattle.widths.specs.LookUp.{looked_up};
ghost use Rattle.converting.specs.Converting.{widen_table, narrow_table, widened_area, narrowed_area};
ghost use Rattle.packed.specs.Table.{table_made, records_made, table_area};
ghost use Rattle.cutting.specs.CutFile.{cut_pages, bytes_cut, cut_area};
ghost use Rattle.page.specs.Answers.{placed_page, placed_counts, area_after};
ghost use Rattle.reader.specs.Answers.{name_answer, looked_answer};

pub use commands::Reading;
pub use placements::Counts;
pub use refusals::{Reason, Refusal};
use scaling::FixWord;
pub use volume::Summary;
pub use widths::Metric;
use widths::table::Widths;

// The command that stands at a place: its opcode, where its parameters start and the place after them, or refusal 1, 2 or 3.
pub fn read_command(file: &[u8], at: usize) -> Result<Reading, Refusal>
    ensures { answered result ≡ command_read file.now at }
{
    if commands::LONGEST_FILE < file.len() {
        return Err(Refusal {
            reason: Reason::FileTooLong,
            place: 0,
        });
    }
    commands::read_at(file, at)
}

// The check of a whole file: pages, fonts, greatest depth and the place of post, or refusal 1 to 11. It is accepted exactly if it is the written form of a list
// of commands that keeps the rules.
#[tactic(auto, using(crate::proofs::Accepted::accepted_lawful))]
pub fn check_file(file: &[u8]) -> Result<Summary, Refusal>
    ensures result_value { answered result ≡ judged file.now }
    ensures variant { IsOk result ↔ Lawful file.now }
{
    volume::scanning::check_file(file)
}

// A font's name, area first: the part of the file that holds it, and where in the file it starts
#[derive(Clone, Copy)]
pub struct FontName<'a> {
    pub bytes: &'a [u8],
    pub start: usize,
}

// The name of a font, or refusal 1 to 11, then 8.
pub fn font_name<'a>(file: &'a [u8], font: i32) -> Result<FontName<'a>, Refusal>
    ensures result_value { name_answer result ≡ name_place file.now font }
    ensures bytes_value { IfOk result (λ name. name.bytes.now ≡ name_of file.now font) }
    ensures ref_ptr_value { IfOk result (λ name. name.bytes.ref_ptr ≡ bytes_after (name_start file.now font) file.entry.ref_ptr) }
    ensures in_bounds { IfOk result (λ name. name.start + length name.bytes.now ≤ length file.now) }
{
    let part = volume::naming::name_place(file, i64::from(font))?;
    let start = part.start;
    Ok(FontName {
        bytes: &file[start..part.end],
        start,
    })
}

// The distance n in pixels at a file's units and a resolution in dots per inch, rounded; or refusal 4, 12 or 13.
pub fn round_distance(num: i32, den: i32, mag: i32, resolution: u32, n: i32) -> Result<i64, Refusal>
    ensures { answered result ≡ rounded_distance num den mag resolution n }
{
    if num <= 0 || den <= 0 || mag <= 0 {
        return Err(Refusal {
            reason: Reason::WrongPreamble,
            place: 0,
        });
    }
    let k = units::unit_of(num as u64, den as u64, mag as u64, u64::from(resolution))?;
    Ok(units::round(k, i64::from(n)))
}

// The width of a fix word, bytes b0 to b3, at a font's scale; or refusal 14. The bytes stay four parameters, as the C interface has them.
pub fn scale_width(scale: u32, b0: u8, b1: u8, b2: u8, b3: u8) -> Result<i64, Refusal>
    ensures { answered result ≡ scaled_width scale (fix_word b0 b1 b2 b3) }
{
    let scale = u64::from(scale);
    if !numbers::lawful_size(scale) || !scaling::lawful_first(b0) {
        return Err(Refusal {
            reason: Reason::WrongWidthTable,
            place: 0,
        });
    }
    Ok(scaling::scale_width(scale, FixWord { b0, b1, b2, b3 }))
}

// The check of a width table: how many records a right one has, or refusal 14 at the first wrong record.
pub fn check_table(table: &[u8]) -> Result<usize, Refusal>
    ensures { answered result ≡ checked_table table.now }
{
    widths::table::check_table(table)
}

// What a width table says of a character, escapement and fix word, or that the table has none: by check sum, scale, the font's name without its area, and code mod
// 256; or refusal 14. The table is judged first. A record of the font's own name is preferred to one of any name, which has sixteen zeros.
pub fn look_up(
    table: &[u8],
    checksum: u32,
    scale: u32,
    name: &[u8],
    code: i32,
) -> Result<Option<Metric>, Refusal>
    ensures { looked_answer result ≡ looked_up table.now checksum scale name.now code }
{
    let widths = Widths::judged(table)?;
    let byte = numbers::to_twos(256, i64::from(code));
    let sought = names::sought_name(name);
    match widths.seek(u64::from(checksum), u64::from(scale), sought, byte) {
        None => Ok(None),
        Some(index) => Ok(Some(widths.metric_of(index))),
    }
}

// The width table of a PK font at a scale: a record for each packet, in the order of codes, is written into the output area, 32 bytes each, with sixteen zeros for
// the name. How many records were written, or refusal 14, 17 to 22. A refusal leaves every byte of the area.
pub fn width_table(pk: &[u8], scale: u32, out: &mut [u8]) -> Result<usize, Refusal>
    ensures result_value { answered result ≡ records_made (table_made pk.now scale (length out.old)) }
    ensures out_after { out.new ≡ table_area out.old (table_made pk.now scale (length out.old)) }
    ensures out_unchanged { OnErr result (out.new ≡ out.old) }
{
    packed::tables::width_table(pk, u64::from(scale), out)
}

// A width table of the old form, 16 bytes a record, in the new form, 32 bytes each with sixteen zeros for the name: it is written into the output area. How many
// records were written, or refusal 14 or 17. A refusal leaves every byte of the area.
pub fn widen_table(old: &[u8], out: &mut [u8]) -> Result<usize, Refusal>
    ensures result_value { answered result ≡ widen_table old.now (length out.old) }
    ensures out_after { out.new ≡ widened_area old.now out.old (widen_table old.now (length out.old)) }
    ensures out_unchanged { OnErr result (out.new ≡ out.old) }
{
    converting::converting::widen_table(old, out)
}

// A width table none of whose records has a name, in the old form: it is written into the output area, 16 bytes a record. How many records were written, or
// refusal 14, 17 or 24. A refusal leaves every byte of the area.
pub fn narrow_table(table: &[u8], out: &mut [u8]) -> Result<usize, Refusal>
    ensures result_value { answered result ≡ narrow_table table.now (length out.old) }
    ensures out_after { out.new ≡ narrowed_area table.now out.old (narrow_table table.now (length out.old)) }
    ensures out_unchanged { OnErr result (out.new ≡ out.old) }
{
    converting::converting::narrow_table(table, out)
}

// Chosen pages of a file, by a list of their numbers that rises, as a file of their own: it is written into the output area. How many bytes were written, or
// refusal 1 to 11, 17 or 23. A refusal leaves every byte of the area. An area that has three bytes more than the file always suffices.
pub fn cut_pages(file: &[u8], pages: &[u32], out: &mut [u8]) -> Result<usize, Refusal>
    ensures result_value { answered result ≡ bytes_cut (cut_pages file.now pages.now (length out.old)) }
    ensures out_after { out.new ≡ cut_area out.old (cut_pages file.now pages.now (length out.old)) }
    ensures out_unchanged { OnErr result (out.new ≡ out.old) }
{
    cutting::pages::cut_pages(file, pages, out)
}

// One page of a file, counted from 1, by a width table, at a resolution in dots per inch: its records are written into the output area, 20 bytes each. How many
// records were written, how many characters are missing, how many specials the page has; or refusal 1 to 17. A refusal leaves every byte of the area.
pub fn place_page(
    file: &[u8],
    widths: &[u8],
    resolution: u32,
    page: u32,
    out: &mut [u8],
) -> Result<Counts, Refusal>
    ensures result_value { answered result ≡ placed_counts (placed_page file.now widths.now resolution page (length out.old)) }
    ensures out_after { out.new ≡ area_after out.old (placed_page file.now widths.now resolution page (length out.old)) }
    ensures out_unchanged { OnErr result (out.new ≡ out.old) }
{
    page::placing::place_page(file, widths, u64::from(resolution), page as usize, out)
}
