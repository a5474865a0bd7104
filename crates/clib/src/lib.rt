// The C interface: every entry of the reader under its name for C. The result goes into an array of numbers that the caller lends; what is returned says whether
// it is a result, a refusal, or an array too short for any result. clib_c exports them, and include/hurlyburn.h is the same for C.
#![tactic(auto)]

mod answers;
mod results;

ghost use Rattle.std.specs.Prelude.{◌≡◌, length};
ghost use Rattle.commands.specs.Reading.{command_read};
ghost use Rattle.volume.specs.Judged.{judged};
ghost use Rattle.volume.specs.Names.{name_place};
ghost use Rattle.units.specs.Rounding.{rounded_distance};
ghost use Rattle.scaling.specs.Scaling.{fix_word, scaled_width};
ghost use Rattle.widths.specs.Table.{checked_table};
ghost use Rattle.widths.specs.LookUp.{looked_up};
ghost use Rattle.converting.specs.Converting.{widen_table, narrow_table, widened_area, narrowed_area};
ghost use Rattle.packed.specs.Table.{table_made, records_made, table_area};
ghost use Rattle.cutting.specs.CutFile.{cut_pages, bytes_cut, cut_area};
ghost use Rattle.page.specs.Answers.{placed_page, placed_counts, area_after};
ghost use Rattle.clib.specs.Answers.{if_room, code, array_after, command_numbers, file_numbers, signed_numbers, placed_numbers, table_numbers, cut_numbers, looked_numbers, name_numbers};

// The command at a place of the file: its opcode, where its parameters start, and the place after them.
pub fn hurlyburn_read_command(file: &[u8], at: usize, answer: &mut [u64]) -> u32
    ensures value { result ≡ code 3 answer.old (command_read file.now at) }
    ensures answer_after { answer.new ≡ array_after 3 command_numbers answer.old (command_read file.now at) }
{
    if answer.len() < 3 {
        return answers::ARRAY_TOO_SHORT;
    }
    answers::tell(answer, reader::read_command(file, at))
}

// The check of a whole file: pages, fonts, greatest depth, place of post.
pub fn hurlyburn_check_file(file: &[u8], answer: &mut [u64]) -> u32
    ensures value { result ≡ code 4 answer.old (judged file.now) }
    ensures answer_after { answer.new ≡ array_after 4 file_numbers answer.old (judged file.now) }
{
    if answer.len() < 4 {
        return answers::ARRAY_TOO_SHORT;
    }
    answers::tell(answer, reader::check_file(file))
}

// One page, its records written into the area: records, missing characters, specials.
pub fn hurlyburn_place_page(
    file: &[u8],
    widths: &[u8],
    resolution: u32,
    page: u32,
    area: &mut [u8],
    answer: &mut [u64],
) -> u32
    ensures value { result ≡ code 3 answer.old (placed_counts (placed_page file.now widths.now resolution page (length area.old))) }
    ensures answer_after { answer.new ≡ array_after 3 placed_numbers answer.old (placed_counts (placed_page file.now widths.now resolution page (length area.old))) }
    ensures area_after { area.new ≡ if_room 3 answer.old (area_after area.old (placed_page file.now widths.now resolution page (length area.old))) area.old }
{
    if answer.len() < 3 {
        return answers::ARRAY_TOO_SHORT;
    }
    let outcome = reader::place_page(file, widths, resolution, page, area);
    answers::tell(answer, outcome)
}

// A distance in pixels, at a file's units and a resolution.
pub fn hurlyburn_round_distance(
    num: i32,
    den: i32,
    mag: i32,
    resolution: u32,
    n: i32,
    answer: &mut [u64],
) -> u32
    ensures value { result ≡ code 1 answer.old (rounded_distance num den mag resolution n) }
    ensures answer_after { answer.new ≡ array_after 1 signed_numbers answer.old (rounded_distance num den mag resolution n) }
{
    if answer.len() < 1 {
        return answers::ARRAY_TOO_SHORT;
    }
    let outcome = reader::round_distance(num, den, mag, resolution, n);
    answers::tell(answer, outcome)
}

// The width of a fix word, bytes b0 to b3, at a font's scale.
pub fn hurlyburn_scale_width(scale: u32, b0: u8, b1: u8, b2: u8, b3: u8, answer: &mut [u64]) -> u32
    ensures value { result ≡ code 1 answer.old (scaled_width scale (fix_word b0 b1 b2 b3)) }
    ensures answer_after { answer.new ≡ array_after 1 signed_numbers answer.old (scaled_width scale (fix_word b0 b1 b2 b3)) }
{
    if answer.len() < 1 {
        return answers::ARRAY_TOO_SHORT;
    }
    answers::tell(answer, reader::scale_width(scale, b0, b1, b2, b3))
}

// The check of a width table: records.
pub fn hurlyburn_check_table(table: &[u8], answer: &mut [u64]) -> u32
    ensures value { result ≡ code 1 answer.old (checked_table table.now) }
    ensures answer_after { answer.new ≡ array_after 1 table_numbers answer.old (checked_table table.now) }
{
    if answer.len() < 1 {
        return answers::ARRAY_TOO_SHORT;
    }
    answers::tell(answer, reader::check_table(table))
}

// What a width table says of a character of a font, by the font's name without its area: 1, escapement and the fix word's four bytes; or 0 where it is absent.
pub fn hurlyburn_look_up(
    table: &[u8],
    checksum: u32,
    scale: u32,
    name: &[u8],
    character: i32,
    answer: &mut [u64],
) -> u32
    ensures value { result ≡ code 6 answer.old (looked_up table.now checksum scale name.now character) }
    ensures answer_after { answer.new ≡ array_after 6 looked_numbers answer.old (looked_up table.now checksum scale name.now character) }
{
    if answer.len() < 6 {
        return answers::ARRAY_TOO_SHORT;
    }
    match reader::look_up(table, checksum, scale, name, character) {
        Ok(None) => answers::give(answer, &[0]),
        Ok(Some(metric)) => {
            let escapement = answers::word_of(metric.escapement);
            let width = metric.width;
            let numbers = [
                1,
                escapement,
                u64::from(width.b0),
                u64::from(width.b1),
                u64::from(width.b2),
                u64::from(width.b3),
            ];
            answers::give(answer, &numbers)
        }
        Err(refusal) => answers::refuse(answer, refusal),
    }
}

// The width table of a PK font at a scale, written into the area: records.
pub fn hurlyburn_width_table(pk: &[u8], scale: u32, area: &mut [u8], answer: &mut [u64]) -> u32
    ensures value { result ≡ code 1 answer.old (records_made (table_made pk.now scale (length area.old))) }
    ensures answer_after { answer.new ≡ array_after 1 table_numbers answer.old (records_made (table_made pk.now scale (length area.old))) }
    ensures area_after { area.new ≡ if_room 1 answer.old (table_area area.old (table_made pk.now scale (length area.old))) area.old }
{
    if answer.len() < 1 {
        return answers::ARRAY_TOO_SHORT;
    }
    answers::tell(answer, reader::width_table(pk, scale, area))
}

// A width table of the old form in the new one, written into the area: records.
pub fn hurlyburn_widen_table(old: &[u8], area: &mut [u8], answer: &mut [u64]) -> u32
    ensures value { result ≡ code 1 answer.old (widen_table old.now (length area.old)) }
    ensures answer_after { answer.new ≡ array_after 1 table_numbers answer.old (widen_table old.now (length area.old)) }
    ensures area_after { area.new ≡ if_room 1 answer.old (widened_area old.now area.old (widen_table old.now (length area.old))) area.old }
{
    if answer.len() < 1 {
        return answers::ARRAY_TOO_SHORT;
    }
    answers::tell(answer, reader::widen_table(old, area))
}

// A width table none of whose records has a name, in the old form, written into the area: records.
pub fn hurlyburn_narrow_table(table: &[u8], area: &mut [u8], answer: &mut [u64]) -> u32
    ensures value { result ≡ code 1 answer.old (narrow_table table.now (length area.old)) }
    ensures answer_after { answer.new ≡ array_after 1 table_numbers answer.old (narrow_table table.now (length area.old)) }
    ensures area_after { area.new ≡ if_room 1 answer.old (narrowed_area table.now area.old (narrow_table table.now (length area.old))) area.old }
{
    if answer.len() < 1 {
        return answers::ARRAY_TOO_SHORT;
    }
    answers::tell(answer, reader::narrow_table(table, area))
}

// Chosen pages of a file, written into the area as a file of their own: bytes.
pub fn hurlyburn_cut_pages(file: &[u8], pages: &[u32], area: &mut [u8], answer: &mut [u64]) -> u32
    ensures value { result ≡ code 1 answer.old (bytes_cut (cut_pages file.now pages.now (length area.old))) }
    ensures answer_after { answer.new ≡ array_after 1 cut_numbers answer.old (bytes_cut (cut_pages file.now pages.now (length area.old))) }
    ensures area_after { area.new ≡ if_room 1 answer.old (cut_area area.old (cut_pages file.now pages.now (length area.old))) area.old }
{
    if answer.len() < 1 {
        return answers::ARRAY_TOO_SHORT;
    }
    answers::tell(answer, reader::cut_pages(file, pages, area))
}

// The name of a font: where the part of the file that holds it starts, and the place past its end.
pub fn hurlyburn_font_name(file: &[u8], font: i32, answer: &mut [u64]) -> u32
    ensures value { result ≡ code 2 answer.old (name_place file.now font) }
    ensures answer_after { answer.new ≡ array_after 2 name_numbers answer.old (name_place file.now font) }
{
    if answer.len() < 2 {
        return answers::ARRAY_TOO_SHORT;
    }
    match reader::font_name(file, font) {
        Ok(name) => {
            let end = name.start + name.bytes.len();
            answers::give(answer, &[name.start as u64, end as u64])
        }
        Err(refusal) => answers::refuse(answer, refusal),
    }
}
