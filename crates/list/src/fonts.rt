// Font definitions and selections. A table has, for each font number 0 to 255, one more than the place of its definition, or 0: fixed memory.
ghost use Rattle.std.specs.Prelude.{◌≡◌, false, true, ◌+◌, ◌≤◌, ◌<◌, ◌^◌};
ghost use Rattle.commands.specs.declared.Kind.TheVariants.{Define, Select};
ghost use Rattle.list.specs.Rules.{lawful_font};
ghost use Rattle.list.specs.Steps.{place_in, SelectionIs, SayingAt, SayingIs, DefinitionIs, LawfullyNumbered, table_after};

use crate::{NextCommand, Part, Stage, rules};
use commands::{Kind, fields, parameters};
use state::Page;

// Whether a number is one of the fonts 0 to 255.
pub fn lawful_font(number: i64) -> bool
    ensures { result ≡ lawful_font number }
{
    (0..=255).contains(&number)
}

// Where the definition of a font stands, by a table: nowhere if the number is no font's, or the font has none there.
pub fn place_of(fonts: &[u32; 256], number: i64) -> Option<usize>
    ensures { result ≡ place_in fonts.now number }
{
    let index = u8::try_from(number).ok()?;
    let entry = fonts[usize::from(index)];
    (entry as usize).checked_sub(1)
}

// 8: whether the font that a selection names is defined.
pub fn lawful_selection(fonts: &[u32; 256], next: NextCommand) -> bool
    requires { next.kind ≡ Select }
    ensures { SelectionIs fonts.now next.entry.opcode next.entry.params.now result }
{
    place_of(fonts, parameters::selected_font(next.opcode, next.params)).is_some()
}

// The part of the file that holds what the definition at a place says, from its check sum to the end of its name; none where no definition stands.
pub fn saying_at(file: &[u8], at: usize) -> Option<Part>
    ensures { SayingAt file.now at result }
{
    let opcode = *file.get(at)?;
    if !(fields::FNT_DEF1..=fields::FNT_DEF4).contains(&opcode) {
        return None;
    }
    let start = at + 1 + usize::from(opcode - fields::BEFORE_DEFINITION);
    let name = start + fields::DEFINITION_NAME;
    if file.len() < name {
        return None;
    }
    let area_length = usize::from(file[start + fields::DEFINITION_AREA_LENGTH.at]);
    let name_length = usize::from(file[start + fields::DEFINITION_NAME_LENGTH.at]);
    let end = name + area_length + name_length;
    if file.len() < end {
        return None;
    }
    Some(Part { start, end })
}

// Whether the definition that stands at a place says just this: check sum, s, d, a, l and name.
fn same_definition(file: &[u8], at: usize, said: &[u8]) -> bool
    ensures { SayingIs file.now at said.now result }
{
    match saying_at(file, at) {
        Some(part) => &file[part.start..part.end] == said,
        None => false,
    }
}

// 7: whether a definition keeps the rules, at a stage, with so many fonts defined before post.
pub fn lawful_definition(
    file: &[u8],
    fonts: &[u32; 256],
    again: &[u32; 256],
    stage: Stage,
    count: usize,
    next: NextCommand,
) -> bool
    requires { next.kind ≡ Define }
    ensures { DefinitionIs file.now fonts.now again.now stage count next.entry.opcode next.entry.params.now result }
{
    let number = parameters::defined_font(next.opcode, next.params);
    if !lawful_font(number) {
        return false;
    }
    let said = &next.params[usize::from(next.opcode - fields::BEFORE_DEFINITION)..];
    if !numbers::lawful_size(fields::unsigned_in(fields::DEFINITION_SCALE, said)) {
        return false;
    }
    if !numbers::lawful_size(fields::unsigned_in(fields::DEFINITION_DESIGN_SIZE, said)) {
        return false;
    }
    let early = place_of(fonts, number);
    if !rules::after_post(stage) {
        return early.is_none() && count < Page::FONTS;
    }
    match early {
        Some(at) => place_of(again, number).is_none() && same_definition(file, at, said),
        None => false,
    }
}

// The tables of the definitions before post and after it, after one more command at a place. No struct has both tables: the scan's caller keeps the first, the second ends with the scan.
pub fn note(
    fonts: &mut [u32; 256],
    again: &mut [u32; 256],
    stage: Stage,
    next: NextCommand,
    at: usize,
)
    requires { (at + 1 < 2 ^ 32) × LawfullyNumbered next.opcode next.params.now }
    ensures fonts_after { fonts.new ≡ table_after false stage next.entry.kind next.entry.opcode next.entry.params.now at fonts.old }
    ensures again_after { again.new ≡ table_after true stage next.entry.kind next.entry.opcode next.entry.params.now at again.old }
{
    if next.kind == Kind::Define {
        let number = parameters::defined_font(next.opcode, next.params);
        let entry = (at + 1) as u32;
        if rules::after_post(stage) {
            again[number as usize] = entry;
        } else {
            fonts[number as usize] = entry;
        }
    }
}
