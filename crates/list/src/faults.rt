// The lowest number of 4 to 10 that applies to a command.
ghost use Rattle.std.specs.Prelude.{◌≡◌, ◌+◌, ◌≤◌, ◌<◌, ◌^◌, length};
ghost use Rattle.commands.specs.declared.Kind.TheVariants.{Select, Define};
ghost use Rattle.commands.specs.Fields.{bop_pointer, post_pages, end_identification};
ghost use Rattle.list.specs.Steps.{WithRoom, fault_number, first_fault, depth_fault, character_fault, bop_fault, post_fault, end_fault, SelectionFaultIs, DefinitionFaultIs, FaultIs};

use crate::{NextCommand, Volume, fonts, rules};
use commands::{Kind, fields};
use refusals::Reason;

// 4: the fault of the first command.
fn first_fault(kind: Kind, params: &[u8]) -> Result<(), Reason>
    requires { WithRoom kind params.now }
    ensures { fault_number result ≡ first_fault kind params.now }
{
    if kind == Kind::Pre && rules::lawful_preamble(params) {
        return Ok(());
    }
    Err(Reason::WrongPreamble)
}

// 6: the fault of push, pop or eop.
fn depth_fault(kind: Kind, depth: usize) -> Result<(), Reason>
    ensures { fault_number result ≡ depth_fault kind depth }
{
    if rules::wrong_at_depth(kind, depth) {
        return Err(Reason::WrongDepth);
    }
    Ok(())
}

// 7: the fault of a definition.
fn definition_fault(
    file: &[u8],
    fonts: &[u32; 256],
    again: &[u32; 256],
    v: Volume,
    next: NextCommand,
) -> Result<(), Reason>
    requires { next.kind ≡ Define }
    ensures { DefinitionFaultIs file.now v fonts.now again.now next.entry.opcode next.entry.params.now (fault_number result) }
{
    if !fonts::lawful_definition(file, fonts, again, v.stage, v.fonts, next) {
        return Err(Reason::WrongFontDefinition);
    }
    Ok(())
}

// 8: the fault of a selection.
fn selection_fault(fonts: &[u32; 256], next: NextCommand) -> Result<(), Reason>
    requires { next.kind ≡ Select }
    ensures { SelectionFaultIs fonts.now next.entry.opcode next.entry.params.now (fault_number result) }
{
    if !fonts::lawful_selection(fonts, next) {
        return Err(Reason::NoFont);
    }
    Ok(())
}

// 8: the fault of a character.
fn character_fault(selected: bool) -> Result<(), Reason>
    ensures { fault_number result ≡ character_fault selected }
{
    if !selected {
        return Err(Reason::NoFont);
    }
    Ok(())
}

// 9: the fault of bop.
fn bop_fault(v: Volume, params: &[u8]) -> Result<(), Reason>
    requires { bop_pointer.at + bop_pointer.size ≤ length params.now }
    ensures { fault_number result ≡ bop_fault v params.now }
{
    if !rules::points_to(fields::BOP_POINTER, params, v.bop) {
        return Err(Reason::WrongPointer);
    }
    Ok(())
}

// 9, then 10: the fault of post.
fn post_fault(v: Volume, params: &[u8]) -> Result<(), Reason>
    requires { post_pages.at + post_pages.size ≤ length params.now }
    ensures { fault_number result ≡ post_fault v params.now }
{
    if !rules::points_to(fields::POST_POINTER, params, v.bop) {
        return Err(Reason::WrongPointer);
    }
    if !rules::lawful_postamble(v, params) {
        return Err(Reason::WrongPostamble);
    }
    Ok(())
}

// 7, 9, then 10: the fault of post_post.
fn end_fault(v: Volume, params: &[u8]) -> Result<(), Reason>
    requires { (end_identification.at + end_identification.size ≤ length params.now) × (v.post < 2 ^ 32) }
    ensures { fault_number result ≡ end_fault v params.now }
{
    if v.again != v.fonts {
        return Err(Reason::WrongFontDefinition);
    }
    if !rules::points_to(fields::END_POINTER, params, v.post as i64) {
        return Err(Reason::WrongPointer);
    }
    if fields::unsigned_in(fields::END_IDENTIFICATION, params) != 2 {
        return Err(Reason::WrongPostamble);
    }
    Ok(())
}

// The lowest of 4 to 10 that applies: at the start 4, else 5 before what the later rules say of the command's kind.
pub fn fault_of(
    file: &[u8],
    fonts: &[u32; 256],
    again: &[u32; 256],
    v: Volume,
    next: NextCommand,
) -> Result<(), Reason>
    requires { (next.opcode < 250) × (v.post < 2 ^ 32) }
    ensures { FaultIs file.now v fonts.now again.now next.entry.opcode next.entry.params.now (fault_number result) }
{
    let kind = next.kind;
    if rules::at_start(v.stage) {
        return first_fault(kind, next.params);
    }
    if !rules::may_stand(v.stage, kind) {
        return Err(Reason::MisplacedCommand);
    }
    match kind {
        Kind::Push | Kind::Pop | Kind::Eop => depth_fault(kind, v.depth),
        Kind::Define => definition_fault(file, fonts, again, v, next),
        Kind::Select => selection_fault(fonts, next),
        Kind::SetCharacter | Kind::PutCharacter => character_fault(v.selected),
        Kind::Bop => bop_fault(v, next.params),
        Kind::Post => post_fault(v, next.params),
        Kind::PostPost => end_fault(v, next.params),
        _ => Ok(()),
    }
}
