// The numbers among a command's parameters, each by appendix A's sign.
ghost use Rattle.std.specs.Prelude.{◌≡◌, ◌+◌, ◌-◌, ◌≤◌, ◌<◌, ◌^◌, length, nat_abs};
ghost use Rattle.commands.specs.Fields.{rule_height_field, rule_width_field, selection_number_size, definition_number_size};
ghost use Rattle.commands.specs.Parameters.{number_at, character_code, distance, rule_height, rule_width, selected_font, defined_font};

use crate::fields;

// A parameter of one to four bytes: signed where it has four. Most have one, and a loop whose count is not known costs more than a byte.
fn number_at(params: &[u8], at: usize, count: usize) -> i64
    requires { (at + count ≤ length params.now) × (count ≤ 4) }
    ensures { (result ≡ number_at params.now at count) × (nat_abs result ≤ 2 ^ 31) }
{
    if count == 1 {
        return i64::from(params[at]);
    }
    if count == 4 {
        return numbers::signed_at(params, at, count);
    }
    numbers::unsigned_at(params, at, count) as i64
}

// A character's code.
pub fn character_code(opcode: u8, params: &[u8]) -> i64
    requires { length params.now ≤ 4 }
    ensures { (result ≡ character_code opcode params.now) × (nat_abs result ≤ 2 ^ 31) }
{
    if opcode < 128 {
        return i64::from(opcode);
    }
    number_at(params, 0, params.len())
}

// The distance of a move.
pub fn distance_of(params: &[u8]) -> i64
    requires { length params.now ≤ 4 }
    ensures { (result ≡ distance params.now) × (nat_abs result ≤ 2 ^ 31) }
{
    numbers::signed_at(params, 0, params.len())
}

// A rule's height. It and the width are each a field read by its name, as definitions are named alike: one function over the field is `signed_in`.
pub fn rule_height(params: &[u8]) -> i64
    requires { rule_height_field.at + rule_height_field.size ≤ length params.now }
    ensures { (result ≡ rule_height params.now) × (nat_abs result ≤ 2 ^ 31) }
{
    fields::signed_in(fields::RULE_HEIGHT, params)
}

// A rule's width.
pub fn rule_width(params: &[u8]) -> i64
    requires { rule_width_field.at + rule_width_field.size ≤ length params.now }
    ensures { (result ≡ rule_width params.now) × (nat_abs result ≤ 2 ^ 31) }
{
    fields::signed_in(fields::RULE_WIDTH, params)
}

// The font that a selection names.
pub fn selected_font(opcode: u8, params: &[u8]) -> i64
    requires { (171 ≤ opcode) × (opcode ≤ 238) × (selection_number_size opcode ≤ length params.now) }
    ensures { (result ≡ selected_font opcode params.now) × (nat_abs result ≤ 2 ^ 31) }
{
    if opcode < 235 {
        return i64::from(opcode - 171);
    }
    number_at(params, 0, usize::from(opcode - fields::BEFORE_SELECTION))
}

// The font that a definition names.
pub fn defined_font(opcode: u8, params: &[u8]) -> i64
    requires { (243 ≤ opcode) × (opcode ≤ 246) × (definition_number_size opcode ≤ length params.now) }
    ensures { (result ≡ defined_font opcode params.now) × (nat_abs result ≤ 2 ^ 31) }
{
    number_at(params, 0, usize::from(opcode - fields::BEFORE_DEFINITION))
}
