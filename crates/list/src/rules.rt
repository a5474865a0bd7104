// The rules that look at one command and at numbers: one function for each part of a row of the refusal table.
ghost use Rattle.std.specs.Prelude.{◌≡◌, ◌+◌, ◌≤◌, ◌<◌, length};
ghost use Rattle.numbers.specs.Signs.{same_number};
ghost use Rattle.commands.specs.Fields.{signed_in, pre_mag, post_pages};
ghost use Rattle.list.specs.Past.{is_after_post};
ghost use Rattle.list.specs.Rules.{is_at_start, positive_unit, lawful_preamble, may_stand, wrong_at_depth, lawful_postamble};

use crate::{Stage, Volume};
use commands::fields::{SignedField, UnsignedField};
use commands::{Kind, fields};
use state::Page;

// Whether the list is at its start. A function, though its test is one `==`: its contract has the definition's name, by which each arm of `fault_of` is proved.
pub fn at_start(stage: Stage) -> bool
    ensures { result ≡ is_at_start stage }
{
    stage == Stage::AtStart
}

// Whether post has passed.
pub fn after_post(stage: Stage) -> bool
    ensures { result ≡ is_after_post stage }
{
    matches!(stage, Stage::AfterPost | Stage::AfterEnd)
}

// Whether a unit of pre is positive.
fn positive_unit(field: UnsignedField, params: &[u8]) -> bool
    requires { (field.at + field.size ≤ length params.now) × (field.size ≤ 4) }
    ensures { result ≡ positive_unit field params.now }
{
    0 < numbers::signed_at(params, field.at, field.size)
}

// 4: identification 2, and num, den and mag positive.
pub fn lawful_preamble(params: &[u8]) -> bool
    requires { pre_mag.at + pre_mag.size ≤ length params.now }
    ensures { result ≡ lawful_preamble params.now }
{
    fields::unsigned_in(fields::PRE_IDENTIFICATION, params) == 2
        && positive_unit(fields::PRE_NUM, params)
        && positive_unit(fields::PRE_DEN, params)
        && positive_unit(fields::PRE_MAG, params)
}

// 5: whether a command may stand there.
pub fn may_stand(stage: Stage, kind: Kind) -> bool
    ensures { result ≡ may_stand stage kind }
{
    match stage {
        Stage::AtStart => true,
        Stage::BeforePages => matches!(kind, Kind::Nop | Kind::Define | Kind::Bop),
        Stage::OnPage => !matches!(kind, Kind::Bop | Kind::Pre | Kind::Post | Kind::PostPost),
        Stage::BetweenPages => matches!(kind, Kind::Nop | Kind::Define | Kind::Bop | Kind::Post),
        Stage::AfterPost => matches!(kind, Kind::Nop | Kind::Define | Kind::PostPost),
        Stage::AfterEnd => false,
    }
}

// 6: a pop with nothing to pop, a push onto a full stack, the end of a page with something left on it.
pub fn wrong_at_depth(kind: Kind, depth: usize) -> bool
    ensures { result ≡ wrong_at_depth kind depth }
{
    match kind {
        Kind::Pop => depth == 0,
        Kind::Push => Page::DEPTH <= depth,
        Kind::Eop => 0 < depth,
        _ => false,
    }
}

// 9: whether a pointer is this one.
pub fn points_to(pointer: SignedField, params: &[u8], place: i64) -> bool
    requires { (pointer.at + pointer.size ≤ length params.now) × (pointer.size ≤ 4) }
    ensures { result ≡ same_number (signed_in pointer params.now) place }
{
    fields::signed_in(pointer, params) == place
}

// 10: whether post repeats num, den and mag, states the depth or more, and the pages.
pub fn lawful_postamble(v: Volume, params: &[u8]) -> bool
    requires { post_pages.at + post_pages.size ≤ length params.now }
    ensures { result ≡ lawful_postamble v.num v.den v.mag v.greatest v.pages params.now }
{
    fields::unsigned_in(fields::POST_NUM, params) == v.num
        && fields::unsigned_in(fields::POST_DEN, params) == v.den
        && fields::unsigned_in(fields::POST_MAG, params) == v.mag
        && v.greatest as u64 <= fields::unsigned_in(fields::POST_DEPTH, params)
        && fields::unsigned_in(fields::POST_PAGES, params) == v.pages as u64
}
