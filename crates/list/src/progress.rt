// What the commands amount to after one more.
ghost use Rattle.std.specs.Prelude.{◌≡◌, [], ℕ, ◌+◌, ◌≤◌, ◌<◌, ◌^◌, length};
ghost use Rattle.commands.specs.declared.Kind.TheVariants.{Push};
ghost use Rattle.list.specs.Past.{stage_after, depth_after};
ghost use Rattle.list.specs.Steps.{volume_of, moved_on, after_of, WithRoom};

use crate::{Stage, Volume, rules};
use commands::{Kind, fields};

fn next_stage(kind: Kind, stage: Stage) -> Stage
    ensures { result ≡ stage_after kind stage }
{
    match kind {
        Kind::Pre => Stage::BeforePages,
        Kind::Bop => Stage::OnPage,
        Kind::Eop => Stage::BetweenPages,
        Kind::Post => Stage::AfterPost,
        Kind::PostPost => Stage::AfterEnd,
        _ => stage,
    }
}

pub fn next_depth(kind: Kind, depth: usize) -> usize
    requires { kind ≡ Push → depth < 2 ^ 32 }
    ensures { result ≡ depth_after kind depth }
{
    match kind {
        Kind::Push => depth + 1,
        Kind::Pop => depth.saturating_sub(1),
        _ => depth,
    }
}

// What the empty list of commands amounts to.
pub fn fresh() -> Volume
    ensures { (page : ℕ) → result ≡ volume_of page [] }
{
    Volume {
        stage: Stage::AtStart,
        at: 0,
        depth: 0,
        greatest: 0,
        pages: 0,
        bop: -1,
        wanted: 0,
        post: 0,
        num: 0,
        den: 0,
        mag: 0,
        fonts: 0,
        again: 0,
        selected: false,
    }
}

// The stage, the place and the depth after one more command; the rest as it was.
fn moved_on(v: Volume, kind: Kind, length: usize) -> Volume
    requires { (v.at + (1 + length) < 2 ^ 32) × (v.depth ≤ v.at) }
    ensures { result ≡ moved_on v kind length }
{
    let depth = next_depth(kind, v.depth);
    Volume {
        stage: next_stage(kind, v.stage),
        at: v.at + (1 + length),
        depth,
        greatest: v.greatest.max(depth),
        ..v
    }
}

// What the commands amount to after one more.
pub fn after(v: Volume, page: usize, kind: Kind, params: &[u8]) -> Volume
    requires params_bound { (v.at + (1 + length params.now) < 2 ^ 32) × WithRoom kind params.now }
    requires depth_le_at { (v.depth ≤ v.at) × (v.pages ≤ v.at) × (v.fonts ≤ v.at) × (v.again ≤ v.at) }
    ensures { result ≡ after_of page v kind params.now }
{
    let next = moved_on(v, kind, params.len());
    match kind {
        Kind::Pre => Volume {
            num: fields::unsigned_in(fields::PRE_NUM, params),
            den: fields::unsigned_in(fields::PRE_DEN, params),
            mag: fields::unsigned_in(fields::PRE_MAG, params),
            ..next
        },
        Kind::Bop => Volume {
            pages: v.pages + 1,
            bop: v.at as i64,
            wanted: if v.pages + 1 == page { v.at } else { v.wanted },
            selected: false,
            ..next
        },
        Kind::Post => Volume { post: v.at, ..next },
        Kind::Select => Volume {
            selected: true,
            ..next
        },
        Kind::Define if rules::after_post(v.stage) => Volume {
            again: v.again + 1,
            ..next
        },
        Kind::Define => Volume {
            fonts: v.fonts + 1,
            ..next
        },
        _ => next,
    }
}
