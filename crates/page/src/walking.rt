// The walk over a page's commands, from the end of its bop to its eop.
ghost use Rattle.std.specs.Prelude.{◌≡◌, ◌≤◌, length, IfOk};
ghost use Rattle.volume.specs.History.{history};
ghost use Rattle.state.specs.Registers.{fresh_state};
ghost use Rattle.page.specs.PageList.{page_of};
ghost use Rattle.turns.specs.Placing.{placing};
ghost use Rattle.turns.specs.Steps.{Known, KeptFor, terms_setting};
ghost use Rattle.page.specs.Steps.{Told, SeenIs, AllSeen, Ready, zero_counts, finish, ending_of};

use crate::{Seen, fonts};
use commands::Lengths;
use names::Name;
use placements::Counts;
use refusals::{Reason, Refusal};
use state::moving::Stride;
use state::{Font, Page, registers};
use turns::steps::Scene;
use turns::{Kept, Terms, Turn};
use widths::blocks;
use widths::blocks::Block;
use widths::table::Widths;

// No font, by a number that none has
const NONE: Seen = Seen {
    number: -1,
    font: fonts::UNSELECTED,
    kept: Kept {
        sixteenfold: 0,
        own: Block { start: 0, end: 0 },
        any: Block { start: 0, end: 0 },
    },
};

// The hint for the font that is selected now, in exchange for that of the font before, so that no font's search starts from nothing again.
fn exchanged(hints: &mut [usize; 256], before: u64, after: u64, hint: usize) -> usize {
    hints[(before % 256) as usize] = hint;
    hints[(after % 256) as usize]
}

// What is kept for a font.
fn kept_for(widths: Widths, font: Font) -> Kept
    requires { Known font }
    ensures { KeptFor widths.entry font result }
{
    Kept {
        sixteenfold: scaling::sixteenfold_of(font.scale),
        own: blocks::block_of(widths, font.checksum, font.scale, font.name),
        any: blocks::block_of(widths, font.checksum, font.scale, Name::ANY),
    }
}

// The font of a number, and what is kept for it: what was asked last, where that was of the same number. So a font is read, and sought in the table, where it is
// selected first, and again only where another one was asked for in its place.
fn recalled(
    file: &[u8],
    fonts: &[u32; 256],
    widths: Widths,
    number: i64,
    seen: &mut [Seen; Page::FONTS],
) -> Seen
    requires told { Told file.now fonts.now (history file.now) }
    requires seen_is { AllSeen file.now fonts.now widths seen.old }
    ensures value { SeenIs file.now fonts.now widths.entry result × (result.number ≡ number) }
    ensures seen_after { AllSeen file.now fonts.now widths.entry seen.new }
{
    let slot = number.unsigned_abs() as usize % Page::FONTS;
    let last = seen[slot];
    if last.number == number {
        return last;
    }
    let font = fonts::font_of(file, fonts, number);
    let kept = kept_for(widths, font);
    let found = Seen { number, font, kept };
    seen[slot] = found;
    found
}

// Walks over the page whose commands start at a place, counts what they add, and writes each record that the area has room for. A font's scale is halved, and its
// records are sought in the table, where the font is selected, not at each of its characters; and what was found is remembered, in as many slots as a file may
// have fonts, by the font's number modulo these. The turns are applied here, in a longer function than others are: one that took the page and gave it back would copy
// its saved levels at each command (docs/DECISIONS.md).
pub fn walk(
    file: &[u8],
    fonts: &[u32; 256],
    terms: &Terms,
    start: usize,
    out: &mut [u8],
) -> Result<Counts, Refusal>
    requires { Ready file.now fonts.now terms.now start }
    ensures result_after { ending_of out.new result ≡ finish out.old zero_counts (placing (terms_setting terms.now (history file.now)) fresh_state (page_of terms.now.page (history file.now))) }
    ensures few { IfOk result (λ counts. counts.records ≤ length file.now) }
{
    let ruler = terms.ruler;
    let mut page = Page::fresh();
    let mut counts = Counts {
        records: 0,
        missing: 0,
        specials: 0,
    };
    let mut at = start;
    let mut hint = 0;
    let mut kept = NONE.kept;
    let mut hints = [0usize; 256];
    let mut seen = [NONE; Page::FONTS];
    let lengths = Lengths::new();
    // no range: the place goes on by commands of any length
    loop {
        let scene = Scene {
            terms: *terms,
            level: registers::level_of(page.now),
            font: page.font,
            kept,
            hint,
        };
        let step = scene.step_at(&lengths, file, at);
        let asked = step.asked;
        let place = at;
        at = step.next;
        hint = asked.hint;
        counts = placements::note(&mut *out, counts, asked.adds);
        match asked.turn {
            Turn::Stay => {}
            Turn::Sideways(stride, n) => page = page.sideways(ruler, stride, n),
            Turn::Down(n) => page = page.down(ruler, n),
            Turn::ByRegister(register, n) => {
                let next = registers::moved_by_register(
                    register,
                    Stride::Rounded,
                    ruler,
                    page.font.scale,
                    n,
                    page.now,
                );
                page = page.moved_to(next);
            }
            Turn::PastCharacter(width, escapement) => {
                page = page.past_character(ruler, width, escapement);
            }
            Turn::Push => {
                page.stack[page.depth] = page.now;
                page = page.push();
            }
            Turn::Pop => {
                let last = page.stack[page.depth - 1];
                page = page.pop(last);
            }
            Turn::Select(number) => {
                let before = page.font;
                let found = recalled(file, fonts, terms.widths, number, &mut seen);
                hint = exchanged(&mut hints, before.number, found.font.number, hint);
                kept = found.kept;
                page = page.select(found.font);
            }
            Turn::End => return Ok(counts),
            Turn::Leave => {
                return Err(Refusal {
                    reason: Reason::PositionOutOfRange,
                    place,
                });
            }
        }
    }
}
