// Placing one page of a file: 1 to 11 are judged of the file, then 12 to 17 in their order.
ghost use Rattle.std.specs.Prelude.{◌≡◌, length};
ghost use Rattle.refusals.specs.Answer.{and_then, answered};
ghost use Rattle.volume.specs.History.{history};
ghost use Rattle.state.specs.Registers.{fresh_state};
ghost use Rattle.page.specs.PageList.{page_of};
ghost use Rattle.turns.specs.Placing.{placing};
ghost use Rattle.page.specs.Answers.{with_room, placed_accepted, placed_page, placed_counts, area_after};
ghost use Rattle.turns.specs.Steps.{terms_setting};
ghost use Rattle.page.specs.Steps.{Ready, Held};

use crate::walking;
use commands::fields;
use list::Volume;
use placements::Counts;
use refusals::{Reason, Refusal};
use state::moving::Ruler;
use turns::Terms;
use units::Ratio;
use volume::scanning;
use widths::table::Widths;

// The length of a bop: its opcode and its parameters, of which the pointer is the last.
const BOP: usize = 1 + fields::BOP_POINTER.at + fields::BOP_POINTER.size;

// 16 and 17: a walk over the page with no area judges and counts, a second one writes. Neither the judgement nor the counts depend on K and D, so the first walk goes
// by a K of 0, by which no new position has to be rounded.
fn place_commands(
    file: &[u8],
    fonts: &[u32; 256],
    terms: &Terms,
    start: usize,
    out: &mut [u8],
) -> Result<Counts, Refusal>
    requires { Ready file.now fonts.now terms.now start }
    ensures result_value { answered result ≡ placed_counts (and_then (placing (terms_setting terms.now (history file.now)) fresh_state (page_of terms.now.page (history file.now))) (with_room (length out.old))) }
    ensures out_after { out.new ≡ area_after out.old (and_then (placing (terms_setting terms.now (history file.now)) fresh_state (page_of terms.now.page (history file.now))) (with_room (length out.old))) }
{
    // in full: a struct with a ghost field takes no `..terms`
    let counting = Terms {
        ruler: Ruler {
            k: Ratio { p: 0, q: 1 },
            drift: 0,
        },
        widths: terms.widths,
        page: terms.page,
    };
    let counts = walking::walk(file, fonts, &counting, start, &mut out[..0])?;
    if out.len() < placements::RECORD_SIZE * counts.records {
        return Err(Refusal {
            reason: Reason::AreaTooShort,
            place: 0,
        });
    }
    walking::walk(file, fonts, terms, start, out)
}

// 12 to 17, of a file that was accepted.
fn place_accepted(
    file: &[u8],
    widths: &[u8],
    fonts: &[u32; 256],
    volume: Volume,
    resolution: u64,
    page: usize,
    out: &mut [u8],
) -> Result<Counts, Refusal>
    requires { Held file.now page fonts.now volume }
    ensures result_value { answered result ≡ placed_counts (placed_accepted file.now widths.now resolution page (length out.old) volume.pages) }
    ensures out_after { out.new ≡ area_after out.old (placed_accepted file.now widths.now resolution page (length out.old) volume.pages) }
{
    let k = units::unit_of(volume.num, volume.den, volume.mag, resolution)?;
    let widths = Widths::judged(widths)?;
    if page < 1 || volume.pages < page {
        return Err(Refusal {
            reason: Reason::NoSuchPage,
            place: 0,
        });
    }
    let drift = units::drift_of(resolution);
    let terms = Terms {
        ruler: Ruler { k, drift },
        widths,
        page: page as u64,
    };
    place_commands(file, fonts, &terms, volume.wanted + BOP, out)
}

// One page of a file, by a width table, at a resolution, into the output area.
pub fn place_page(
    file: &[u8],
    widths: &[u8],
    resolution: u64,
    page: usize,
    out: &mut [u8],
) -> Result<Counts, Refusal>
    ensures result_value { answered result ≡ placed_counts (placed_page file.now widths.now resolution page (length out.old)) }
    ensures out_after { out.new ≡ area_after out.old (placed_page file.now widths.now resolution page (length out.old)) }
{
    let mut fonts = [0u32; 256];
    let volume = scanning::scan(file, page, &mut fonts)?;
    place_accepted(file, widths, &fonts, volume, resolution, page, out)
}
