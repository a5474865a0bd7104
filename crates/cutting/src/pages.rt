// The file of chosen pages.
ghost use Rattle.std.specs.Prelude.{◌≡◌, false, length};
ghost use Rattle.refusals.specs.Answer.{answered};
ghost use Rattle.list.specs.Past.{pages};
ghost use Rattle.list.specs.Lawful.{Lawful};
ghost use Rattle.volume.specs.History.{history};
ghost use Rattle.cutting.specs.Chosen.{wrong_list};
ghost use Rattle.cutting.specs.CutList.{fillers_at};
ghost use Rattle.cutting.specs.CutFile.{cut_accepted, cut_pages, bytes_cut, cut_area};

use crate::{choosing, counting, writing};
use commands::Lengths;
use refusals::{Reason, Refusal};
use volume::scanning;

// How many 223s follow at a place.
fn fillers_at(at: usize) -> usize
    ensures { result ≡ fillers_at at }
{
    4 + (4 - at % 4) % 4
}

// 17, of a file that was accepted and a list that is right: a walk over the commands counts, a second one writes.
fn cut_accepted(file: &[u8], list: &[u32], out: &mut [u8]) -> Result<usize, Refusal>
    requires { Lawful file.now × (wrong_list (pages (history file.now)) list.now ≡ false) }
    ensures result_value { answered result ≡ bytes_cut (cut_accepted file.now list.now (length out.old)) }
    ensures out_after { out.new ≡ cut_area out.old (cut_accepted file.now list.now (length out.old)) }
{
    let lengths = Lengths::new();
    let counted = counting::count(&lengths, file, list);
    let size = counted.opened + counted.kept;
    let end = size + fillers_at(size);
    if out.len() < end {
        return Err(Refusal {
            reason: Reason::AreaTooShort,
            place: 0,
        });
    }
    writing::write(&lengths, file, list, counted, out);
    out[size..end].fill(223);
    Ok(end)
}

// The file of chosen pages, written into the output area: how many bytes it has, or refusal 1 to 11, 23, or 17. A refusal leaves every byte of the area.
pub fn cut_pages(file: &[u8], list: &[u32], out: &mut [u8]) -> Result<usize, Refusal>
    ensures result_value { answered result ≡ bytes_cut (cut_pages file.now list.now (length out.old)) }
    ensures out_after { out.new ≡ cut_area out.old (cut_pages file.now list.now (length out.old)) }
{
    let summary = scanning::check_file(file)?;
    if !choosing::right_list(list, summary.pages) {
        return Err(Refusal {
            reason: Reason::WrongPages,
            place: 0,
        });
    }
    cut_accepted(file, list, out)
}
