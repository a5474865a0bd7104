// The scan of a whole file: its commands from the front, one after the other.
ghost use Rattle.std.specs.Prelude.{◌≡◌, ◌≤◌, not, eqb, length, drop, replicate};
ghost use Rattle.std.specs.List.{position};
ghost use Rattle.refusals.specs.Answer.{answered};
ghost use Rattle.volume.specs.Judged.{tail, judged};
ghost use Rattle.volume.specs.Steps.{summary_of, Same, scan_answer, ScanKeeps};

use crate::{Summary, plain};
use commands::{Kind, Lengths};
use list::{NextCommand, Volume, faults, fonts, progress};
use refusals::{Reason, Refusal};

// The index of the first byte that is no 223.
fn first_unfilled(bytes: &[u8]) -> Option<usize>
    ensures { result ≡ position (λ byte. not (eqb byte 223)) bytes.now }
{
    bytes.iter().position(|byte| *byte != 223)
}

// 11: the bytes after post_post are 223s, and at least four.
fn ended(file: &[u8], at: usize, v: Volume) -> Result<Volume, Refusal>
    requires { at ≤ length file.now }
    ensures result_value { scan_answer result ≡ tail (summary_of v) at 0 (drop at file.now) }
    ensures same { Same v result }
{
    if let Some(fillers) = first_unfilled(&file[at..]) {
        return Err(Refusal {
            reason: Reason::WrongTail,
            place: at + fillers,
        });
    }
    if file.len() - at < 4 {
        return Err(Refusal {
            reason: Reason::WrongTail,
            place: file.len(),
        });
    }
    Ok(v)
}

// One scan of a file: all that is known at post_post, with the place of one page's bop and the table of the definitions before post; or refusal 1 to 11.
pub fn scan(file: &[u8], page: usize, fonts: &mut [u32; 256]) -> Result<Volume, Refusal>
    requires { fonts.old ≡ replicate 256 0 }
    ensures result_value { scan_answer result ≡ judged file.now }
    ensures scan_keeps { ScanKeeps file.now page fonts.new result }
{
    if commands::LONGEST_FILE < file.len() {
        return Err(Refusal {
            reason: Reason::FileTooLong,
            place: 0,
        });
    }
    let mut again = [0u32; 256];
    let mut v = progress::fresh();
    let lengths = Lengths::new();
    // No range: the place goes on by a command's length, or by a whole short way.
    loop {
        v = plain::passed(&lengths, &*fonts, file, v);
        let at = v.at;
        let reading = lengths.read(file, at)?;
        let next = NextCommand {
            kind: Kind::from(reading.opcode),
            opcode: reading.opcode,
            params: &file[reading.start..reading.next],
        };
        faults::fault_of(file, &*fonts, &again, v, next).map_err(|reason| Refusal {
            reason,
            place: at,
        })?;
        fonts::note(&mut *fonts, &mut again, v.stage, next, at);
        v = progress::after(v, page, next.kind, next.params);
        if next.kind == Kind::PostPost {
            return ended(file, reading.next, v);
        }
    }
}

// The check of a whole file.
pub fn check_file(file: &[u8]) -> Result<Summary, Refusal>
    ensures { answered result ≡ judged file.now }
{
    let mut fonts = [0u32; 256];
    let v = scan(file, 0, &mut fonts)?;
    Ok(Summary {
        pages: v.pages,
        fonts: v.fonts,
        depth: v.greatest,
        post: v.post,
    })
}
