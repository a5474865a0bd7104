// Where a walk over the commands of an accepted file stands, and what becomes of each.
ghost use Rattle.std.specs.Prelude.{◌≡◌, ◌≤◌, ◌<◌, ◌^◌, length};
ghost use Rattle.refusals.specs.Answer.{answered, given, and_then};
ghost use Rattle.commands.specs.Reading.{longest_file, read_at};
ghost use Rattle.cutting.specs.Steps.{at_start, spot_after, is_short, RunTo, fate_of, step_of};

use crate::{Fate, Run, Spot, Step, choosing};
use commands::{Kind, Lengths};
use list::progress;
use refusals::Refusal;
use volume::plain;

impl Spot {
    // Before the first command.
    pub fn start() -> Spot
        ensures { result ≡ at_start }
    {
        Spot {
            pages: 0,
            met: 0,
            on: false,
            here: false,
            late: false,
        }
    }

    // After one more command.
    pub fn after(self, list: &[u32], kind: Kind) -> Spot
        requires { (self.pages < 2 ^ 32) × (self.met < 2 ^ 32) }
        ensures { result ≡ spot_after list.now kind self }
    {
        match kind {
            Kind::Bop => {
                let here = choosing::is_next(list, self.met, self.pages);
                Spot {
                    pages: self.pages + 1,
                    met: if here { self.met + 1 } else { self.met },
                    on: true,
                    here,
                    ..self
                }
            }
            Kind::Eop => Spot { on: false, ..self },
            Kind::Post => Spot { late: true, ..self },
            _ => self,
        }
    }

    // What becomes of a command, by the spot before it and whether its page is chosen.
    pub fn fate_of(self, kind: Kind, chosen: bool) -> Fate
        ensures { result ≡ fate_of kind chosen self }
    {
        match kind {
            Kind::Bop => if chosen { Fate::Mended } else { Fate::Dropped },
            Kind::Post | Kind::PostPost => Fate::Mended,
            Kind::Pre => Fate::Opening,
            Kind::Define => if self.late {
                Fate::Copied
            } else {
                Fate::Opening
            },
            _ => if self.on && chosen {
                Fate::Copied
            } else {
                Fate::Dropped
            },
        }
    }
}

// Whether an opcode is a push, a pop or a short selection: it has no parameters, and on a page it changes at most the depth.
// No Kind: Select has the long selections too. No function shared with volume::plain::is_plain: the sets differ, and it
// would only hand a `matches!` on.
fn is_short(opcode: u8) -> bool
    ensures { result ≡ is_short opcode }
{
    matches!(opcode, 141..=142 | 171..=234)
}

// Behind the plain commands, pushes, pops and short selections that stand at a place of a page; outside pages that place.
pub fn run_from(lengths: &Lengths, file: &[u8], p: Spot, from: Run) -> Run
    requires { (length file.now ≤ longest_file) × (from.depth ≤ from.at) × (from.depth ≤ from.greatest) }
    ensures { RunTo file.now p.on from result }
{
    let mut run = from;
    if !p.on {
        return run;
    }
    // No range: the place goes on by a command's length.
    loop {
        run.at = plain::pass_plain(lengths, file, run.at);
        if file.len() <= run.at {
            return run;
        }
        let opcode = file[run.at];
        if !is_short(opcode) {
            return run;
        }
        run.at += 1;
        run.depth = progress::next_depth(Kind::from(opcode), run.depth);
        run.greatest = run.greatest.max(run.depth);
    }
}

// The command at a place, where a walk stands that has come so far. Put into both walks: as a call it hands a large answer back through memory for each command, and
// selections take a third as long again.
// No struct of lengths, file and list: run_from takes no list, and each contract would name its fields in their place.
#[inline(always)]
pub fn step_at(
    lengths: &Lengths,
    file: &[u8],
    list: &[u32],
    at: usize,
    p: Spot,
) -> Result<Step, Refusal>
    requires { (p.pages < 2 ^ 32) × (p.met < 2 ^ 32) }
    ensures { answered result ≡ and_then (read_at file.now at) (λ reading. given (step_of list.now at p reading)) }
{
    let reading = lengths.read(file, at)?;
    let kind = Kind::from(reading.opcode);
    let after = p.after(list, kind);
    Ok(Step {
        at,
        next: reading.next,
        kind,
        fate: p.fate_of(kind, after.here),
        after,
    })
}
