// The first walk: how long the new file is, and how deep its pages go.
ghost use Rattle.std.specs.Prelude.{◌≡◌, true, ◌+◌, ◌-◌, ◌≤◌, ◌<◌, ◌^◌};
ghost use Rattle.list.specs.Past.{pages};
ghost use Rattle.list.specs.Lawful.{Lawful};
ghost use Rattle.volume.specs.History.{history};
ghost use Rattle.cutting.specs.Chosen.{rises_from};
ghost use Rattle.cutting.specs.Steps.{one_kept, counted_after, run_counted, CountsAll};

use crate::{Counted, Fate, Run, Spot, walking};
use commands::{Kind, Lengths};
use list::progress;

impl Counted {
    // After a command that stays, of so many bytes.
    fn one_kept(self, kind: Kind, size: usize) -> Counted
        requires { (self.kept + size < 2 ^ 32) × (self.depth < 2 ^ 32) }
        ensures { result ≡ one_kept kind size self }
    {
        let depth = progress::next_depth(kind, self.depth);
        Counted {
            kept: self.kept + size,
            depth,
            greatest: self.greatest.max(depth),
            ..self
        }
    }

    // After one more command of so many bytes.
    fn counted_after(self, fate: Fate, kind: Kind, size: usize) -> Counted
        requires { (self.opened + size < 2 ^ 32) × (self.kept + size < 2 ^ 32) × (self.depth < 2 ^ 32) }
        ensures { result ≡ counted_after fate kind size self }
    {
        match fate {
            Fate::Dropped => self,
            Fate::Copied | Fate::Mended => self.one_kept(kind, size),
            Fate::Opening => Counted {
                opened: self.opened + size,
                ..self
            },
        }
    }

    // After a run from a place: on a chosen page its commands stay, elsewhere they go.
    fn run_counted(self, here: bool, at: usize, run: Run) -> Counted
        requires { (at ≤ run.at) × (self.kept + (run.at - at) < 2 ^ 32) }
        ensures { result ≡ run_counted here at run self }
    {
        if !here {
            return self;
        }
        Counted {
            kept: self.kept + (run.at - at),
            depth: run.depth,
            greatest: run.greatest,
            ..self
        }
    }
}

// The walk over all commands.
pub fn count(lengths: &Lengths, file: &[u8], list: &[u32]) -> Counted
    requires { Lawful file.now × (rises_from 0 (pages (history file.now)) list.now ≡ true) }
    ensures { CountsAll file.now list.now result }
{
    let mut at = 0;
    let mut p = Spot::start();
    let mut m = Counted {
        opened: 0,
        kept: 0,
        depth: 0,
        greatest: 0,
    };
    // No range: the place goes on by a command's length. No closure handed to one walk for both: what the two
    // share stands in run_from and step_at already.
    loop {
        let from = Run {
            at,
            depth: m.depth,
            greatest: m.greatest,
        };
        let run = walking::run_from(lengths, file, p, from);
        m = m.run_counted(p.here, at, run);
        let Ok(step) = walking::step_at(lengths, file, list, run.at, p) else {
            return m;
        };
        m = m.counted_after(step.fate, step.kind, step.next - step.at);
        if step.kind == Kind::PostPost {
            return m;
        }
        p = step.after;
        at = step.next;
    }
}
