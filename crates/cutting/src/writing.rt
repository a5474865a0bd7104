// The second walk: the new file's bytes. What opens it goes to the area's front, the other commands that stay behind that.
// What stands together in the old file is copied at once.
// No struct of file, area and Made: each contract would have to say what becomes of all three.
ghost use Rattle.std.specs.Prelude.{◌≡◌, cond, ◌+◌, ◌-◌, ◌≤◌, length};
ghost use Rattle.std.proofs.lemmas.List.Edits.{sets};
ghost use Rattle.numbers.specs.Bytes.{bytes_of};
ghost use Rattle.volume.specs.History.{history};
ghost use Rattle.cutting.specs.Chosen.{is_in};
ghost use Rattle.cutting.specs.CutList.{cut_past};
ghost use Rattle.cutting.specs.Steps.{forms_of, between, made_copied, area_copied, made_opened, mended_form, mended_size, made_mended, made_after, area_turned, RoomToCopy, RoomToTurn, Writable};

use crate::{Counted, Fate, Made, Run, Spot, Step, Totals, walking};
use commands::{Kind, Lengths, fields};

// Where a field of a bop, a post or a post_post starts, counted from the opcode.
const BOP_POINTER: usize = 1 + fields::BOP_POINTER.at;

const POST_POINTER: usize = 1 + fields::POST_POINTER.at;

const POST_DEPTH: usize = 1 + fields::POST_DEPTH.at;

const POST_PAGES: usize = 1 + fields::POST_PAGES.at;

const END_POINTER: usize = 1 + fields::END_POINTER.at;

// −1 in four bytes, read without a sign: the pointer of the first bop. No Option: the file gets this number.
const NO_BOP: usize = 4294967295;

// A pointer, a depth or a number of pages at a place of the area, in so many bytes, by its number without a sign.
fn put_number(out: &mut [u8], at: usize, count: usize, n: usize)
    requires { (at + count ≤ length out.old) × (count ≤ 8) }
    ensures { out.new ≡ sets out.old at (bytes_of count n) }
{
    areas::paste(out, at, &n.to_be_bytes()[8 - count..]);
}

// A bop, a post or a post_post with its numbers mended, where the commands that stay go on.
fn mended(out: &mut [u8], kind: Kind, command: &[u8], totals: Totals, m: Made) -> Made
    requires { (length command.now ≡ mended_size kind) × (m.size + mended_size kind ≤ length out.old) }
    ensures value { result ≡ made_mended kind (mended_size kind) m }
    ensures out_after { out.new ≡ sets out.old m.size (mended_form kind m.bop m.post totals.greatest totals.pages command.now) }
{
    areas::paste_part(out, m.size, command);
    let size = m.size + command.len();
    match kind {
        Kind::Bop => {
            put_number(out, m.size + BOP_POINTER, 4, m.bop);
            Made {
                size,
                bop: m.size,
                ..m
            }
        }
        Kind::Post => {
            put_number(out, m.size + POST_POINTER, 4, m.bop);
            put_number(out, m.size + POST_DEPTH, 2, totals.greatest);
            put_number(out, m.size + POST_PAGES, 2, totals.pages);
            Made {
                size,
                post: m.size,
                ..m
            }
        }
        _ => {
            put_number(out, m.size + END_POINTER, 4, m.post);
            Made { size, ..m }
        }
    }
}

// What was still to be copied, up to a place; the next begins at another.
fn copied(file: &[u8], out: &mut [u8], at: usize, next: usize, m: Made) -> Made
    requires { RoomToCopy file.now at m (length out.old) }
    ensures value { result ≡ made_copied at next m }
    ensures out_after { out.new ≡ area_copied file.now at m out.old }
{
    areas::paste_part(out, m.size, &file[m.from..at]);
    Made {
        from: next,
        size: m.size + (at - m.from),
        ..m
    }
}

// Behind a run: on a chosen page there is more to copy, elsewhere its commands go.
fn run_passed(file: &[u8], out: &mut [u8], at: usize, run: usize, here: bool, m: Made) -> Made
    requires { RoomToCopy file.now at m (length out.old) }
    ensures value { result ≡ cond here m (made_copied at run m) }
    ensures out_after { out.new ≡ cond here out.old (area_copied file.now at m out.old) }
{
    if here {
        return m;
    }
    copied(file, out, at, run, m)
}

// A command of the opening, where the opening goes on.
fn opened(file: &[u8], out: &mut [u8], at: usize, next: usize, m: Made) -> Made
    requires { (at ≤ next) × (next ≤ length file.now) × (m.opened + (next - at) ≤ length out.old) }
    ensures value { result ≡ made_opened (next - at) m }
    ensures out_after { out.new ≡ sets out.old m.opened (between at next file.now) }
{
    areas::paste_part(out, m.opened, &file[at..next]);
    Made {
        opened: m.opened + (next - at),
        ..m
    }
}

// After one more command.
fn turn(file: &[u8], out: &mut [u8], step: Step, totals: Totals, m: Made) -> Made
    requires { RoomToTurn step.fate step.kind file.now step.at step.next m (length out.old) }
    ensures value { result ≡ made_after step.fate step.kind step.at step.next m }
    ensures out_after { out.new ≡ area_turned step.fate step.kind totals.greatest totals.pages file.now step.at step.next m out.old }
{
    match step.fate {
        Fate::Copied => m,
        Fate::Dropped => copied(file, out, step.at, step.next, m),
        Fate::Opening => {
            let after = copied(file, out, step.at, step.next, m);
            opened(file, out, step.at, step.next, after)
        }
        Fate::Mended => {
            let after = copied(file, out, step.at, step.next, m);
            mended(out, step.kind, &file[step.at..step.next], totals, after)
        }
    }
}

// The walk over all commands, by the counts of the first.
pub fn write(lengths: &Lengths, file: &[u8], list: &[u32], counted: Counted, out: &mut [u8])
    requires { Writable file.now list.now counted (length out.old) }
    ensures { out.new ≡ sets out.old 0 (forms_of (cut_past (is_in list.now) (history file.now))) }
{
    let mut at = 0;
    let mut p = Spot::start();
    let mut m = Made {
        from: 0,
        opened: 0,
        size: counted.opened,
        bop: NO_BOP,
        post: 0,
    };
    // No range: the place goes on by a command's length. No closure handed to one walk for both: what the two
    // share stands in run_from and step_at already.
    loop {
        let from = Run {
            at,
            depth: 0,
            greatest: 0,
        };
        let run = walking::run_from(lengths, file, p, from).at;
        m = run_passed(file, out, at, run, p.here, m);
        let Ok(step) = walking::step_at(lengths, file, list, run, p) else {
            return;
        };
        let totals = Totals {
            greatest: counted.greatest,
            pages: p.met,
        };
        m = turn(file, out, step, totals, m);
        if step.kind == Kind::PostPost {
            return;
        }
        p = step.after;
        at = step.next;
    }
}
