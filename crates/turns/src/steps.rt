// What a command of a page asks: a turn of the state, and what it adds to the page.
ghost use Rattle.std.specs.Prelude.{◌≡◌, List, ◌≤◌, ◌<◌, ◌^◌, length, nat_abs};
ghost use Rattle.commands.specs.Commands.{Command, Whole};
ghost use Rattle.state.specs.Steps.{Bounded};
ghost use Rattle.turns.specs.Placing.{distance_or};
ghost use Rattle.placements.specs.Steps.{added_of, AddsInWords};
ghost use Rattle.turns.specs.Steps.{Known, KeptFor, terms_setting, CharacterAsks, rule_by, unless_left, plain_turn, register_turn, turn_of, command, MoveFits, RuleAsks, CommandAsks, StepAsks};

use crate::{Asked, Kept, Step, Terms, Turn};
use commands::{Kind, Lengths, Reading, parameters};
use placements::{Adds, Record};
use state::moving::{Direction, Stride};
use state::registers::Register;
use state::{Font, Level, moving, registers};
use widths::blocks;

// Where a page stands as a command is read, with what the page is placed by
#[derive(Clone, Copy)]
pub struct Scene<'a> {
    pub terms: Terms<'a>,
    pub level: Level,
    pub font: Font,
    pub kept: Kept,
    // for the next character's search
    pub hint: usize,
    ghost bounded: { Bounded level },
    ghost known: { Known font },
    // inside ∥ ∥₁, as a ghost field asks of a fact whose proofs need not be equal
    ghost kept_is: { ∥ KeptFor terms.widths font kept ∥₁ },
}

// Where the search for a character starts: records of one font whose codes follow each other are as far apart as their codes.
fn guess(hint: usize, byte: u64) -> usize
    requires { byte < 256 }
{
    hint.saturating_add(byte as usize).saturating_sub(256)
}

// The distance of a move: w0, x0, y0 and z0 have none and take the register.
fn distance_or(register: i64, params: &[u8]) -> i64
    requires { (nat_abs register ≤ 2 ^ 31) × (length params.now ≤ 4) }
    ensures { (result ≡ distance_or register params.now) × (nat_abs result ≤ 2 ^ 31) }
{
    if params.is_empty() {
        return register;
    }
    parameters::distance_of(params)
}

impl Scene<'_> {
    // A command that leaves the hint as it was.
    fn asked(&self, turn: Turn, adds: Adds) -> Asked
        ensures { result ≡ record { turn = turn; adds = adds; hint = self.now.hint } }
    {
        let hint = self.hint;
        Asked { turn, adds, hint }
    }

    // A turn that moves by n in a direction, unless h or v would leave its range.
    fn unless_left(&self, direction: Direction, n: i64, turn: Turn) -> Turn
        requires { nat_abs n ≤ 2 ^ 31 }
        ensures { result ≡ unless_left direction self.now.level n turn }
    {
        if moving::leaves_range(registers::position_of(direction, self.level), n) {
            return Turn::Leave;
        }
        turn
    }

    // What a character asks, set or put.
    fn character(&self, sets: bool, code: i64) -> Asked
        requires { nat_abs code ≤ 2 ^ 31 }
        ensures { CharacterAsks self.now.terms self.now.level self.now.font sets code result }
    {
        let widths = self.terms.widths;
        let kept = self.kept;
        let byte = numbers::to_twos(256, code);
        let near = guess(self.hint, byte);
        let Some(index) = blocks::find(widths, kept.own, kept.any, byte, near) else {
            return self.asked(Turn::Stay, Adds::Missing);
        };
        let metric = widths.metric_of(index);
        let escapement = metric.escapement;
        let adds = Adds::Placed(Record {
            kind: 1,
            font: self.font.number,
            page: self.terms.page,
            hh: self.level.hh,
            vv: self.level.vv,
            content: code,
            extent: escapement,
        });
        let hint = index.saturating_add(256) - byte as usize;
        if !sets {
            let turn = Turn::Stay;
            return Asked { turn, adds, hint };
        }
        let width = scaling::scaled(kept.sixteenfold, metric.width);
        let past = Turn::PastCharacter(width, escapement);
        let turn = self.unless_left(Direction::Sideways, width, past);
        Asked { turn, adds, hint }
    }

    // What a rule adds: a side that is not above 0 gives no record.
    fn rule_adds(&self, height: i64, width: i64) -> Adds
        requires { (nat_abs height ≤ 2 ^ 31) × (nat_abs width ≤ 2 ^ 31) }
        ensures { (added_of result ≡ rule_by self.now.terms self.now.level height width) × AddsInWords result }
    {
        if height <= 0 || width <= 0 {
            return Adds::Nothing;
        }
        let k = self.terms.ruler.k;
        Adds::Placed(Record {
            kind: 2,
            font: 0,
            page: self.terms.page,
            hh: self.level.hh,
            vv: self.level.vv,
            content: units::round_up(k, height),
            extent: units::round_up(k, width),
        })
    }

    // What a rule asks, set or put.
    fn rule(&self, sets: bool, params: &[u8]) -> Asked
        requires { 8 ≤ length params.now }
        ensures { RuleAsks self.now.terms self.now.level sets params.now result }
    {
        let height = parameters::rule_height(params);
        let width = parameters::rule_width(params);
        let adds = self.rule_adds(height, width);
        if !sets {
            return self.asked(Turn::Stay, adds);
        }
        let past = Turn::Sideways(Stride::RoundedUp, width);
        self.asked(self.unless_left(Direction::Sideways, width, past), adds)
    }

    // The turn of a move by its own distance.
    fn plain_turn(&self, direction: Direction, params: &[u8]) -> Turn
        requires { length params.now ≤ 4 }
        ensures { result ≡ plain_turn direction self.now.level params.now }
    {
        let n = parameters::distance_of(params);
        let turn = match direction {
            Direction::Sideways => Turn::Sideways(Stride::Rounded, n),
            Direction::Down => Turn::Down(n),
        };
        self.unless_left(direction, n, turn)
    }

    // The turn of a move by a register.
    fn register_turn(&self, register: Register, params: &[u8]) -> Turn
        requires { length params.now ≤ 4 }
        ensures { result ≡ register_turn register self.now.level params.now }
    {
        let n = distance_or(registers::register_of(register, self.level), params);
        let direction = registers::direction_of(register);
        self.unless_left(direction, n, Turn::ByRegister(register, n))
    }

    // The turn of a command that adds nothing else, by its kind.
    fn turn_of(&self, kind: Kind, params: &[u8]) -> Turn
        requires { MoveFits kind params.now }
        ensures { result ≡ turn_of kind self.now.level params.now }
    {
        match kind {
            Kind::Right => self.plain_turn(Direction::Sideways, params),
            Kind::W => self.register_turn(Register::W, params),
            Kind::X => self.register_turn(Register::X, params),
            Kind::Down => self.plain_turn(Direction::Down, params),
            Kind::Y => self.register_turn(Register::Y, params),
            Kind::Z => self.register_turn(Register::Z, params),
            Kind::Push => Turn::Push,
            Kind::Pop => Turn::Pop,
            Kind::Eop => Turn::End,
            _ => Turn::Stay,
        }
    }

    // What a command of a kind asks.
    fn asked_by(&self, opcode: u8, params: &[u8]) -> Asked
        requires { Whole (command opcode params.now) }
        ensures { (volume : List Command) → CommandAsks (terms_setting self.now.terms volume) self.now.level self.now.font (command opcode params.now) result }
    {
        let kind = Kind::from(opcode);
        match kind {
            Kind::SetCharacter | Kind::PutCharacter => {
                let code = parameters::character_code(opcode, params);
                let sets = opcode < 132;
                self.character(sets, code)
            }
            Kind::SetRule => self.rule(true, params),
            Kind::PutRule => self.rule(false, params),
            Kind::Select => {
                let number = parameters::selected_font(opcode, params);
                self.asked(Turn::Select(number), Adds::Nothing)
            }
            Kind::Special => self.asked(Turn::Stay, Adds::Special),
            _ => self.asked(self.turn_of(kind, params), Adds::Nothing),
        }
    }

    // What the command at a place asks, and the place after it.
    pub fn step_at(&self, lengths: &Lengths, file: &[u8], at: usize) -> Step
        ensures { (volume : List Command) → StepAsks file.now at (terms_setting self.now.terms volume) self.now.level self.now.font result }
    {
        let Ok(reading) = lengths.read(file, at) else {
            let asked = self.asked(Turn::End, Adds::Nothing);
            return Step { asked, next: at };
        };
        let Reading {
            opcode,
            start,
            next,
        } = reading;
        let asked = self.asked_by(opcode, &file[start..next]);
        Step { asked, next }
    }
}
