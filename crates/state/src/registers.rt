// A level by direction and by register, and its eight numbers.
ghost use Rattle.std.specs.Prelude.{◌≡◌, false, ◌≤◌, ◌^◌, nat_abs, ◌+ℤ◌};
ghost use Rattle.state.specs.Moving.{leaves};
ghost use Rattle.state.specs.Registers.{spot_of, register_of, direction_of};
ghost use Rattle.state.specs.Steps.{Ruled, Bounded, Rounds, level_in, other, kept_spot_of, at_kept_spot, kept_with_register, kept_moved_by};

use crate::moving::{Direction, KeptSpot, Ruler, Stride};
use crate::{KeptLevel, Level, moving};

// No closures in place of it: the definitions `register_of` and `direction_of` are over the register.
#[derive(Clone, Copy)]
pub enum Register {
    W,
    X,
    Y,
    Z,
}

// The eight numbers of a kept level. A view that leaves the roundings out, and so by its own name and not by `From`.
pub fn level_of(kept: KeptLevel) -> Level
    ensures { result ≡ level_in kept }
{
    let KeptLevel {
        across,
        down,
        w,
        x,
        y,
        z,
    } = kept;
    Level {
        h: across.position,
        v: down.position,
        w,
        x,
        y,
        z,
        hh: across.pixel,
        vv: down.pixel,
    }
}

// h or v.
pub fn position_of(direction: Direction, level: Level) -> i64
    ensures { result ≡ (spot_of direction level).position }
{
    match direction {
        Direction::Sideways => level.h,
        Direction::Down => level.v,
    }
}

// Where a level stands in a direction.
fn spot_of(direction: Direction, level: KeptLevel) -> KeptSpot
    ensures { result ≡ kept_spot_of direction level }
{
    match direction {
        Direction::Sideways => level.across,
        Direction::Down => level.down,
    }
}

// The level that stands elsewhere in a direction. The other direction's numbers are left alone.
fn at_spot(direction: Direction, spot: KeptSpot, level: KeptLevel) -> KeptLevel
    ensures { result ≡ at_kept_spot direction spot level }
{
    match direction {
        Direction::Sideways => KeptLevel {
            across: spot,
            ..level
        },
        Direction::Down => KeptLevel {
            down: spot,
            ..level
        },
    }
}

// w and x move sideways, y and z down.
pub fn direction_of(register: Register) -> Direction
    ensures { result ≡ direction_of register }
{
    match register {
        Register::W | Register::X => Direction::Sideways,
        Register::Y | Register::Z => Direction::Down,
    }
}

// What a register holds.
pub fn register_of(register: Register, level: Level) -> i64
    ensures { result ≡ register_of register level }
{
    match register {
        Register::W => level.w,
        Register::X => level.x,
        Register::Y => level.y,
        Register::Z => level.z,
    }
}

// The level with n in a register.
fn with_register(register: Register, n: i64, level: KeptLevel) -> KeptLevel
    ensures { result ≡ kept_with_register register n level }
{
    match register {
        Register::W => KeptLevel { w: n, ..level },
        Register::X => KeptLevel { x: n, ..level },
        Register::Y => KeptLevel { y: n, ..level },
        Register::Z => KeptLevel { z: n, ..level },
    }
}

// The level with n in a register, moved by n in the register's direction and a stride. What stands for the other direction is left alone.
pub fn moved_by_register(
    register: Register,
    stride: Stride,
    ruler: Ruler,
    scale: u64,
    n: i64,
    level: KeptLevel,
) -> KeptLevel
    requires ruled { Ruled ruler scale × Bounded (level_in level) × Rounds ruler.k (kept_spot_of (direction_of register) level) }
    requires n_bound { (nat_abs n ≤ 2 ^ 31) × (leaves ((spot_of (direction_of register) (level_in level)).position +ℤ n) ≡ false) }
    ensures value { result ≡ kept_moved_by (direction_of register) stride ruler scale n (kept_with_register register n level) }
    ensures result_value { kept_spot_of (other (direction_of register)) result ≡ kept_spot_of (other (direction_of register)) level }
{
    let direction = direction_of(register);
    let holding = with_register(register, n, level);
    let spot = moving::move_by(
        direction,
        stride,
        ruler,
        scale,
        n,
        spot_of(direction, holding),
    );
    at_spot(direction, spot, holding)
}
