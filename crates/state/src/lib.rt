// The page's state: the eight numbers with rounded h and v beside them, the levels that are saved, the font; a fresh one, and how commands change it.
#![tactic(auto)]

ghost use Rattle.std.specs.Prelude.{◌≡◌, false, ◌+◌, ◌-◌, ◌≤◌, ◌<◌, ◌^◌, length, get_or, nat_abs, ◌+ℤ◌};
ghost use Rattle.state.specs.declared.moving.Direction.TheVariants.{Sideways, Down};
ghost use Rattle.state.specs.declared.moving.Stride.TheVariants.{Rounded};
ghost use Rattle.state.specs.Moving.{leaves};
ghost use Rattle.state.specs.Registers.{fresh_state, pushed, popped};
ghost use Rattle.state.specs.Steps.{page_state, with_level, with_font, Ruled, Bounded, Rounds, zero_kept, level_in, kept_moved_by, kept_past};

use moving::{Direction, KeptSpot, Ruler, Stride};
use names::Name;

pub mod moving;
pub mod registers;

// The eight numbers of a level, by which a command is asked what it does: the position, the registers, the pixel. No fact stands in it (that they are `Bounded`), nor
// in a kept level: definitions of specs/ build both.
#[derive(Clone, Copy)]
pub struct Level {
    pub h: i64,
    pub v: i64,
    pub w: i64,
    pub x: i64,
    pub y: i64,
    pub z: i64,
    pub hh: i64,
    pub vv: i64,
}

// A level as the page keeps it: where it stands sideways and down, and the registers
#[derive(Clone, Copy)]
pub struct KeptLevel {
    pub across: KeptSpot,
    pub down: KeptSpot,
    pub w: i64,
    pub x: i64,
    pub y: i64,
    pub z: i64,
}

// The current font: its number, check sum and scale, and the name that it seeks in the width table; the scale is 0 while none is selected
#[derive(Clone, Copy)]
pub struct Font {
    pub number: u64,
    pub checksum: u64,
    pub scale: u64,
    pub name: Name,
}

// The state of a page. The saved levels are an array with their number beside it, as document 01 has them; it stands last, so that a change of what stands before it copies no array.
#[derive(Drop)]
pub struct Page {
    pub now: KeptLevel,
    pub depth: usize,
    pub font: Font,
    pub stack: [KeptLevel; 100],
}

impl Page {
    // push at depth 100 is refused
    pub const DEPTH: usize = 100;
    // at most 64 fonts
    pub const FONTS: usize = 64;

    // What bop sets: every register zero, an empty stack, no font. The rounding of 0 is 0 by any ruler.
    pub fn fresh() -> Self
        ensures { (page_state result ≡ fresh_state) × (result.depth ≡ 0) × (length result.stack ≡ 100) × (result.now ≡ zero_kept) }
    {
        let origin = KeptSpot {
            position: 0,
            rounded: 0,
            pixel: 0,
        };
        let zero = KeptLevel {
            across: origin,
            down: origin,
            w: 0,
            x: 0,
            y: 0,
            z: 0,
        };
        Page {
            now: zero,
            depth: 0,
            font: Font {
                number: 0,
                checksum: 0,
                scale: 0,
                name: Name::ANY,
            },
            stack: [zero; Page::DEPTH],
        }
    }

    // Sideways by n, in the stride that the caller names. What stands for down is left alone.
    pub fn sideways(mut self, ruler: Ruler, stride: Stride, n: i64) -> Self
        requires ruled { Ruled ruler self.font.scale × Bounded (level_in self.now) × Rounds ruler.k self.now.across }
        requires n_bound { (nat_abs n ≤ 2 ^ 31) × (leaves (self.now.across.position +ℤ n) ≡ false) }
        ensures value { result ≡ with_level self (kept_moved_by Sideways stride ruler self.font.scale n self.now) }
        ensures down_value { result.now.down ≡ self.now.down }
    {
        let scale = self.font.scale;
        let across = moving::move_by(
            Direction::Sideways,
            stride,
            ruler,
            scale,
            n,
            self.now.across,
        );
        self.now.across = across;
        self
    }

    // Down by n: the rounded stride is the only one. What stands for sideways is left alone.
    pub fn down(mut self, ruler: Ruler, n: i64) -> Self
        requires ruled { Ruled ruler self.font.scale × Bounded (level_in self.now) × Rounds ruler.k self.now.down }
        requires n_bound { (nat_abs n ≤ 2 ^ 31) × (leaves (self.now.down.position +ℤ n) ≡ false) }
        ensures value { result ≡ with_level self (kept_moved_by Down Rounded ruler self.font.scale n self.now) }
        ensures across_value { result.now.across ≡ self.now.across }
    {
        let scale = self.font.scale;
        let down = moving::move_by(
            Direction::Down,
            Stride::Rounded,
            ruler,
            scale,
            n,
            self.now.down,
        );
        self.now.down = down;
        self
    }

    // Past a character that was set: by its width, and by the table's escapement in pixels. What stands for down is left alone.
    pub fn past_character(mut self, ruler: Ruler, width: i64, escapement: i64) -> Self
        requires ruled { Ruled ruler self.font.scale × Bounded (level_in self.now) × Rounds ruler.k self.now.across }
        requires width_bound { (nat_abs width ≤ 2 ^ 31) × (nat_abs escapement ≤ 2 ^ 31) × (leaves (self.now.across.position +ℤ width) ≡ false) }
        ensures value { result ≡ with_level self (kept_past ruler width escapement self.now) }
        ensures down_value { result.now.down ≡ self.now.down }
    {
        self.now.across = moving::move_past(ruler, width, escapement, self.now.across);
        self
    }

    // At a level that a register has moved: the loop over a page finds it first, where its branches copy no array.
    pub fn moved_to(mut self, level: KeptLevel) -> Self
        ensures { result ≡ with_level self level }
    {
        self.now = level;
        self
    }

    // With another font.
    pub fn select(mut self, font: Font) -> Self
        ensures { result ≡ with_font self font }
    {
        self.font = font;
        self
    }

    // One level deeper: the caller has stored the current level above the saved ones, where it copies no array.
    pub fn push(mut self) -> Self
        requires { (self.depth < 100) × (get_or self.stack self.depth zero_kept ≡ self.now) }
        ensures { (page_state result ≡ pushed (page_state self)) × (result.depth ≡ self.depth + 1) × (result.stack ≡ self.stack) × (result.now ≡ self.now) }
    {
        self.depth += 1;
        self
    }

    // Back to the level that was saved last, its roundings with it, which the caller has read, where that copies no array.
    pub fn pop(mut self, last: KeptLevel) -> Self
        requires { (0 < self.depth) × (last ≡ get_or self.stack (self.depth - 1) zero_kept) }
        ensures { (page_state result ≡ popped (page_state self)) × (result.depth ≡ self.depth - 1) × (result.stack ≡ self.stack) × (result.now ≡ last) }
    {
        self.now = last;
        self.depth -= 1;
        self
    }
}
