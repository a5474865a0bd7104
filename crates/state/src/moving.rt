// Moving a position and its pixel: one move for both directions and both strides.
ghost use Rattle.std.specs.Prelude.{◌≡◌, false, ◌≤◌, ◌^◌, nat_abs, ◌+ℤ◌};
ghost use Rattle.units.specs.Rounding.{rounded};
ghost use Rattle.units.specs.Steps.{Workable};
ghost use Rattle.state.specs.Moving.{leaves, near, drifted, settled, moved};
ghost use Rattle.state.specs.Steps.{tenths, followed_to, Ruled, spot_in, kept_spot, Rounds};

use units::Ratio;

#[derive(Clone, Copy)]
pub enum Direction {
    Sideways,
    Down,
}

// How the pixel follows a position that moves. No closure in its place: the definition `moved` is over the stride.
#[derive(Clone, Copy)]
pub enum Stride {
    // by the rounded distance where the move is near, else to the rounded position
    Rounded,
    // by the distance rounded up, which is as wide as a bar is drawn; named for bars alone
    RoundedUp,
}

// K and D. That K is workable and D at most 2 is asked where they are used, and no fact that the type keeps: definitions of specs/ build rulers
// (`ruler` of Starred, page's `setting_in`), and a bound of the font's scale stands in the same fact (`Ruled`).
#[derive(Clone, Copy)]
pub struct Ruler {
    pub k: Ratio,
    pub drift: u64,
}

// h with rounded h and hh, or v with rounded v and vv. The order of the fields was measured (docs/DECISIONS.md). That `rounded` is right (`Rounds`) is a fact
// of it and of a K, and definitions of specs/ build it (`kept_spot`, `zero_kept`), so the type keeps it not.
#[derive(Clone, Copy)]
pub struct KeptSpot {
    pub position: i64,
    pub rounded: i64,
    pub pixel: i64,
}

// Whether a position would leave −2,147,483,647 to 2,147,483,647.
pub fn leaves_range(position: i64, n: i64) -> bool
    requires { (nat_abs position ≤ 2 ^ 31) × (nat_abs n ≤ 2 ^ 31) }
    ensures { result ≡ leaves (position +ℤ n) }
{
    2147483647 < (position + n).unsigned_abs()
}

// How many tenths of the font's scale a near move is shorter than.
fn tenths_of(direction: Direction, n: i64) -> u64
    ensures { result ≡ tenths direction n }
{
    match direction {
        Direction::Sideways => { if n < 0 { 9 } else { 2 } }
        Direction::Down => 8,
    }
}

// Whether a move is so small that the pixel moves by the rounded distance.
fn is_near(direction: Direction, n: i64, scale: u64) -> bool
    requires { (nat_abs n ≤ 2 ^ 31) × (scale ≤ 134217727) }
    ensures { result ≡ near direction n scale }
{
    10 * n.unsigned_abs() < tenths_of(direction, n) * scale
}

// The pixel, brought back to within D of the centre, the rounded position, if it is further.
fn held_near(drift: u64, centre: i64, pixel: i64) -> i64
    requires { (drift ≤ 2) × (nat_abs centre ≤ 2 ^ 31) × (nat_abs pixel ≤ 2 ^ 32) }
    ensures { result ≡ drifted drift centre pixel }
{
    let reach = drift as i64;
    pixel.clamp(centre - reach, centre + reach)
}

// The rounded new position: the one that is kept where nothing moves, or where K is 0.
fn rounded_after(k: Ratio, from: KeptSpot, n: i64) -> i64
    requires { Workable k × Rounds k from × (nat_abs from.position ≤ 2 ^ 31) × (nat_abs n ≤ 2 ^ 31) × (leaves (from.position +ℤ n) ≡ false) }
    ensures { result ≡ rounded k (from.position +ℤ n) }
{
    if n == 0 || k.p == 0 {
        return from.rounded;
    }
    units::round(k, from.position + n)
}

// A new position with its rounding, the centre, and the pixel that has moved along, which is held to it.
fn settle(drift: u64, position: i64, centre: i64, pixel: i64) -> KeptSpot
    requires { (drift ≤ 2) × (nat_abs centre ≤ 2 ^ 31) × (nat_abs pixel ≤ 2 ^ 32) }
    ensures { result ≡ record { position = position; rounded = centre; pixel = drifted drift centre pixel } }
{
    KeptSpot {
        position,
        rounded: centre,
        pixel: held_near(drift, centre, pixel),
    }
}

// Past a character: by its width, and by the table's escapement in pixels.
pub fn move_past(ruler: Ruler, width: i64, escapement: i64, from: KeptSpot) -> KeptSpot
    requires workable { Workable ruler.k × (ruler.drift ≤ 2) × Rounds ruler.k from × (nat_abs from.position ≤ 2 ^ 31) × (nat_abs from.pixel ≤ 2 ^ 31) }
    requires width_bound { (nat_abs width ≤ 2 ^ 31) × (nat_abs escapement ≤ 2 ^ 31) × (leaves (from.position +ℤ width) ≡ false) }
    ensures { result ≡ kept_spot ruler.k (settled ruler (from.position +ℤ width) (from.pixel +ℤ escapement)) }
{
    let centre = rounded_after(ruler.k, from, width);
    settle(
        ruler.drift,
        from.position + width,
        centre,
        from.pixel + escapement,
    )
}

// Where a move by n, near or far, takes the pixel. The centre is the rounded new position.
fn follow(near: bool, stride: Stride, ruler: Ruler, n: i64, pixel: i64, centre: i64) -> i64
    requires { Workable ruler.k × (nat_abs n ≤ 2 ^ 31) × (nat_abs pixel ≤ 2 ^ 31) × (nat_abs centre ≤ 2 ^ 31) }
    ensures { (result ≡ followed_to near stride ruler n pixel centre) × (nat_abs result ≤ 2 ^ 32) }
{
    match stride {
        Stride::Rounded => {
            if near {
                pixel + units::round(ruler.k, n)
            } else {
                centre
            }
        }
        Stride::RoundedUp => pixel + units::round_up(ruler.k, n),
    }
}

// A move by n in a direction and a stride. The new position is rounded once, whether the move is near or far.
pub fn move_by(
    direction: Direction,
    stride: Stride,
    ruler: Ruler,
    scale: u64,
    n: i64,
    from: KeptSpot,
) -> KeptSpot
    requires ruled { Ruled ruler scale × Rounds ruler.k from × (nat_abs from.position ≤ 2 ^ 31) × (nat_abs from.pixel ≤ 2 ^ 31) }
    requires n_bound { (nat_abs n ≤ 2 ^ 31) × (leaves (from.position +ℤ n) ≡ false) }
    ensures { result ≡ kept_spot ruler.k (moved direction stride ruler scale n (spot_in from)) }
{
    let near = is_near(direction, n, scale);
    let centre = rounded_after(ruler.k, from, n);
    let pixel = follow(near, stride, ruler, n, from.pixel, centre);
    settle(ruler.drift, from.position + n, centre, pixel)
}
