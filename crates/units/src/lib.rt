// Distances in pixels: K in lowest terms, D, and rounding by K.
#![tactic(auto)]

ghost use Rattle.std.specs.Prelude.{◌≡◌, ◌<◌, ◌≤◌, ◌^◌, nat_abs};
ghost use Rattle.refusals.specs.Answer.{answered};
ghost use Rattle.units.specs.Divisor.{common_divisor, lowest};
ghost use Rattle.units.specs.Unit.{in_range, unit_of, drift};
ghost use Rattle.units.specs.Rounding.{nearest_whole, rounded, rounded_up};
ghost use Rattle.units.specs.Steps.{product, Cancelled, Units, Workable};

use refusals::{Reason, Refusal};

// P/Q. What `Workable` says of it is no ghost field: specs/Divisor and specs/LowestTerms build values of this type.
#[derive(Clone, Copy)]
pub struct Ratio {
    pub p: u64,
    pub q: u64,
}

// what is left of num, mag and R above the line, and of den and 1000 × 254000 below it
#[derive(Clone, Copy)]
pub struct Factors {
    pub num: u64,
    pub mag: u64,
    pub resolution: u64,
    pub den: u64,
    pub inch: u64,
}

// The common divisor: b takes the place of a, the remainder of a by b that of b, until b is 0.
pub fn common_divisor(a: u64, b: u64) -> u64
    ensures { result ≡ common_divisor a b }
{
    if b == 0 { a } else { common_divisor(b, a % b) }
}

// a/b in lowest terms.
pub fn lowest_terms(a: u64, b: u64) -> Ratio
    requires { 0 < a }
    ensures { result ≡ lowest a b }
{
    let divisor = common_divisor(a, b);
    Ratio {
        p: a / divisor,
        q: b / divisor,
    }
}

// Each factor above the line is cancelled against each below it. num, den and mag stay parameters: a file's preamble and a caller's three numbers both come to them.
fn cancelled(num: u64, den: u64, mag: u64, resolution: u64) -> Factors
    requires units { Units num den mag }
    requires resolution_nonzero { 0 < resolution }
    ensures { Cancelled num den mag resolution result }
{
    let num_den = lowest_terms(num, den);
    let mag_den = lowest_terms(mag, num_den.q);
    let resolution_den = lowest_terms(resolution, mag_den.q);
    let num_inch = lowest_terms(num_den.p, 254000000);
    let mag_inch = lowest_terms(mag_den.p, num_inch.q);
    let resolution_inch = lowest_terms(resolution_den.p, mag_inch.q);
    Factors {
        num: num_inch.p,
        mag: mag_inch.p,
        resolution: resolution_inch.p,
        den: resolution_den.q,
        inch: resolution_inch.q,
    }
}

// P/Q from its factors, or 13. A product that is out of range already is not carried on.
fn multiplied(f: Factors) -> Result<Ratio, Refusal>
    requires num_bound { (f.num < 2 ^ 31) × (f.mag < 2 ^ 31) × (0 < f.resolution) × (f.resolution ≤ 10000) × (f.den < 2 ^ 31) }
    requires inch_bound { f.inch ≤ 254000000 }
    ensures { answered result ≡ in_range (product f.num f.mag f.resolution f.den f.inch) }
{
    let out = Refusal {
        reason: Reason::UnitOutOfRange,
        place: 0,
    };
    let most = f.num * f.mag;
    if 1073741823 < most {
        return Err(out);
    }
    let p = most * f.resolution;
    let q = f.den * f.inch;
    if 1073741823 < p || q < 2 * p {
        return Err(out);
    }
    Ok(Ratio { p, q })
}

// K = num × mag × R / (den × 1000 × 254000) in lowest terms, or 12 or 13.
pub fn unit_of(num: u64, den: u64, mag: u64, resolution: u64) -> Result<Ratio, Refusal>
    requires { Units num den mag }
    ensures { answered result ≡ unit_of num den mag resolution }
{
    if !(1..=10000).contains(&resolution) {
        return Err(Refusal {
            reason: Reason::WrongResolution,
            place: 0,
        });
    }
    multiplied(cancelled(num, den, mag, resolution))
}

// D: how far a pixel may be from the rounded position.
pub fn drift_of(resolution: u64) -> u64
    ensures { result ≡ drift resolution }
{
    match resolution {
        200.. => 2,
        100.. => 1,
        _ => 0,
    }
}

// The whole part of K × m + 1/2.
#[tactic(auto, unfolding(crate::specs::Rounding::nearest_whole))]
fn nearest_whole(k: Ratio, m: u64) -> u64
    requires { Workable k × (m ≤ 2 ^ 31) }
    ensures { result ≡ nearest_whole k m }
{
    (2 * k.p * m + k.q) / (2 * k.q)
}

// n in pixels, to the nearest; a half goes away from 0.
pub fn round(k: Ratio, n: i64) -> i64
    requires { Workable k × (nat_abs n ≤ 2 ^ 31) }
    ensures { result ≡ rounded k n }
{
    numbers::with_sign(n, nearest_whole(k, n.unsigned_abs()))
}

// K × n rounded up, towards plus infinity.
pub fn round_up(k: Ratio, n: i64) -> i64
    requires { Workable k × (nat_abs n ≤ 2 ^ 31) }
    ensures { result ≡ rounded_up k n }
{
    let p = k.p;
    let q = k.q;
    let m = n.unsigned_abs();
    if n < 0 {
        numbers::with_sign(n, p * m / q)
    } else {
        numbers::with_sign(n, (p * m + (q - 1)) / q)
    }
}
