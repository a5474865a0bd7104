// Scaling a width, from TeX and DVItype.
#![tactic(auto)]

ghost use Rattle.std.specs.Prelude.{◌≡◌, true, ◌≤◌, ◌<◌, ◌^◌};
ghost use Rattle.numbers.specs.Sizes.{lawful_size};
ghost use Rattle.scaling.specs.Scaling.{scaled_by, lawful_first};
ghost use Rattle.scaling.specs.Steps.{sixteenfold_of, width_from};

// A TFM fix word: its four bytes, the highest first
#[derive(Clone, Copy)]
pub struct FixWord {
    pub b0: u8,
    pub b1: u8,
    pub b2: u8,
    pub b3: u8,
}

// Sixteen times the scale, less the bits that halving loses: α × z. While z is 8,388,608 or more, z is halved downwards and α doubled.
pub fn sixteenfold_of(scale: u64) -> u64
    requires { scale ≤ 134217727 }
    ensures { result ≡ sixteenfold_of scale }
{
    let mut z = scale;
    let mut alpha: u64 = 16;
    // no range: how often z is halved is what the loop finds
    while 8388608 <= z {
        z /= 2;
        alpha *= 2;
    }
    alpha * z
}

// The width of a fix word, from the sixteenfold of its scale: one product and one division. The last three bytes are 2^24ths of the sixteenfold; a first byte
// of 255 takes it away once. The divisor is a power of two and the same at every scale, so the compiler makes the division a shift.
pub fn scaled(sixteenfold: u64, w: FixWord) -> i64
    requires { sixteenfold < 2 ^ 31 }
    ensures { result ≡ width_from sixteenfold w }
{
    let fraction = u64::from(w.b1) * 65536 + u64::from(w.b2) * 256 + u64::from(w.b3);
    let positive = fraction * sixteenfold / 16777216;
    if w.b0 == 255 {
        positive as i64 - sixteenfold as i64
    } else {
        positive as i64
    }
}

// Whether a width's first byte is 0 or 255.
pub fn lawful_first(b0: u8) -> bool
    ensures { result ≡ lawful_first b0 }
{
    matches!(b0, 0 | 255)
}

// The width of a fix word at a scale.
pub fn scale_width(scale: u64, w: FixWord) -> i64
    requires { lawful_size scale ≡ true }
    ensures { result ≡ scaled_by scale w }
{
    scaled(sixteenfold_of(scale), w)
}
