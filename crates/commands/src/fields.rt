// The fields among the parameters of commands, by the names, places and sizes of specs/Fields.antt.
ghost use Rattle.std.specs.Prelude.{◌≡◌, ◌+◌, ◌≤◌, ◌<◌, ◌^◌, length, nat_abs};
ghost use Rattle.commands.specs.Fields.{unsigned_in, signed_in};

// A field without a sign: where it starts, and how many bytes it has. This and the next are two types, so that no field is read with the wrong sign,
// and not one with a parameter: definitions of specs/Fields build both by their fields (`as_signed`), and a parameter that no field holds says no more.
#[derive(Clone, Copy)]
pub struct UnsignedField {
    pub at: usize,
    pub size: usize,
}

// A field with a sign
#[derive(Clone, Copy)]
pub struct SignedField {
    pub at: usize,
    pub size: usize,
}

pub const RULE_HEIGHT: SignedField = SignedField { at: 0, size: 4 };

pub const RULE_WIDTH: SignedField = SignedField { at: 4, size: 4 };

pub const BOP_POINTER: SignedField = SignedField { at: 40, size: 4 };

pub const PRE_IDENTIFICATION: UnsignedField = UnsignedField { at: 0, size: 1 };

pub const PRE_NUM: UnsignedField = UnsignedField { at: 1, size: 4 };

pub const PRE_DEN: UnsignedField = UnsignedField { at: 5, size: 4 };

pub const PRE_MAG: UnsignedField = UnsignedField { at: 9, size: 4 };

pub const PRE_COMMENT_LENGTH: UnsignedField = UnsignedField { at: 13, size: 1 };

pub const POST_POINTER: SignedField = SignedField { at: 0, size: 4 };

pub const POST_NUM: UnsignedField = UnsignedField { at: 4, size: 4 };

pub const POST_DEN: UnsignedField = UnsignedField { at: 8, size: 4 };

pub const POST_MAG: UnsignedField = UnsignedField { at: 12, size: 4 };

pub const POST_DEPTH: UnsignedField = UnsignedField { at: 24, size: 2 };

pub const POST_PAGES: UnsignedField = UnsignedField { at: 26, size: 2 };

pub const END_POINTER: SignedField = SignedField { at: 0, size: 4 };

pub const END_IDENTIFICATION: UnsignedField = UnsignedField { at: 4, size: 1 };

// The opcodes before xxx1, before fnt1 and before fnt_def1: an opcode is as far above as its first number has bytes.
// Numbers and no enum: they are ends of ranges, and are subtracted; kinds are `Kind`.
pub const BEFORE_SPECIAL: u8 = 238;

pub const BEFORE_SELECTION: u8 = 234;

pub const BEFORE_DEFINITION: u8 = FNT_DEF1 - 1;

pub const FNT_DEF1: u8 = 243;

pub const FNT_DEF4: u8 = 246;

pub const DEFINITION_CHECKSUM: UnsignedField = UnsignedField { at: 0, size: 4 };

pub const DEFINITION_SCALE: UnsignedField = UnsignedField { at: 4, size: 4 };

pub const DEFINITION_DESIGN_SIZE: UnsignedField = UnsignedField { at: 8, size: 4 };

pub const DEFINITION_AREA_LENGTH: UnsignedField = UnsignedField { at: 12, size: 1 };

pub const DEFINITION_NAME_LENGTH: UnsignedField = UnsignedField { at: 13, size: 1 };

// Where the name starts in a definition, counted as its other fields are from after the font's number.
pub const DEFINITION_NAME: usize = DEFINITION_NAME_LENGTH.at + DEFINITION_NAME_LENGTH.size;

// The number in a field without a sign.
pub fn unsigned_in(field: UnsignedField, params: &[u8]) -> u64
    requires { (field.at + field.size ≤ length params.now) × (field.size ≤ 8) }
    ensures value { result ≡ unsigned_in field params.now }
    ensures upper_bound { result < 256 ^ field.size }
{
    numbers::unsigned_at(params, field.at, field.size)
}

// The number in a field with a sign.
pub fn signed_in(field: SignedField, params: &[u8]) -> i64
    requires { (field.at + field.size ≤ length params.now) × (field.size ≤ 4) }
    ensures value { result ≡ signed_in field params.now }
    ensures result_bound { nat_abs result ≤ 2 ^ 31 }
{
    numbers::signed_at(params, field.at, field.size)
}
