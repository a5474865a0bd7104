// A font's name as width records have it: sixteen bytes, held as two numbers so that names are compared as numbers.
#![tactic(auto)]

ghost use Rattle.std.specs.Prelude.{◌≡◌, ◌+◌, ◌≤◌, length};
ghost use Rattle.names.specs.Names.{has_zero, all_zeros, name_then_zeros, name_at, sought_name};
ghost use Rattle.names.specs.Steps.{InEights};

// How many bytes of name a width record has.
pub const NAME_SIZE: usize = 16;

// The first eight bytes of a name, and the last eight
#[derive(Clone, Copy, PartialEq, Eq)]
pub struct Name {
    pub high: u64,
    pub low: u64,
}

impl Name {
    // Sixteen zeros, which stand for any name.
    pub const ANY: Name = Name { high: 0, low: 0 };
}

// The name at a place.
pub fn name_at(bytes: &[u8], at: usize) -> Name
    requires { at + 16 ≤ length bytes.now }
    ensures { (result ≡ name_at bytes.now at) × InEights result }
{
    Name {
        high: numbers::unsigned_at(bytes, at, 8),
        low: numbers::unsigned_at(bytes, at + 8, 8),
    }
}

// Whether there is a zero among the bytes.
fn has_zero(bytes: &[u8]) -> bool
    ensures { result ≡ has_zero bytes.now }
{
    bytes.contains(&0)
}

// The name that a font of this name seeks.
pub fn sought_name(name: &[u8]) -> Name
    ensures { (result ≡ sought_name name.now) × InEights result }
{
    if NAME_SIZE < name.len() {
        return Name::ANY;
    }
    if has_zero(name) {
        return Name::ANY;
    }
    let mut bytes = [0u8; NAME_SIZE];
    areas::paste(&mut bytes, 0, name);
    name_at(&bytes, 0)
}

// Whether all bytes are zeros.
fn only_zeros(bytes: &[u8]) -> bool
    ensures { result ≡ all_zeros bytes.now }
{
    for byte in bytes {
        if *byte != 0 {
            return false;
        }
    }
    true
}

// Whether behind a zero there are zeros and nothing else.
pub fn lawful_name(bytes: &[u8]) -> bool
    ensures { result ≡ name_then_zeros bytes.now }
{
    for (index, byte) in bytes.iter().enumerate() {
        if *byte == 0 {
            return only_zeros(&bytes[index..]);
        }
    }
    true
}
