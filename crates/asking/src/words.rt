// Decimal numbers in words. The library's own reading takes a plus sign too, which rule 10.2 does not: so these read digit by digit.
ghost use Rattle.std.specs.Prelude.{◌≡◌, cond};
ghost use Rattle.std.specs.declared.option.Option.TheVariants.{Some, None};
ghost use Rattle.asking.specs.Decimal.{decimal_of, may_follow, appended, AtMost, unsigned32_of, byte_of, signed32_of};

// One digit or more and nothing else, up to a greatest number.
pub fn read_unsigned(word: &[u8], most: u64) -> Option<u64>
    ensures value { result ≡ decimal_of most word.now }
    ensures at_most { AtMost most result }
{
    if word.is_empty() {
        return None;
    }
    let mut value: u64 = 0;
    for byte in word {
        value = with_digit(most, value, *byte)?;
    }
    Some(value)
}

// The number with a digit more; none where the byte is no digit, or makes a number above the greatest.
fn with_digit(most: u64, value: u64, byte: u8) -> Option<u64>
    ensures value { result ≡ cond (may_follow most value byte) (Some (appended value byte)) None }
    ensures at_most { AtMost most result }
{
    let b'0'..=b'9' = byte else {
        return None;
    };
    let more = value.checked_mul(10)?.checked_add(u64::from(byte - b'0'))?;
    if more <= most { Some(more) } else { None }
}

// This and `read_byte` differ in a type and a bound alone: one generic function would have to be handed both.
pub fn read_unsigned32(word: &[u8]) -> Option<u32>
    ensures { result ≡ unsigned32_of word.now }
{
    Some(read_unsigned(word, 4294967295)? as u32)
}

pub fn read_byte(word: &[u8]) -> Option<u8>
    ensures { result ≡ byte_of word.now }
{
    Some(read_unsigned(word, 255)? as u8)
}

// A minus may stand before the digits.
pub fn read_signed32(word: &[u8]) -> Option<i32>
    ensures { result ≡ signed32_of word.now }
{
    match word {
        [b'-', digits @ ..] => Some(-(read_unsigned(digits, 2147483648)? as i64) as i32),
        _ => Some(read_unsigned(word, 2147483647)? as i32),
    }
}
