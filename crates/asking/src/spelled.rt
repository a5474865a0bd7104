// Bytes in words: two lower-case hexadecimal digits each, and a dash for none, so that no word is empty.
ghost use Rattle.std.specs.Prelude.{◌≡◌, ◌<◌, length, IfSome};
ghost use Rattle.io.specs.Counts.{IsPrefixLen};
ghost use Rattle.asking.specs.Hexadecimal.{digit_of, byte_of_pair, pairs_within, spelled_within, said_in};

// How many of the buffer the bytes are that a word says; none where it says none or more than the buffer holds
pub fn read_bytes(word: &[u8], buffer: &mut [u8]) -> Option<usize>
    ensures result_after { said_in buffer.new result ≡ spelled_within (length buffer.old) word.now }
    ensures prefix_len { IfSome result (λ count. IsPrefixLen count buffer.new) }
{
    if word.is_empty() {
        return None;
    }
    if word == b"-".as_slice() {
        return Some(0);
    }
    read_pairs(word, buffer)
}

fn read_pairs(word: &[u8], buffer: &mut [u8]) -> Option<usize>
    ensures result_after { said_in buffer.new result ≡ pairs_within (length buffer.old) word.now }
    ensures prefix_len { IfSome result (λ count. IsPrefixLen count buffer.new) }
{
    let count = word.len() / 2;
    if word.len() % 2 == 1 || buffer.len() < count {
        return None;
    }
    // By index: over pairs zipped with the buffer's bytes, the proof does not close.
    for done in 0..count {
        buffer[done] = byte_of_pair(word[2 * done], word[2 * done + 1])?;
    }
    Some(count)
}

fn byte_of_pair(high: u8, low: u8) -> Option<u8>
    ensures { result ≡ byte_of_pair high low }
{
    Some(digit(high)? * 16 + digit(low)?)
}

// A digit's value: a capital letter has none.
fn digit(sign: u8) -> Option<u8>
    ensures value { result ≡ digit_of sign }
    ensures upper_bound { IfSome result (λ value. value < 16) }
{
    match sign {
        b'0'..=b'9' => Some(sign - b'0'),
        b'a'..=b'f' => Some(sign - b'a' + 10),
        _ => None,
    }
}
