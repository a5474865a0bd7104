// A line put together before it is written, so that it is one write, which the pieces of a `write!` would not be.
ghost use Rattle.std.specs.Prelude.{◌≡◌, ◌+◌, ◌≤◌, ◌++◌, [], ◌∷◌, length, take};
ghost use Rattle.std.specs.Fmt.{signed_decimal};
ghost use Rattle.std.specs.Fmt.Cut.{IsTextOrCut};

use crate::block::Block;
use itoa::{Buffer, Integer};
use std::fmt::InlineText;

// No answer is longer than a line: each piece asks for its room, so none is cut, as format_args! into the library's InlineText might be. Only `number` takes a word of any length.
pub type Line = Block<160>;

impl Line {
    pub fn of(text: &[u8]) -> Line
        requires { length text.now ≤ 160 }
        ensures length { result.length ≡ length text.now }
        ensures held { take result.length result.bytes ≡ text.now }
    {
        Line::empty().text(text)
    }

    // The line with a text more
    pub fn text(mut self, text: &[u8]) -> Line
        requires { self.length + length text.now ≤ 160 }
        ensures length { result.length ≡ self.length + length text.now }
        ensures held { take result.length result.bytes ≡ take self.length self.bytes ++ text.now }
    {
        self.push(text);
        self
    }

    // The line with a blank and a number more
    pub fn number<I: Integer>(self, n: I) -> Line
        requires { self.length + 1 + I.MAX_STR_LEN ≤ 160 }
        ensures length { result.length ≤ self.length + 1 + I.MAX_STR_LEN }
        ensures held { take result.length result.bytes ≡ take self.length self.bytes ++ 32 ∷ I.text n }
    {
        self.text(b" ").text(Buffer::new().format(n).as_bytes())
    }
}

// A word that leaves room for any number, and the number
pub fn word_and_number(word: &str, n: i64) -> Line
    requires { length word.now ≤ 138 }
    ensures { take result.length result.bytes ≡ word.now ++ 32 ∷ signed_decimal n ++ 10 ∷ [] }
{
    Line::of(word.as_bytes()).number(n).text(b"\n")
}

// A word of any length and a number. Where a line has no room for the whole, the library cuts it, and it ends in dots.
pub fn number(word: &str, n: i64) -> Line
    ensures whole { length word.now ≤ 138 → take result.length result.bytes ≡ word.now ++ 32 ∷ signed_decimal n ++ 10 ∷ [] }
    ensures or_cut { IsTextOrCut 160 (word.now ++ 32 ∷ signed_decimal n ++ 10 ∷ []) (take result.length result.bytes) }
{
    if word.len() <= 138 {
        return word_and_number(word, n);
    }
    let text: InlineText<160> = InlineText::of(format_args!("{word} {n}\n"));
    Line::of(text.as_str().as_bytes())
}

#[cfg(test)]
mod tests {
    use super::*;

    // Counted by hand: a line has 160 bytes, and what has no room is cut for three dots.
    #[test]
    fn a_word_of_any_length(rt: HostRuntime) {
        let x = [b'x'; 200];
        for (length, n, kept, end) in [
            (0, 0, 0, &b" 0\n"[..]),
            (138, i64::MIN, 138, b" -9223372036854775808\n"),
            (139, 7, 139, b" 7\n"),
            (157, 7, 157, b" 7\n"),
            (157, -7, 157, b"..."),
            (158, 7, 157, b"..."),
            (200, 7, 157, b"..."),
        ] {
            let word = str::from_utf8(&x[..length]).unwrap_or("");
            let line = number(word, n);
            let held = line.held();
            assert!(rt; held.ends_with(end), "{length} {n}");
            assert_eq!(rt; held.len(), kept + end.len(), "{length} {n}");
            assert_eq!(rt;
                held.iter().filter(|byte| **byte == b'x').count(),
                kept,
                "{length} {n}"
            );
        }
    }
}
