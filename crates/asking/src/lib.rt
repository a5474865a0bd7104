// What the programs that ask the reader share: a file read whole, a line's words, numbers and bytes in words, and a placed page as lines.
// Each function that writes fails where a write of it fails, and nowhere else.
#![tactic(auto)]

ghost use Rattle.std.specs.Prelude.{◌≡◌, ◌++◌, [], ◌∷◌, IfSome, None, take};
ghost use lib.Chars.{codes};
ghost use Rattle.refusals.specs.Printed.{refusal_text};

use printing::line::Line;
use refusals::Refusal;
use std::io::{Result, Write};

pub mod files;
pub mod lines;
pub mod pages;
pub mod spelled;
pub mod words;

// What answers a line, or arguments, that are no question
pub fn no_input_line() -> Line
    ensures { take result.length result.bytes ≡ codes "no input\n" }
{
    Line::of(b"no input\n")
}

pub fn no_input<W: Write>(out: &mut W) -> Result<()> {
    no_input_line().print(out)
}

// The answer of a question, and where there is none, because the words are no such question, what says so
pub fn or_no_input(answer: Option<Line>) -> Line
    ensures given { IfSome answer (λ line. result ≡ line) }
    ensures none { answer ≡ None → take result.length result.bytes ≡ codes "no input\n" }
{
    answer.unwrap_or_else(no_input_line)
}

// What answers a question that the reader refuses
pub fn refused(refusal: Refusal) -> Line
    ensures { take result.length result.bytes ≡ refusal_text refusal ++ 10 ∷ [] }
{
    Line::of(b"refused")
        .number(u8::from(refusal.reason))
        .text(b" at")
        .number(refusal.place)
        .text(b"\n")
}
