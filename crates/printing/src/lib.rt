// Texts, written to what the caller lends. Each function that writes fails where a write of it fails, and nowhere else.
#![tactic(auto)]

ghost use Rattle.std.specs.Prelude.{◌≡◌, ◌<◌, ◌/◌, ◌%◌, false, [], ◌∷◌, OnOk};
ghost use Rattle.std.specs.Fmt.{digit_glyph};
ghost use Rattle.std.specs.Io.KnownBytes.{Appends};

use std::io::{Result, Write};

pub mod block;
pub mod line;
pub mod rows;

pub fn text<W: Write>(out: &mut W, bytes: &[u8]) -> Result<()>
    ensures { OnOk result (Appends (W.contents out.old) (W.contents out.new) bytes.now) }
{
    out.write_all(bytes)
}

// Bytes as two lower-case digits each
pub fn hexadecimal<W: Write>(out: &mut W, bytes: &[u8]) -> Result<()> {
    for byte in bytes {
        text(out, &pair(*byte))?;
    }
    Ok(())
}

// A byte as two lower-case digits. They are gathered as bytes, where the library's {:02x} writes a text and does not promise that it was written: so it is done here.
pub fn pair(byte: u8) -> [u8; 2]
    ensures { result ≡ digit_glyph false (byte / 16) ∷ digit_glyph false (byte % 16) ∷ [] }
{
    [digit(byte / 16), digit(byte % 16)]
}

pub fn digit(n: u8) -> u8
    requires { n < 16 }
    ensures { result ≡ digit_glyph false n }
{
    if n < 10 {
        return b'0' + n;
    }
    b'a' + (n - 10)
}
