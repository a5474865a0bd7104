// The output area: bytes written at a place of it.
#![tactic(auto)]

ghost use Rattle.std.specs.Prelude.{◌≡◌, ◌++◌, ◌+◌, ◌≤◌, length, take, drop};

// Bytes at a place of an area that has room for them; no other byte changes.
pub fn paste(out: &mut [u8], at: usize, bytes: &[u8])
    requires { at + length bytes.now ≤ length out.old }
    ensures { out.new ≡ take at out.old ++ bytes.now ++ drop (at + length bytes.now) out.old }
{
    out[at..at + bytes.len()].copy_from_slice(bytes);
}

// The same, for a part of a file, of any length. A loop of its own: of copy_from_slice between two lent slices whose length it doesn't know the compiler makes
// memmove, which the archive for C would then need of its linker, beside memcpy and memset. Where the length is known `paste` is better: this loop would go byte
// by byte, and widening a table was seen to take half as long again to twice as long.
pub fn paste_part(out: &mut [u8], at: usize, bytes: &[u8])
    requires { at + length bytes.now ≤ length out.old }
    ensures { out.new ≡ take at out.old ++ bytes.now ++ drop (at + length bytes.now) out.old }
{
    for index in 0..bytes.len() {
        out[at + index] = bytes[index];
    }
}
