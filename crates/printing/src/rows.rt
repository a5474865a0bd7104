// Rows of bytes as lines of two lower-case digits a byte.
ghost use Rattle.std.specs.Prelude.{◌<◌};

use crate::block::Block;
use std::io::{Result, Write};

// So many bytes a row; the last one may have fewer.
pub fn print<W: Write>(out: &mut W, bytes: &[u8], width: usize) -> Result<()>
    requires { 0 < width }
{
    let mut block = Block::<4096>::empty();
    for row in bytes.chunks(width) {
        for byte in row {
            // its digits, and a line's end
            block.make_room(out, 3)?;
            block.push(&crate::pair(*byte));
        }
        // a row has a byte, so the block has this room
        block.make_room(out, 1)?;
        block.push(b"\n");
    }
    block.print(out)
}
