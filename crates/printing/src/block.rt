// Bytes gathered in a block before they are written, so that many pieces are few writes.
ghost use Rattle.std.specs.Prelude.{◌≡◌, ◌+◌, ◌≤◌, ◌++◌, length, take, OnOk, OnErr};
ghost use Rattle.std.specs.Io.KnownBytes.{Appends};

use std::io::{Result, Write};

// No heap: fixed memory, of which so many bytes are held.
#[derive(Clone, Copy)]
pub struct Block<const SIZE: usize> {
    pub bytes: [u8; SIZE],
    pub length: usize,
    ghost within: { length ≤ SIZE },
}

impl<const SIZE: usize> Block<SIZE> {
    pub fn empty() -> Block<SIZE>
        ensures length { result.length ≡ 0 }
    {
        Block {
            bytes: [0; SIZE],
            length: 0,
        }
    }

    pub fn held(&self) -> &[u8]
        ensures { result.now ≡ take self.now.length self.now.bytes }
    {
        &self.bytes[..self.length]
    }

    // Room for so many bytes more: where the block has not, what it holds is written first. Where that fails, the block is as it was.
    pub fn make_room<W: Write>(&mut self, out: &mut W, more: usize) -> Result<()>
        requires { more ≤ SIZE }
        ensures room { OnOk result (self.new.length + more ≤ SIZE) }
        ensures failed { OnErr result (self.new ≡ self.old) }
    {
        if SIZE - self.length < more {
            self.print(out)?;
            self.length = 0;
        }
        Ok(())
    }

    pub fn push(&mut self, bytes: &[u8])
        requires { self.old.length + length bytes.now ≤ SIZE }
        ensures length { self.new.length ≡ self.old.length + length bytes.now }
        ensures held { take self.new.length self.new.bytes ≡ take self.old.length self.old.bytes ++ bytes.now }
    {
        let end = self.length + bytes.len();
        let all = &mut self.bytes[..];
        all[self.length..end].copy_from_slice(bytes);
        self.length = end;
    }

    pub fn print<W: Write>(&self, out: &mut W) -> Result<()>
        ensures { OnOk result (Appends (W.contents out.old) (W.contents out.new) (take self.now.length self.now.bytes)) }
    {
        out.write_all(self.held())
    }
}
