// A line of the input, as it comes in.
ghost use Rattle.std.specs.Prelude.{◌≤◌};

// No heap: fixed memory, of which so many bytes are the line's.
#[derive(Drop)]
pub struct Line {
    bytes: [u8; 16384],
    // one more than there is room for where the line is longer, whatever follows
    length: usize,
    ghost at_most: { length ≤ 16385 },
}

impl Line {
    pub fn new() -> Line {
        Line {
            bytes: [0; 16384],
            length: 0,
        }
    }

    pub fn is_empty(&self) -> bool {
        self.length == 0
    }

    // The whole line, if there is room for it
    pub fn whole(&self) -> Option<&[u8]> {
        self.bytes.get(..self.length)
    }

    pub fn push(&mut self, byte: u8) {
        if let Some(place) = self.bytes.get_mut(self.length) {
            *place = byte;
            self.length += 1;
        } else {
            self.length = 16385;
        }
    }

    pub fn clear(&mut self) {
        self.length = 0;
    }
}
