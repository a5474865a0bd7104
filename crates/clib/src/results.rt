// The result of each entry as numbers, but for those of two: what look_up finds has one number or six, and where a font's name ends is told by the bytes that are
// lent.
ghost use Rattle.clib.specs.Answers.{command_numbers, file_numbers, placed_numbers, signed_numbers, table_numbers};

use crate::answers;
use crate::answers::InNumbers;
use reader::{Counts, Reading, Summary};

impl InNumbers for Reading {
    ghost numbers = { command_numbers };

    ghost room = { 3 };

    fn give(self, answer: &mut [u64]) -> u32 {
        let numbers = [u64::from(self.opcode), self.start as u64, self.next as u64];
        answers::give(answer, &numbers)
    }
}

impl InNumbers for Summary {
    ghost numbers = { file_numbers };

    ghost room = { 4 };

    fn give(self, answer: &mut [u64]) -> u32 {
        let Summary {
            pages,
            fonts,
            depth,
            post,
        } = self;
        answers::give(
            answer,
            &[pages as u64, fonts as u64, depth as u64, post as u64],
        )
    }
}

impl InNumbers for Counts {
    ghost numbers = { placed_numbers };

    ghost room = { 3 };

    fn give(self, answer: &mut [u64]) -> u32 {
        let Counts {
            records,
            missing,
            specials,
        } = self;
        answers::give(answer, &[records as u64, missing as u64, specials as u64])
    }
}

// A distance or a width
impl InNumbers for i64 {
    ghost numbers = { signed_numbers };

    ghost room = { 1 };

    fn give(self, answer: &mut [u64]) -> u32 {
        answers::give(answer, &[answers::word_of(self)])
    }
}

// How many records or bytes
impl InNumbers for usize {
    ghost numbers = { table_numbers };

    ghost room = { 1 };

    fn give(self, answer: &mut [u64]) -> u32 {
        answers::give(answer, &[self as u64])
    }
}
