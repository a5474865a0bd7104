// A line taken apart at its blanks. Where two blanks meet, or a line begins or ends with one, a word is empty.

// How many words a line has: one more than blanks.
pub fn word_count(line: &[u8]) -> usize {
    line.split(|byte| *byte == b' ').count()
}

// The word of that number, counted from 0, or an empty one where the line has fewer.
pub fn word(line: &[u8], index: usize) -> &[u8] {
    line.split(|byte| *byte == b' ').nth(index).unwrap_or(&[])
}
