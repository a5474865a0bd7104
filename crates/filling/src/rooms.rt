// How much a line may ask for of the area that all questions share.
ghost use Rattle.std.specs.Prelude.{◌≤◌, IfSome};

use asking::words;

// The bytes that a word asks for where records are written, 60,000 at most.
pub fn for_records(word: &[u8], lent: usize) -> Option<usize>
    ensures { IfSome result (λ room. room ≤ lent) }
{
    within(word, lent.min(60000))
}

// The bytes that a word asks for, so many at most.
pub fn within(word: &[u8], most: usize) -> Option<usize>
    ensures { IfSome result (λ room. room ≤ most) }
{
    Some(words::read_unsigned(word, most as u64)? as usize)
}
