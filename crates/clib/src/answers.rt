// What a call leaves in the caller's array of numbers, and the code that it returns. A number is a 64-bit word, a negative one in two's complement.
ghost use Rattle.std.specs.Prelude.{ℕ, ◌≡◌, ◌∷◌, ◌≤◌, ◌^◌, List, length, drop};
ghost use Rattle.numbers.specs.Signs.{to_twos};
ghost use Rattle.refusals.specs.Answer.{answered};
ghost use Rattle.refusals.specs.Numbers.{number_of as refusals_number};
ghost use Rattle.clib.specs.Answers.{number_of, numbers_of, in_front};

use refusals::Refusal;

// the result is given
const GIVEN: u32 = 0;
// the array cannot hold the result: nothing was judged and nothing written
pub const ARRAY_TOO_SHORT: u32 = 255;

// A result of an entry: its numbers, and how many there are
pub trait InNumbers {
    ghost numbers: { Self → List ℕ };

    ghost room: { ℕ };

    // Its numbers, in front of what the array held behind them.
    fn give(self, answer: &mut [u64]) -> u32
        requires { room ≤ length answer.old }
        ensures value { result ≡ 0 }
        ensures answer_after { answer.new ≡ in_front (numbers self) answer.old };
}

// Numbers of a result, in front of what the array held behind them.
pub fn give(answer: &mut [u64], numbers: &[u64]) -> u32
    requires { length numbers.now ≤ length answer.old }
    ensures value { result ≡ 0 }
    ensures answer_after { answer.new ≡ in_front numbers.now answer.old }
{
    // Not copy_from_slice: of one number it leaves a test behind that a width's scaling is too short to bear.
    for index in 0..numbers.len() {
        answer[index] = numbers[index];
    }
    GIVEN
}

// A refusal: its place, in front of what the array held behind it; its number is the code.
pub fn refuse(answer: &mut [u64], refusal: Refusal) -> u32
    requires { 1 ≤ length answer.old }
    ensures value { result ≡ refusals_number refusal.reason }
    ensures answer_after { answer.new ≡ refusal.place ∷ drop 1 answer.old }
{
    answer[0] = refusal.place as u64;
    u32::from(u8::from(refusal.reason))
}

// What an entry answers: the numbers of its result, or its refusal. The array is looked at before the entry is called, since a short one has to leave the area too.
pub fn tell<A: InNumbers>(answer: &mut [u64], outcome: Result<A, Refusal>) -> u32
    requires { (1 ≤ A.room) × (A.room ≤ length answer.old) }
    ensures value { result ≡ number_of (answered outcome) }
    ensures answer_after { answer.new ≡ in_front (numbers_of A.numbers (answered outcome)) answer.old }
{
    match outcome {
        Ok(found) => found.give(answer),
        Err(refusal) => refuse(answer, refusal),
    }
}

// A signed number as a word. Its name stays beside the library's: the clauses of a number in the array are over this contract.
pub fn word_of(n: i64) -> u64
    ensures { result ≡ to_twos (2 ^ 64) n }
{
    n.cast_unsigned()
}
