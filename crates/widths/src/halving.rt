// The search by halves.
ghost use Rattle.std.specs.Prelude.{ℕ, ◌≡◌, ◌≤◌, ◌<◌, Bool, true, false};

// The first of the indices of a range at which a test fails, where it holds up to there and fails from there on.
pub fn first_past<F: Fn(usize) -> bool>(from: usize, to: usize, before: F) -> usize
    requires order { from ≤ to }
    requires inside { (i : ℕ) → from ≤ i → i < to → F.pre before i }
    ensures bound { (from ≤ result) × (result ≤ to) }
    ensures parts { (p : ℕ → Bool) → ((i : ℕ) (r : Bool) → from ≤ i → i < to → F.post before i r → r ≡ p i)
        → ((i j : ℕ) → from ≤ i → i < j → j < to → p j ≡ true → p i ≡ true)
        → ((i : ℕ) → from ≤ i → i < result → p i ≡ true) × ((i : ℕ) → result ≤ i → i < to → p i ≡ false) }
{
    let mut low = from;
    let mut high = to;
    // No range: each turn halves what is left of it.
    while low < high {
        let middle = low + (high - low) / 2;
        if before(middle) {
            low = middle + 1;
        } else {
            high = middle;
        }
    }
    low
}
