//! The least and the greatest of some numbers.
ghost use Rattle.std.specs.Prelude.{◌≡◌, ◌≤◌, ◌<◌, ℕ, length, get_or};

/// Numbers between which some numbers are, both included.
#[derive(Clone, Copy)]
pub struct Bounds {
    pub least: u32,
    pub greatest: u32,
}

impl Bounds {
    /// The least and the greatest of some numbers.
    pub fn of(numbers: &[u32]) -> Bounds
        ensures { (i : ℕ) → i < length numbers.now → (result.least ≤ get_or numbers.now i 0) × (get_or numbers.now i 0 ≤ result.greatest) }
    {
        let mut least = u32::MAX;
        let mut greatest = 0;
        for number in numbers {
            least = least.min(*number);
            greatest = greatest.max(*number);
        }
        Bounds { least, greatest }
    }
}
