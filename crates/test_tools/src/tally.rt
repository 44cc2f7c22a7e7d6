//! How many runs had the same result as another run.

/// A count of runs, and of those with the same result as another one.
#[derive(Clone, Copy)]
pub struct Tally {
    /// How many runs were counted.
    pub runs: u32,
    /// How many of them had the same result.
    pub alike: u32,
}

impl Tally {
    /// The tally of no run.
    pub fn empty() -> Tally {
        Tally { runs: 0, alike: 0 }
    }

    /// The tally with one more run.
    pub fn with(self, is_alike: bool) -> Tally {
        Tally {
            runs: self.runs.wrapping_add(1),
            alike: self.alike.wrapping_add(u32::from(is_alike)),
        }
    }
}
