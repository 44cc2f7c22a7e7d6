//! How many threads serve the stages of a chain.

/// How many threads serve the stages of a chain. No byte and no line depends on it.
#[derive(Drop, Clone, Copy, PartialEq, Eq)]
pub enum StageThreads {
    /// One thread serves all of them, by choice.
    One,
    /// The program chooses, by the processors that it may use.
    Auto,
}
