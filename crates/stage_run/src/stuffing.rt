//! The stuffing of an input.
//!
//! A struct of the code, and a record of the model, tied in one place (`stuffing_of`): one for both would have to know
//! the other's numbers of 32 bits.

/// The null packets that the input puts in.
#[derive(Clone, Copy, PartialEq, Eq)]
pub struct Stuffing {
    /// How many come before the input's packets.
    pub start: u64,
    /// How many come after the input's end, where it is a plain end.
    pub stop: u64,
    /// How many come after each `every`-th packet of the input.
    pub null: u32,
    /// At least 1.
    pub every: u32,
}
