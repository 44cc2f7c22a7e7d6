//! A packet that waits for a slot.
use ts_packet::Labelled;

/// A packet that waits for a slot, with the number of the cell in which it came.
#[derive(Clone, Copy)]
pub struct Waiting {
    /// How many live packets came before it.
    pub cell: u64,
    /// The packet, with its labels.
    pub row: Labelled,
}
