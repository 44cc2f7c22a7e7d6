//! What a plugin made of a list of cells, and how it left it.

use chain_model::Reason;

/// How a plugin left a list of cells.
#[derive(Debug, Clone, Copy, PartialEq, Eq)]
pub enum ListEnd {
    /// It went through the whole list.
    Through,
    /// It passed its last packet.
    Last,
    /// It stopped before a packet.
    Stop,
    /// It refused a packet.
    Refuse(Reason),
    /// It ran out of memory at a packet.
    NoMemory,
}

/// What a plugin made of a piece of a list.
#[derive(Clone, Copy, PartialEq, Eq)]
pub struct Applied {
    /// So many cells at the front of the piece belong to the plugin's own list.
    pub count: usize,
    /// The number of cells, from the list's beginning, at which the plugin first agreed, if it did in this piece.
    pub agreed: Option<u64>,
    /// How the plugin left the piece.
    pub end: ListEnd,
}
