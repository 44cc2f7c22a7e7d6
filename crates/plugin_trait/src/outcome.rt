//! The outcomes of one step of a plugin.

use chain_model::Reason;

/// What a plugin does with a cell.
#[derive(Clone, Copy, PartialEq, Eq)]
pub enum Outcome {
    /// The list goes on with the cell, which may have been edited.
    Pass,
    /// The list goes on, and the cell's packet is dropped.
    Drop,
    /// The packet passes and is the last of the list.
    Last,
    /// The list ends before the packet.
    Stop,
    /// The list ends before the packet, which is refused.
    Refuse(Reason),
    /// Out of memory. The cell is as it was, and the plugin stands for the cells that it met before it.
    NoMemory,
}
