//! Why a chain ended.

use crate::{InputEnd, Reason};

/// Why a chain ended where it did. Plugins count from 1; stage 0 is the input.
#[derive(Debug, Clone, Copy, PartialEq, Eq)]
pub enum Cause {
    /// The input's list ended.
    Input(InputEnd),
    /// All plugins that use joint termination have agreed.
    Joint,
    /// This plugin passed its last packet.
    Until(usize),
    /// This plugin stopped before a packet.
    Stop(usize),
    /// This plugin refused a packet.
    Refuse(usize, Reason),
    /// The output did not take a packet whole.
    WriteFault,
    /// This stage ran out of memory.
    NoMemory(usize),
}
