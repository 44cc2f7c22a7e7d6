//! The ends of an input.

/// How the input's list of packets ends.
#[derive(Debug, Clone, Copy, PartialEq, Eq)]
pub enum InputEnd {
    /// No whole packet is left. `left` bytes, 0 to 187, remain and are left out.
    End { left: u8 },
    /// The input packet of this number, counted from 0, does not begin with the sync byte.
    Sync { packet: u64 },
    /// A read failed.
    ReadFault,
    /// A packet would have had position 2^60.
    TooLong,
}
