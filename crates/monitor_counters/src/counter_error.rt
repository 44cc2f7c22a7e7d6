//! What is wrong with the continuity counter of a packet.

/// What is wrong with the continuity counter of a packet (Continuity_count_error, 1.4 of ETSI TR 101 290).
#[derive(Clone, Copy, PartialEq, Eq)]
pub enum CounterError {
    /// The counter is another one than was wanted: the counter, 0 to 15, and the wanted one.
    Wrong(u8, u8),
    /// The packet is the third of its kind, or a duplicate with other bytes than its original.
    Repeated,
}
