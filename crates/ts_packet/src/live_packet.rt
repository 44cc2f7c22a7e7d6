//! A packet that no plugin has dropped.
//!
//! A packet and its labels are lent together, as one value: the toolchain follows a struct through one `&mut` into it,
//! and not through two at once.
use crate::labels::Labels;
use crate::packet::Packet;

/// A packet that no plugin has dropped, and its labels.
#[derive(Clone, Copy)]
pub struct LivePacket {
    /// The packet as the plugins before left it.
    pub packet: Packet,
    /// Its labels.
    pub labels: Labels,
}
