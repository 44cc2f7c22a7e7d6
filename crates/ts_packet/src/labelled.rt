//! A packet that a plugin keeps with its labels.
use crate::labels::Labels;
use crate::packet::Packet;

/// The packet of a live cell with its labels, as a plugin that gives it out later keeps it.
#[derive(Clone, Copy, Debug, PartialEq, Eq)]
pub struct Labelled {
    /// The packet.
    pub packet: Packet,
    /// Its labels.
    pub labels: Labels,
}
