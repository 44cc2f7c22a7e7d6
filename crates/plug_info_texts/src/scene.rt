//! What shares and bit rates are parts of.

/// The totals of which shares and bit rates are parts.
#[derive(Clone, Copy, PartialEq, Eq)]
pub struct Scene {
    /// The number of all packets of the stream.
    pub whole: u64,
    /// The positions from the first of them to the last one, those of dropped packets too.
    pub extent: u64,
    /// How many bits pass in a second, those of dropped packets too, if the PCRs say so.
    pub rate: Option<u64>,
}
