//! The numbers of the whole stream.

/// The numbers of the whole stream.
#[derive(Clone, Copy, PartialEq, Eq)]
pub struct StreamNumbers {
    /// The number of all packets.
    pub packets: u64,
    /// The positions from the first of them to the last one, those of dropped packets too.
    pub extent: u64,
    /// The transport_stream_id of the PAT in force, if there is one.
    pub stream_id: Option<u16>,
    /// How many bits pass in a second, those of dropped packets too, if the PCRs say so.
    pub rate: Option<u64>,
    /// How many ways from one PCR to the next have no part in it; `None` where no PID tells it.
    pub breaks: Option<u64>,
    /// How many packets are null packets.
    pub nulls: u64,
    /// How many packets have the transport_error_indicator.
    pub errored: u64,
    /// How many packets are scrambled.
    pub scrambled: u64,
    /// How many packets have a faulty continuity counter.
    pub faults: u64,
}
