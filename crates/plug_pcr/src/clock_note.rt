//! A packet with a PCR, noted to be counted.
use plugin_notes::PacketNote;

/// A packet with a PCR on a checked PID.
#[derive(Clone, Copy, PartialEq, Eq)]
pub struct ClockNote {
    /// The position of the packet.
    pub at: u64,
}

impl PacketNote for ClockNote {
    ghost use Rattle.plug_pcr.specs.ClockNotes.{place_of_note};

    ghost place = { place_of_note };

    fn at(&self) -> u64 {
        self.at
    }
}
