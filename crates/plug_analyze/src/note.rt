//! What is kept of one packet until it is known to count.
use plugin_notes::PacketNote;

/// What is kept of a packet as long as the cut may still be before it.
#[derive(Clone, Copy, PartialEq, Eq)]
pub struct Note {
    /// The position of the packet.
    pub at: u64,
    /// Its PID.
    pub pid: u16,
    /// It has a payload.
    pub has_payload: bool,
    /// It is scrambled.
    pub is_scrambled: bool,
    /// Its continuity counter is a fault.
    pub is_fault: bool,
    /// It has a PCR.
    pub has_pcr: bool,
}

impl PacketNote for Note {
    ghost use Rattle.plug_analyze.specs.AnalyzeNotes.{place_of};

    ghost place = { place_of };

    fn at(&self) -> u64 {
        self.at
    }
}
