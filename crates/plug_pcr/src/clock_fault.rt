//! A fault of a PCR, and its line in the report.
use plugin_notes::{LineNote, PacketNote};
use plugin_trait::{Line, LineText};
use std::alloc::{AllocError, Global};

/// A packet whose PCR is too far from the one expected at the bit rate.
#[derive(Clone, Copy, PartialEq, Eq)]
pub struct ClockFault {
    /// The position of the packet.
    pub at: u64,
    /// Its PID, 0 to 8191.
    pub pid: u16,
    /// How far its PCR is from the expected one, in units of the 27 MHz clock.
    pub jitter: u64,
}

impl PacketNote for ClockFault {
    ghost use Rattle.plug_pcr.specs.ClockFaults.{place_of_fault};

    ghost place = { place_of_fault };

    fn at(&self) -> u64 {
        self.at
    }
}

impl LineNote for ClockFault {
    ghost use Rattle.plug_pcr.specs.ClockFaults.{line_of_fault};

    ghost line_of = { line_of_fault };

    fn line(&self, alloc: Global) -> Result<Line, AllocError> {
        let text = format!(in alloc;
            "packet {} pid {} jitter {}",
            self.at, self.pid, self.jitter
        )?;
        Ok(Line {
            at: self.at,
            text: LineText::of(text),
        })
    }
}
