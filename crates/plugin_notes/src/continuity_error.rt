//! A continuity error of a packet, and its line in the report.
use crate::note_row::{LineNote, PacketNote};
use plugin_trait::{Line, LineText};
use std::alloc::{AllocError, Global};

/// A packet whose continuity counter is not the expected one.
#[derive(Clone, Copy, PartialEq, Eq)]
pub struct ContinuityError {
    /// The position of the packet.
    pub at: u64,
    /// Its PID, 0 to 8191.
    pub pid: u16,
    /// Its continuity counter, 0 to 15.
    pub counter: u8,
    /// The expected counter, 0 to 15.
    pub wanted: u8,
}

impl PacketNote for ContinuityError {
    ghost use Rattle.plugin_notes.specs.ContinuityErrors.{place_of_error};

    ghost place = { place_of_error };

    fn at(&self) -> u64 {
        self.at
    }
}

impl LineNote for ContinuityError {
    ghost use Rattle.plugin_notes.specs.ContinuityErrors.{line_of_error};

    ghost line_of = { line_of_error };

    fn line(&self, alloc: Global) -> Result<Line, AllocError> {
        let text = format!(in alloc;
            "packet {} pid {} counter {} wanted {}",
            self.at, self.pid, self.counter, self.wanted
        )?;
        Ok(Line {
            at: self.at,
            text: LineText::of(text),
        })
    }
}
