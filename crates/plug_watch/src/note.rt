//! A counted packet, and its line in the report.
use plugin_notes::{LineNote, PacketNote};
use plugin_trait::{Line, LineText};
use std::alloc::{AllocError, Global};

/// A packet that was counted.
#[derive(Clone, Copy, PartialEq, Eq)]
pub struct Note {
    /// The position of the packet.
    pub at: u64,
    /// Its PID, 0 to 8191.
    pub pid: u16,
}

impl PacketNote for Note {
    ghost use Rattle.plug_watch.specs.CountNotes.{place_of};

    ghost place = { place_of };

    fn at(&self) -> u64 {
        self.at
    }
}

impl LineNote for Note {
    ghost use Rattle.plug_watch.specs.CountNotes.{line_of_note};

    ghost line_of = { line_of_note };

    fn line(&self, alloc: Global) -> Result<Line, AllocError> {
        let text = format!(in alloc; "packet {} pid {}", self.at, self.pid)?;
        Ok(Line {
            at: self.at,
            text: LineText::of(text),
        })
    }
}
