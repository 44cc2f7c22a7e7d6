//! An error, and its line in the report.
use crate::detail::Detail;
use crate::indicator::Indicator;
use plugin_notes::{LineNote, PacketNote};
use plugin_trait::{Line, LineText};
use std::alloc::{AllocError, Global};

/// An error of the stream.
#[derive(Clone, Copy, PartialEq, Eq)]
pub struct MonitorError {
    /// The position at which it is known.
    pub known: u64,
    /// The position of its packet.
    pub at: u64,
    /// Its indicator.
    pub indicator: Indicator,
    /// What is wrong.
    pub detail: Detail,
}

impl PacketNote for MonitorError {
    ghost use Rattle.monitor_lines.specs.ErrorTexts.{place_of_error};

    ghost place = { place_of_error };

    fn at(&self) -> u64 {
        self.known
    }
}

impl LineNote for MonitorError {
    ghost use Rattle.monitor_lines.specs.ErrorTexts.{line_of_error};

    ghost line_of = { line_of_error };

    fn line(&self, alloc: Global) -> Result<Line, AllocError> {
        let detail = self.detail.text(alloc)?;
        let text = format!(in alloc; "packet {} {} {detail}", self.at, self.indicator.title())?;
        Ok(Line {
            at: self.known,
            text: LineText::of(text),
        })
    }
}
