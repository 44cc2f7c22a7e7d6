//! A bit rate beside the bounds.
use crate::measure::Measure;
use crate::verdict::Verdict;
use plugin_notes::PacketNote;

/// A bit rate that was measured, and how it stands to the bounds.
#[derive(Clone, Copy, PartialEq, Eq)]
pub struct Judged {
    /// What was measured.
    pub measure: Measure,
    /// How it stands to the bounds.
    pub verdict: Verdict,
}

impl PacketNote for Judged {
    ghost use Rattle.plug_rate.specs.Measures.{place_of};

    ghost place = { place_of };

    fn at(&self) -> u64 {
        self.measure.at
    }
}
