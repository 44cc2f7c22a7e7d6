//! An input of the watched desk.
use crate::meeting::Meeting;
use ts_outside::{Failed, MemorySource, Source};

/// A source in memory whose reads may have to meet those of another one; without a meeting none waits.
pub(crate) struct WatchedSource<'a> {
    pub(crate) source: MemorySource,
    pub(crate) name: String,
    pub(crate) meeting: Option<&'a Meeting>,
    /// The number of the input, in the order of their openings, from 1 on.
    pub(crate) number: u64,
    /// How many reads have begun.
    pub(crate) reads: u64,
}

impl<'a> Source for WatchedSource<'a> {
    ghost use Rattle.ts_outside.specs.Memory.{source_seen};

    ghost seen = { λ s. source_seen s.source };

    fn read(&mut self, into: &mut [u8]) -> Result<usize, Failed> {
        self.reads = self.reads.wrapping_add(1);
        if let Some(meeting) = self.meeting {
            meeting.begin(self.number, self.reads);
        }
        self.source.read(into)
    }
}
