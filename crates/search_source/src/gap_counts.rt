//! Counts of gaps.
ghost use Rattle.std.specs.Prelude.{◌≡◌, ◌+◌};
ghost use Rattle.search_source.specs.Gaps.{counted, no_gaps, with_end, with_gap, with_loss};

use crate::Gap;
use packet_forms::Form;

/// What was left out of a file so far, for the summary of its report. Each count saturates at `u64::MAX`.
#[derive(Clone, Copy, Debug, PartialEq, Eq)]
pub struct GapCounts {
    /// How often sync was lost: the gaps that are no bad sync byte.
    pub losses: u64,
    /// The number of bytes left out in these.
    pub bytes: u64,
    /// How often one unit alone was left out, since its sync byte is bad.
    pub bad_sync_bytes: u64,
}

// The sum of two counts, which saturates.
fn sum(first: u64, second: u64) -> u64
    ensures { result ≡ counted (first + second) }
{
    if second > u64::MAX - first {
        return u64::MAX;
    }
    first + second
}

/// The sum of a count and a number of bytes in memory, which saturates.
pub(crate) fn sum_with(count: u64, bytes: usize) -> u64
    ensures { result ≡ counted (count + bytes) }
{
    sum(count, bytes as u64)
}

impl GapCounts {
    /// Nothing counted yet.
    pub fn none() -> GapCounts
        ensures { result ≡ no_gaps }
    {
        GapCounts {
            losses: 0,
            bytes: 0,
            bad_sync_bytes: 0,
        }
    }

    // One more loss, of so many bytes.
    fn with_loss(self, bytes: u64) -> GapCounts
        ensures { result ≡ with_loss self bytes }
    {
        GapCounts {
            losses: sum(self.losses, 1),
            bytes: sum(self.bytes, bytes),
            bad_sync_bytes: self.bad_sync_bytes,
        }
    }

    /// With one more gap before a packet of a file of this form.
    pub fn with(self, form: Form, gap: Gap) -> GapCounts
        ensures { result ≡ with_gap form self gap }
    {
        if gap.bytes == form.unit() as u64 {
            return GapCounts {
                losses: self.losses,
                bytes: self.bytes,
                bad_sync_bytes: sum(self.bad_sync_bytes, 1),
            };
        }
        self.with_loss(gap.bytes)
    }

    /// With so many bytes left out behind the last packet; 0 changes nothing.
    pub fn with_end(self, behind: u64) -> GapCounts
        ensures { result ≡ with_end self behind }
    {
        if behind == 0 {
            return self;
        }
        self.with_loss(behind)
    }
}
