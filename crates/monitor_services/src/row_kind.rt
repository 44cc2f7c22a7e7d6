//! The rows of keys that tables ask for, and the errors of their gaps.
ghost use Rattle.std.specs.Prelude.{◌≡◌, ◌%◌, ◌++◌, OnOk};
ghost use Rattle.monitor_services.specs.GapErrors as errors_by;

use monitor_lines::{Detail, Indicator, Missing, MonitorError};
use monitor_rows::RowGap;
use std::alloc::AllocError;

/// A row of keys that tables ask for (ETSI TR 101 290, 5.2).
#[derive(Clone, Copy, PartialEq, Eq)]
pub enum RowKind {
    /// Sections of PMTs (1.5).
    Pmts,
    /// Packets of components of sound or picture (1.6).
    Packets,
    /// PCRs (2.3).
    Clocks,
    /// Presentation time stamps (2.5).
    Stamps,
    /// Sections of EITs present/following (3.6).
    Events,
}

impl RowKind {
    ghost use Rattle.std.specs.Prelude.{◌≡◌};
    ghost use Rattle.monitor_services.specs.GapErrors.{gap_error, indicator_of, missing_of};

    // Its indicator.
    fn indicator(self) -> Indicator
        ensures { result ≡ indicator_of self }
    {
        match self {
            RowKind::Pmts => Indicator::Pmt,
            RowKind::Packets => Indicator::Pid,
            RowKind::Clocks => Indicator::Pcr,
            RowKind::Stamps => Indicator::Pts,
            RowKind::Events => Indicator::Eit,
        }
    }

    // What is missing where the key of a number is.
    fn missing(self, number: u32) -> Missing
        ensures { result ≡ missing_of self number }
    {
        match self {
            RowKind::Pmts => Missing::Pmt(low_bits(number / 8192)),
            RowKind::Packets => Missing::Packet(low_bits(number)),
            RowKind::Clocks => Missing::Pcr(low_bits(number)),
            RowKind::Stamps => Missing::Pts(low_bits(number)),
            RowKind::Events => Missing::Eit(low_bits(number / 2), (number % 2) as u8),
        }
    }

    // The error of a gap that is known at a position.
    fn error(self, known: u64, gap: &RowGap) -> MonitorError
        ensures { result ≡ gap_error self known gap.now }
    {
        MonitorError {
            known,
            at: gap.gap.at,
            indicator: self.indicator(),
            detail: Detail::Gap(self.missing(gap.number), gap.gap.milliseconds()),
        }
    }
}

/// Adds the errors of the gaps of a row, which are known at a position, in their order.
pub(crate) fn add_gaps(
    errors: &mut Vec<MonitorError>,
    kind: RowKind,
    known: u64,
    gaps: &[RowGap],
) -> Result<(), AllocError>
    ensures { OnOk result (errors.new.items ≡ errors.old.items ++ errors_by.gap_errors kind known gaps.now) }
{
    for gap in gaps {
        errors.push(kind.error(known, gap))?;
    }
    Ok(())
}

// The low 16 bits of a number.
fn low_bits(number: u32) -> u16
    ensures { result ≡ number % 65536 }
{
    (number % 65536) as u16
}
