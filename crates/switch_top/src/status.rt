//! How a call of `tsswitch` ended.
ghost use Rattle.std.specs.Prelude.{◌≡◌, ◌-◌, ◌^◌, min, if◌then◌else◌};
ghost use Rattle.switch_top.specs.PlayCuts.{end_of};
ghost use Rattle.switch_top.specs.SwitchEnds.{status_of, when_late};
ghost use Rattle.switch_top.specs.SwitchExit.{exit_number};

use crate::played_cut::PlayedEnd;

/// How a call of `tsswitch` ended.
#[derive(Debug, Clone, Copy, PartialEq, Eq)]
pub enum SwitchStatus {
    /// Every play ended plainly, and everything was written and reported.
    Done,
    /// Out of memory.
    NoMemory,
    /// The words are not of the form, and this is the first faulty one, or their number; nothing was opened.
    Words { word: usize },
    /// The last play that was played could not be opened, or a read of it failed.
    ReadFault,
    /// A write, a report, the opening or the closing of the output failed.
    WriteFault,
    /// In the last play that was played the packet of this number does not begin with the sync byte. It is a play of this
    /// input, counted from 1.
    Sync { input: u32, packet: u64 },
    /// A packet of the last play that was played would have had position 2^60 in its own list.
    TooLong,
}

impl SwitchStatus {
    /// The program's exit number.
    pub fn exit_code(&self) -> u8
        ensures { result ≡ exit_number self.now }
    {
        match self {
            SwitchStatus::Done => 0,
            SwitchStatus::NoMemory => 1,
            SwitchStatus::Words { .. } => 2,
            SwitchStatus::ReadFault => 3,
            SwitchStatus::WriteFault => 4,
            SwitchStatus::Sync { .. } => 5,
            SwitchStatus::TooLong => 6,
        }
    }
}

/// The status of the last play's end.
pub(crate) fn status_of(input: usize, end: PlayedEnd) -> SwitchStatus
    ensures { result ≡ status_of input (end_of end) }
{
    match end {
        PlayedEnd::Plain { left_out: _ } => SwitchStatus::Done,
        PlayedEnd::Sync { packet } => SwitchStatus::Sync {
            input: u32::try_from(input).unwrap_or(u32::MAX),
            packet,
        },
        PlayedEnd::ReadFault => SwitchStatus::ReadFault,
        PlayedEnd::TooLong => SwitchStatus::TooLong,
        PlayedEnd::WriteFault => SwitchStatus::WriteFault,
    }
}

/// The status, by whether a report or the closing of the output failed.
pub(crate) fn status_if_late(status: SwitchStatus, late: bool) -> SwitchStatus
    ensures { result ≡ (if late then when_late status else status) }
{
    match status {
        SwitchStatus::Done if late => SwitchStatus::WriteFault,
        _ => status,
    }
}
