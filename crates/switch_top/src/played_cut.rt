//! How a play ended, with the bytes that were left out of its file.
ghost use Rattle.std.specs.Prelude.{◌≡◌};
ghost use Rattle.switch_top.specs.PlayCuts.{end_of};

use chain_core::InputEnd;
use chain_plays::PlayEnd;

/// Why a play ended.
#[derive(Debug, Clone, Copy, PartialEq, Eq)]
pub(crate) enum PlayedEnd {
    /// Its file has no further packet, and so many of the file's bytes were left out.
    Plain { left_out: u64 },
    /// The packet of this number, counted from 0, does not begin with the sync byte.
    Sync { packet: u64 },
    /// It could not be opened, or a read of it failed.
    ReadFault,
    /// A packet would have had position 2^60.
    TooLong,
    /// The output failed after the packets that were counted.
    WriteFault,
}

/// How many packets of a play were written whole or counted, and why it ended after them.
#[derive(Debug, Clone, Copy, PartialEq, Eq)]
pub(crate) struct PlayedCut {
    /// At most 2^60.
    pub(crate) count: u64,
    pub(crate) end: PlayedEnd,
}

impl PlayedEnd {
    /// The end of a play whose packets are at their places.
    pub(crate) fn of(end: PlayEnd) -> PlayedEnd
        ensures { end_of result ≡ end }
    {
        match end {
            PlayEnd::Input(InputEnd::End { left }) => PlayedEnd::Plain {
                left_out: u64::from(left),
            },
            PlayEnd::Input(InputEnd::Sync { packet }) => PlayedEnd::Sync { packet },
            PlayEnd::Input(InputEnd::ReadFault) => PlayedEnd::ReadFault,
            PlayEnd::Input(InputEnd::TooLong) => PlayedEnd::TooLong,
            PlayEnd::WriteFault => PlayedEnd::WriteFault,
        }
    }
}
