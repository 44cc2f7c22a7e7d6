//! The ends of a stage, and the causes that they give.

use chain_model::{Cause, InputEnd, Reason};

/// How a stage ends. All but `Followed` are ends of the stage's own.
#[derive(Debug, Clone, Copy, PartialEq, Eq)]
pub enum StageEnd {
    /// The input has no further packet.
    Input(InputEnd),
    /// The plugin passed its last packet, with the visit that reports this.
    Last,
    /// The plugin stopped before the next packet.
    Stop,
    /// The plugin refused the next packet.
    Refuse(Reason),
    /// The output did not take the next packet whole.
    WriteFault,
    /// The stage ran out of memory at the next packet.
    NoMemory,
    /// The stage ends since a neighbour has ended, or since it gave all cells below the limit.
    Followed,
}

impl StageEnd {
    ghost use Rattle.std.specs.Prelude.{◌≡◌};
    ghost use Rattle.chain_core.specs.Close.{cause_of_stage};

    /// The cause that the stage of this number gives by ending so; none where it only followed.
    pub(crate) fn own_cause(self, stage: usize) -> Option<Cause>
        ensures { result ≡ cause_of_stage stage self }
    {
        match self {
            StageEnd::Input(how) => Some(Cause::Input(how)),
            StageEnd::Last => Some(Cause::Until(stage)),
            StageEnd::Stop => Some(Cause::Stop(stage)),
            StageEnd::Refuse(reason) => Some(Cause::Refuse(stage, reason)),
            StageEnd::WriteFault => Some(Cause::WriteFault),
            StageEnd::NoMemory => Some(Cause::NoMemory(stage)),
            StageEnd::Followed => None,
        }
    }
}
