//! Where the PIDs are of which something is kept.
ghost use Rattle.std.specs.Prelude.{◌≤◌};
ghost use Rattle.ts_packet.specs.declared.numbers.TheConstants.{PID_COUNT};

use crate::orphan::Orphan;
use ts_packet::PID_COUNT;

/// The PIDs from the least one up to the greatest one of which something is kept, and perhaps some more on either side; nothing is
/// kept of any other.
#[derive(Clone, Copy)]
pub(crate) struct Reach {
    /// The least of them; `PID_COUNT` if there is none.
    pub(crate) from: u16,
    /// The one behind the greatest; 0 if there is none.
    pub(crate) to: u16,
    ghost begins: { from ≤ PID_COUNT },
    ghost ends: { to ≤ PID_COUNT },
}

impl Reach {
    ghost use Rattle.std.specs.Prelude.{◌≡◌, ◌<◌};
    ghost use Rattle.ts_packet.specs.declared.numbers.TheConstants.{PID_COUNT};
    ghost use Rattle.monitor_orphans.specs.Reaches.{Reaches, Widens};

    /// Of no PID.
    pub(crate) fn none() -> Reach {
        Reach {
            from: PID_COUNT,
            to: 0,
        }
    }

    /// With a PID of which this is kept.
    pub(crate) fn with(self, pid: u16, kept: Orphan) -> Reach
        requires { pid < PID_COUNT }
        ensures { Reaches self pid kept result }
    {
        match kept {
            Orphan::Unmet => self,
            Orphan::Met(_) | Orphan::Since(_) | Orphan::Told => self.over(pid),
        }
    }

    /// With a PID.
    pub(crate) fn over(self, pid: u16) -> Reach
        requires { pid < PID_COUNT }
        ensures { Widens self pid result }
    {
        Reach {
            from: self.from.min(pid),
            to: self.to.max(pid + 1),
        }
    }
}
