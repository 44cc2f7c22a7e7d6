//! What a packet comes to.

ghost use Rattle.std.specs.Prelude.{◌≡◌};
ghost use Rattle.plug_rename.specs.RenameTurns;

use crate::limits::PAT_PID;
use plugin_trait::{Outcome, Reason};

/// What a packet comes to.
#[derive(Clone, Copy, PartialEq, Eq)]
pub(crate) enum Turn {
    /// It passes, edited.
    Passes,
    /// The new number is that of another service.
    Collides,
}

/// Whether it is refused.
#[inline]
pub(crate) fn is_refusal(turn: Turn) -> bool
    ensures { result ≡ RenameTurns.is_refusal turn }
{
    match turn {
        Turn::Passes => false,
        Turn::Collides => true,
    }
}

/// What the plugin does then.
#[inline]
pub(crate) fn outcome_by(turn: Turn) -> Outcome
    ensures { result ≡ RenameTurns.outcome_by turn }
{
    match turn {
        Turn::Passes => Outcome::Pass,
        Turn::Collides => Outcome::Refuse(Reason::Pid(PAT_PID)),
    }
}
