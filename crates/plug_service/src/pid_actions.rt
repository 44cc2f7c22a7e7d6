//! What becomes of the packets on each PID.

ghost use Rattle.std.specs.Prelude.{◌≡◌, ℕ, ◌<◌, List, Option, IfOk, OnOk, slice_index_or};
ghost use Rattle.ts_packet.specs.declared.numbers.TheConstants.{NULL_PID, PID_COUNT};
ghost use Rattle.ts_table_rows.specs.TableValues.{TableHolding};
ghost use Rattle.plug_psi.specs.InForce.{pat_of, pmt_of};
ghost use Rattle.plug_psi.specs.ForceStands.{StandsFor as Forced};
ghost use Rattle.plug_service.specs.Actions.{IsEditable, action_of};
ghost use Rattle.plug_service.specs.declared.action.Action.TheVariants.{EditPmt, Drop as Dropped};
ghost use Rattle.plug_service.specs.declared.present.Present.{Present as GivenPresent};

use crate::action::Action;
use crate::action_row::action_row;
use crate::present::Present;
use plug_psi::InForce;
use std::alloc::{AllocError, Global};
use ts_packet::PidRow;

/// What becomes of the packets on each PID if services are kept or removed, found by a look-up. It is renewed when other
/// services are meant, and when another PAT or another PMT comes into force.
#[derive(Drop)]
pub(crate) struct PidActions {
    /// The action of the packets on each PID.
    pub(crate) row: PidRow<Action>,
    ghost editable: { (pid : ℕ) → pid < PID_COUNT → slice_index_or row pid Dropped ≡ EditPmt → pid < NULL_PID },
}

impl PidActions {
    ghost use Rattle.plug_service.specs.ActionsState.{ActionsStand};

    /// Actions without tables, which are renewed before they are used. Allocates a byte for each PID.
    pub(crate) fn new(alloc: Global) -> Result<PidActions, AllocError> {
        Ok(PidActions {
            row: PidRow::filled(alloc, Action::Drop)?,
        })
    }

    /// The action of the packets on a PID.
    #[inline]
    pub(crate) fn action(&self, pid: u16) -> Action
        requires { pid < PID_COUNT }
        ensures tells { (present : GivenPresent) (pat : Option TableHolding) (pmts : ℕ → Option TableHolding) → ActionsStand self.now present pat pmts
            → result ≡ action_of present.way present.services pat pmts pid }
        ensures editable { IsEditable result pid }
    {
        self.row.get(pid)
    }

    /// Other services are meant, or other tables are in force. Allocates memory on the way, and keeps as much as before.
    #[inline(never)]
    pub(crate) fn renew(
        &mut self,
        alloc: Global,
        present: &Present,
        force: &InForce,
    ) -> Result<(), AllocError>
        ensures { OnOk result ((fed : List (List ℕ)) → Forced force.now fed
            → ActionsStand self.new present.now (pat_of fed) (λ other. pmt_of other fed)) }
    {
        self.row = action_row(alloc, present, force)?;
        Ok(())
    }
}
