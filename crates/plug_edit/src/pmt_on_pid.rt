//! New steps of `pmt` on a PID, and the PIDs whose packets are dropped.

ghost use Rattle.std.specs.Prelude.{◌≡◌, ◌≤◌, [], IfOk};
ghost use Rattle.ts_packet.specs.declared.numbers.TheConstants.{NULL_PID};
ghost use Rattle.plug_edit.specs.EditState.{StepsStand};
ghost use Rattle.plug_edit.specs.PmtRule.{dropped_pids, on_pid};
ghost use Rattle.plug_edit.specs.PmtState.{pid_rule};

use crate::edit_pid::new_steps;
use crate::pmt_conf::EditPmtConf;
use crate::pmt_steps::PmtSteps;
use plug_psi::TableEdit;
use plugin_options::{NumberSet, PidSet};
use std::alloc::{AllocError, Global};

/// New steps on a PID, which have processed no packet. On PID 8191 nothing is edited.
pub(crate) fn new_on_pid<E: TableEdit + Drop>(
    alloc: Global,
    pid: u16,
    edit: E,
    dropped: PidSet,
    stuffing: bool,
) -> Result<PmtSteps<E>, AllocError>
    requires { pid ≤ NULL_PID }
    ensures rule { IfOk result (λ steps. pid_rule E.change steps ≡ on_pid pid (E.change edit) dropped stuffing) }
    ensures fresh { IfOk result (λ steps. StepsStand E.change steps.editor []) }
{
    let editor = new_steps(alloc, pid, edit)?;
    Ok(PmtSteps {
        editor,
        dropped,
        stuffing,
    })
}

/// The PIDs whose packets are dropped.
pub(crate) fn dropped(alloc: Global, conf: &EditPmtConf) -> Result<PidSet, AllocError>
    ensures { IfOk result (λ set. set ≡ dropped_pids conf.now) }
{
    if conf.drop {
        return PidSet::of(alloc, &conf.remove_pid);
    }
    let none = NumberSet::of(Vec::new(alloc));
    PidSet::of(alloc, &none)
}
