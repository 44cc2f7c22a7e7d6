//! What becomes of the packets on a PID.

ghost use Rattle.std.specs.Prelude.{◌≡◌, ◌<◌, true};
ghost use Rattle.ts_packet.specs.declared.numbers.TheConstants.{NULL_PID};
ghost use Rattle.plug_rename.specs.RenameActions;
ghost use Rattle.plug_rename.specs.RenameActions.{IsEditable};

use crate::limits::{EIT_PID, NIT_PID, PAT_PID, SDT_PID};
use crate::rename_conf::RenameConf;
use ts_packet::NULL_PID;

/// What becomes of the packets on a PID.
#[derive(Clone, Copy, PartialEq, Eq)]
pub(crate) enum Action {
    /// They carry the edited PATs.
    EditPat,
    /// They carry the edited SDTs and BATs.
    EditSdt,
    /// They carry the edited NITs.
    EditNit,
    /// They carry the edited EIT sections.
    EditEit,
    /// They carry the edited PMTs of the service.
    EditPmt,
    /// They pass.
    Pass,
}

/// The action of the packets on a PID, by the PID of the service's first entry, if it has one.
#[inline]
pub(crate) fn action_on(conf: &RenameConf, own: Option<u16>, pid: u16) -> Action
    ensures tells { result ≡ RenameActions.action_by conf.now own pid }
    ensures editable { IsEditable result pid }
{
    if pid == SDT_PID {
        Action::EditSdt
    } else if conf.id.is_some() {
        numbered_action(is_at(own, pid), pid)
    } else {
        Action::Pass
    }
}

/// The same of another PID than that of the SDT, where the service has another number.
#[inline]
fn numbered_action(is_of_pmt: bool, pid: u16) -> Action
    requires { is_of_pmt ≡ true → pid < NULL_PID }
    ensures tells { result ≡ RenameActions.numbered_action is_of_pmt pid }
    ensures editable { IsEditable result pid }
{
    if pid == PAT_PID {
        Action::EditPat
    } else if pid == NIT_PID {
        Action::EditNit
    } else if pid == EIT_PID {
        Action::EditEit
    } else if is_of_pmt {
        Action::EditPmt
    } else {
        Action::Pass
    }
}

/// Whether a PID is there, and is this one, which is not that of null packets.
#[inline]
fn is_at(own: Option<u16>, pid: u16) -> bool
    ensures tells { result ≡ RenameActions.is_at own pid }
    ensures below { result ≡ true → pid < NULL_PID }
{
    match own {
        Some(own) => own == pid && pid < NULL_PID,
        None => false,
    }
}
