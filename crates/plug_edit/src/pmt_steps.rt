//! The steps of `pmt`: an editor, before which the packets of components that are taken out may go.

ghost use Rattle.std.specs.Prelude.{◌≡◌};
ghost use Rattle.plug_edit.specs.PmtRule.{goes};

use crate::edit_pid::EditPidSteps;
use plug_psi::{Changes, TableEdit, Unedited};
use plugin_options::PidSet;
use plugin_trait::{Outcome, Steps};
use std::alloc::AllocError;
use ts_packet::{Labels, Packet};

/// Edits the tables of a PID, and drops the packets on other PIDs, or makes null packets of them.
#[derive(Drop)]
pub struct PmtSteps<E: TableEdit + Drop> {
    /// The editor of the PID of the PMTs.
    pub(crate) editor: EditPidSteps<E>,
    /// The PIDs whose packets go. Those on the PID of the PMTs stay, also where it is one of these.
    pub(crate) dropped: PidSet,
    /// Whether null packets take the places of these packets.
    pub(crate) stuffing: bool,
}

impl<E: TableEdit + Drop> PmtSteps<E> {
    /// Why nothing was edited; `None` where the edit makes other sections of the last tables of the PID.
    pub fn unedited(&self) -> Result<Option<Unedited>, AllocError> {
        self.editor.unedited()
    }

    /// Adds the PID, if a table changed there without a new version.
    pub fn add_changes(&self, changes: &mut Changes) -> Result<(), AllocError> {
        self.editor.add_changes(changes)
    }

    // Whether the packet goes.
    #[inline]
    fn goes(&self, packet: &Packet) -> bool
        ensures { result ≡ goes self.now.dropped self.now.editor.pid packet.now }
    {
        packet.pid() != self.editor.pid() && self.dropped.has(packet.pid())
    }
}

impl<E: TableEdit + Drop> Steps for PmtSteps<E> {
    ghost use Rattle.std.specs.Prelude.{None, refl};
    ghost use Rattle.plug_edit.specs.EditState.{StepsStand, rule_of};
    ghost use Rattle.plug_edit.specs.PmtRule.{without_pids};

    ghost rule = { λ s. without_pids s.dropped s.stuffing s.editor.pid (rule_of E.change s.editor) };

    ghost stands_for = { λ s history. StepsStand E.change s.editor history };

    ghost preallocated = { λ _. None };

    fn step(&mut self, at: u64, packet: &mut Packet, labels: &mut Labels) -> Outcome {
        if !self.goes(packet) {
            return self.editor.step(at, packet, labels);
        }
        if self.stuffing {
            *packet = Packet::null();
            return Outcome::Pass;
        }
        Outcome::Drop
    }

    fn pass_over(&mut self, at: u64) {
        self.editor.pass_over(at);
    }

    fn has_fault(&self, cut: u64) -> bool {
        self.editor.has_fault(cut)
    }

    ghost quiet = { λ plugin. record { no_lines = λ history packet labels. refl; no_summary = λ history. refl } };

    ghost never_agrees = { λ plugin history. refl };
}
