//! The editors of all PIDs.

ghost use Rattle.std.specs.Prelude.{◌≡◌, ℕ, ◌++◌, ◌∷◌, [], List, IfOk, OnOk, OnErr};
ghost use Rattle.ts_demux.specs.TablesOn.{Completes, packets_on};
ghost use Rattle.ts_packet.specs.Header.{pid_of};
ghost use Rattle.plug_psi.specs.ForceStands.{StandsFor as Forced, pats_in};
ghost use Rattle.plug_rename.specs.RenameActions.{IsEditable, action_after};
ghost use Rattle.plug_rename.specs.RenameRule.{made_by};
ghost use Rattle.plug_rename.specs.declared.rename_conf.RenameConf.{RenameConf};
ghost use Rattle.plug_rename.specs.RenameSettings.{IsValidRename};

use crate::action::Action;
use crate::eit_number::EitNumber;
use crate::limits::{EIT_PID, NIT_PID, PAT_PID, SDT_PID};
use crate::nit_items::NitItems;
use crate::pat_number::PatNumber;
use crate::pmt_number::PmtNumber;
use crate::rename_conf::RenameConf;
use crate::sdt_names::SdtNames;
use crate::stream_tables::{take_nit, take_sdt};
use plug_psi::{
    ByPid, Changes, CycleEditor, FollowsTables, InForce, Reading, SeesChanges, VariedEditor,
    unfollowed_packets_change_nothing,
};
use section_flow::Flow;
use service_items::stream_in_force;
use std::alloc::{AllocError, Global};
use ts_packet::Packet;

/// What reads and edits the tables of a PID that the service's first entry had.
type PmtEditor = Reading<CycleEditor<PmtNumber>>;

/// The editors of PID 0, whose tables the PATs in force have read, of PIDs 16, 17 and 18 and of the PIDs that the service's first
/// entry had.
#[derive(Drop)]
pub(crate) struct RenameEditors {
    pub(crate) pat: CycleEditor<PatNumber>,
    pub(crate) sdt: VariedEditor<SdtNames>,
    pub(crate) nit: VariedEditor<NitItems>,
    /// What edits the sections on PID 18, and its edit.
    pub(crate) eit: Flow,
    pub(crate) number: EitNumber,
    pub(crate) pmts: ByPid<PmtEditor>,
}

impl RenameEditors {
    ghost use Rattle.plug_rename.specs.RenameState.{EditorsStand};

    /// No packet was processed.
    pub(crate) fn new(alloc: Global, conf: &RenameConf) -> Result<RenameEditors, AllocError>
        requires { IsValidRename conf.now }
        ensures { IfOk result (λ editors. EditorsStand conf.now editors []) }
    {
        let (service, id) = (conf.service, conf.id);
        let names = SdtNames {
            conf: conf.copy(alloc)?,
            stream: None,
        };
        let items = NitItems {
            service,
            id,
            stream: None,
        };
        let number = EitNumber { service, id };
        let eit = Flow::new(alloc, EIT_PID)?;
        let pat = CycleEditor::fresh(alloc, &PatNumber { service, id }, PAT_PID)?;
        let nit = VariedEditor::new(alloc, NIT_PID, items)?;
        // The largest value comes last: nothing can fail while it is held.
        let sdt = VariedEditor::new(alloc, SDT_PID, names)?;
        Ok(RenameEditors {
            pat,
            sdt,
            nit,
            eit,
            number,
            pmts: ByPid::new(alloc),
        })
    }

    /// Adds the PIDs whose tables are read here, if tables changed there without a new version.
    pub(crate) fn add_changes(&self, changes: &mut Changes) -> Result<(), AllocError> {
        changes.add(NIT_PID, self.nit.changed())?;
        changes.add(SDT_PID, self.sdt.changed())?;
        self.pmts.add_changes(changes)
    }

    /// Edits the packet at a position in place by its action. The tables on PID 0 are those that the tables in force have
    /// read. After `AllocError` the packet is as it was.
    #[inline]
    pub(crate) fn edit(
        &mut self,
        alloc: Global,
        at: u64,
        action: Action,
        force: &mut InForce,
        packet: &mut Packet,
    ) -> Result<(), AllocError>
        requires { IsEditable action (pid_of packet.old) }
        ensures made { OnOk result ((conf : RenameConf) (met : List (List ℕ)) → EditorsStand conf self.old met
            → action ≡ action_after conf (met ++ packet.old ∷ []) (pid_of packet.old) → Forced force.old (met ++ packet.old ∷ [])
            → (pid_of packet.old ≡ 0 → Completes 0 (packets_on 0 met) packet.old (pats_in force.old))
            → packet.new ≡ made_by conf action met packet.old) }
        ensures stands { OnOk result ((conf : RenameConf) (met : List (List ℕ)) → EditorsStand conf self.old met
            → action ≡ action_after conf (met ++ packet.old ∷ []) (pid_of packet.old) → Forced force.old (met ++ packet.old ∷ [])
            → (pid_of packet.old ≡ 0 → Completes 0 (packets_on 0 met) packet.old (pats_in force.old))
            → EditorsStand conf self.new (met ++ packet.old ∷ [])) }
        ensures force { OnOk result ((fed : List (List ℕ)) → Forced force.old fed → Forced force.new fed) }
        ensures as_it_was { OnErr result (packet.new ≡ packet.old) }
    {
        // A law, which runs nothing.
        unfollowed_packets_change_nothing::<PmtEditor>();
        match action {
            Action::EditPat => {
                let tables = force.take_pats();
                let pat = self.pat.take(alloc, tables, packet)?;
                *packet = pat;
                Ok(())
            }
            Action::EditSdt => {
                let sdt_stream = stream_in_force(force);
                let sdt = take_sdt(alloc, at, sdt_stream, &mut self.sdt, packet)?;
                *packet = sdt;
                Ok(())
            }
            Action::EditNit => {
                let nit_stream = stream_in_force(force);
                let nit = take_nit(alloc, at, nit_stream, &mut self.nit, packet)?;
                *packet = nit;
                Ok(())
            }
            Action::EditEit => {
                self.eit.step(&self.number, packet)?;
                Ok(())
            }
            Action::EditPmt => {
                let edit = PmtNumber {
                    service: self.number.service,
                    id: self.number.id,
                };
                let pmt = self.pmts.take(alloc, at, &edit, (), packet)?;
                *packet = pmt;
                Ok(())
            }
            Action::Pass => Ok(()),
        }
    }
}
