//! The editors of all PIDs.

ghost use Rattle.std.specs.Prelude.{◌≡◌, ℕ, ◌++◌, ◌∷◌, [], List, false, IfOk, IsOk, OnOk, OnErr};
ghost use Rattle.ts_packet.specs.Header.{pid_of};
ghost use Rattle.named_services.specs.declared.service_word.ServiceWord.{ServiceWord};
ghost use Rattle.plug_service.specs.Actions.{IsEditable, action_after, is_edit};
ghost use Rattle.plug_service.specs.Present.{present_after};
ghost use Rattle.plug_service.specs.ServiceRule.{made_by};
ghost use Rattle.plug_service.specs.EditorsState.{left_by};

use crate::action::Action;
use crate::limits::{EIT_PID, NIT_PID, PAT_PID, SDT_PID};
use crate::nit_part::NitPart;
use crate::pat_part::PatPart;
use crate::pmt_alone::PmtAlone;
use crate::present::Present;
use crate::sdt_part::SdtPart;
use crate::way::Way;
use plug_psi::{Changes, SeesChanges, VariedEditor};
use section_flow::Flow;
use std::alloc::{AllocError, Global};
use ts_demux::other_packets_change_nothing;
use ts_packet::Packet;
use varied_edits::{EditFrom, VariedPids, take_from, untaken_packets_change_nothing};

/// The editors of PIDs 0, 16, 17 and 18 and of the PIDs that the services' PMTs had.
#[derive(Drop)]
pub(crate) struct Editors {
    pub(crate) pat: VariedEditor<PatPart>,
    pub(crate) sdt: VariedEditor<SdtPart>,
    pub(crate) nit: VariedEditor<NitPart>,
    /// What edits the sections on PID 18.
    pub(crate) eit: Flow,
    pub(crate) pmts: VariedPids<PmtAlone>,
}

impl Editors {
    ghost use Rattle.plug_service.specs.EditorsState.{EditorsStand};

    /// No packet was processed.
    pub(crate) fn new(alloc: Global, present: &Present) -> Result<Editors, AllocError>
        ensures { IfOk result (λ editors. (way : Way) (words : List ServiceWord) → EditorsStand way words editors []) }
    {
        let pats = PatPart::from_source(alloc, present)?;
        let sdts = SdtPart::from_source(alloc, present)?;
        let nits = NitPart::from_source(alloc, present)?;
        let eit = Flow::new(alloc, EIT_PID)?;
        let pat = VariedEditor::new(alloc, PAT_PID, pats)?;
        let sdt = VariedEditor::new(alloc, SDT_PID, sdts)?;
        // The largest value comes last: nothing can fail while it is held.
        let nit = VariedEditor::new(alloc, NIT_PID, nits)?;
        Ok(Editors {
            pat,
            sdt,
            nit,
            eit,
            pmts: VariedPids::new(alloc),
        })
    }

    /// Adds the PIDs whose tables are read here, if tables changed there without a new version. PID 0 is among those of the
    /// tables in force.
    pub(crate) fn add_changes(&self, changes: &mut Changes) -> Result<(), AllocError> {
        changes.add(NIT_PID, self.nit.changed())?;
        changes.add(SDT_PID, self.sdt.changed())?;
        self.pmts.add_changes(changes)
    }

    /// Edits the packet at a position in place by its action and what is in force with it, and returns whether a packet passes.
    /// A packet that passes as it came in is not touched. After `AllocError` the packet is as it was.
    #[inline]
    pub(crate) fn edit(
        &mut self,
        alloc: Global,
        at: u64,
        action: Action,
        present: &Present,
        packet: &mut Packet,
    ) -> Result<bool, AllocError>
        requires { IsEditable action (pid_of packet.old) }
        ensures made { IfOk result (λ passes. (way : Way) (words : List ServiceWord) (met : List (List ℕ)) → EditorsStand way words self.old met
            → action ≡ action_after way words (met ++ packet.old ∷ []) (pid_of packet.old) → present.now ≡ present_after way words (met ++ packet.old ∷ [])
            → left_by passes packet.new ≡ made_by way words action met packet.old) }
        ensures stands { OnOk result ((way : Way) (words : List ServiceWord) (met : List (List ℕ)) → EditorsStand way words self.old met
            → action ≡ action_after way words (met ++ packet.old ∷ []) (pid_of packet.old) → present.now ≡ present_after way words (met ++ packet.old ∷ [])
            → EditorsStand way words self.new (met ++ packet.old ∷ [])) }
        ensures as_it_was { OnErr result (packet.new ≡ packet.old) }
        ensures quiet { is_edit action ≡ false → IsOk result }
    {
        // Laws, which run nothing.
        untaken_packets_change_nothing::<PmtAlone>();
        other_packets_change_nothing();
        match action {
            Action::EditPat => {
                let pat = take_from(alloc, at, present, &mut self.pat, packet)?;
                *packet = pat;
                Ok(true)
            }
            Action::EditSdt => {
                let sdt = take_from(alloc, at, present, &mut self.sdt, packet)?;
                *packet = sdt;
                Ok(true)
            }
            Action::EditNit => {
                let nit = take_from(alloc, at, present, &mut self.nit, packet)?;
                *packet = nit;
                Ok(true)
            }
            Action::EditEit => {
                self.eit.step(present, packet)?;
                Ok(true)
            }
            Action::EditPmt => {
                let pmt = self.pmts.take(alloc, at, present, packet)?;
                *packet = pmt;
                Ok(true)
            }
            Action::Pass => Ok(true),
            Action::Drop => Ok(false),
        }
    }
}
