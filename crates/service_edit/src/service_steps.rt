//! The steps of an edit of a service's PMTs.

ghost use Rattle.std.specs.Prelude.{◌≡◌, ◌<◌, ℕ, ◌++◌, ◌∷◌, [], List, None, false, true, IfOk, OnOk, OnErr};
ghost use Rattle.ts_packet.specs.declared.numbers.TheConstants.{NULL_PID};
ghost use Rattle.ts_packet.specs.Header.{pid_of};
ghost use Rattle.plugin_trait.specs.Finding.{first_of};
ghost use Rattle.plug_psi.specs.ForceStands.{StandsFor as Forced};
ghost use Rattle.service_edit.specs.ServiceRule;
ghost use Rattle.service_edit.specs.ServiceRule.{finds_in, left_by, made_of, service_rule};
ghost use Rattle.service_edit.specs.ServiceState.{MeetsHistory, rule_of};

use crate::service_table_edit::ServiceTableEdit;
use crate::table_editor::TableEditor;
use plug_psi::{
    ByPid, Changes, FailureLatch, InForce, Unedited, pid_of_service,
    unfollowed_packets_change_nothing,
};
use plugin_options::PidSet;
use plugin_trait::{FirstFind, Outcome, Steps};
use std::alloc::{AllocError, Global};
use ts_packet::{Labels, NULL_PID, Packet};

/// Edits the tables on the PID that the first entry of a service in the PAT in force has, and drops the packets on some
/// other PIDs, or makes null packets of them.
///
/// If a step runs out of memory, every later one does too.
#[derive(Drop)]
pub struct ServiceEditSteps<E: ServiceTableEdit> {
    pub(crate) service: u16,
    pub(crate) edit: E,
    /// The PIDs whose packets go where their tables are not edited.
    pub(crate) dropped: PidSet,
    /// Whether null packets take the places of these packets.
    pub(crate) stuffing: bool,
    pub(crate) editors: ByPid<TableEditor<E>>,
    /// The first position at which a table was complete that the edit alters.
    pub(crate) found: FirstFind,
    pub(crate) failed: FailureLatch,
    pub(crate) alloc: Global,
    pub(crate) force: InForce,
}

/// New steps, which have processed no packet.
pub fn new_service_steps<E: ServiceTableEdit>(
    alloc: Global,
    service: u16,
    edit: E,
    dropped: PidSet,
    stuffing: bool,
) -> Result<ServiceEditSteps<E>, AllocError>
    ensures rule { IfOk result (λ steps. rule_of E.change steps ≡ service_rule service (E.change edit) dropped stuffing) }
    ensures fresh { IfOk result (λ steps. MeetsHistory E.change steps []) }
{
    // The largest value comes last: nothing can fail while it is held.
    let force = InForce::new(alloc)?;
    Ok(ServiceEditSteps {
        service,
        edit,
        dropped,
        stuffing,
        editors: ByPid::new(alloc),
        found: FirstFind::none(),
        failed: FailureLatch::unset(),
        alloc,
        force,
    })
}

impl<E: ServiceTableEdit> ServiceEditSteps<E> {
    ghost use Rattle.service_edit.specs.ServiceState.{Serves, StandsFor};

    /// Why nothing was edited: no PAT is in force, or by the tables in force the service is not there or has no PMT; `None`
    /// where something was edited, or the edit leaves the PMT as it is.
    pub fn unedited(&self) -> Option<Unedited> {
        if self.force.pat().is_none() {
            return Some(Unedited::NoPat);
        }
        let Some(pid) = pid_of_service(self.force.pat(), self.service) else {
            return Some(Unedited::NoService(self.service));
        };
        if self.force.pmt(self.service).is_none() {
            return Some(Unedited::NoPmt(self.service));
        }
        if self.found.is_none_below(u64::MAX) {
            return Some(Unedited::SameTables(pid));
        }
        None
    }

    /// Adds the PIDs on which tables changed without a new version.
    pub fn add_changes(&self, changes: &mut Changes) -> Result<(), AllocError> {
        self.force.add_changes(changes)
    }

    /// Processes the next packet, edits it in place, and returns whether a packet passes. After `AllocError` the packet is
    /// as it was, and every later call returns `AllocError`.
    #[inline]
    fn take(&mut self, at: u64, packet: &mut Packet) -> Result<bool, AllocError>
        ensures made { IfOk result (λ passes. (met : List (List ℕ)) → StandsFor E.change self.old met
            → left_by passes packet.new ≡ made_of self.old.service (E.change self.old.edit) self.old.dropped met packet.old) }
        ensures stands { OnOk result ((met : List (List ℕ)) → StandsFor E.change self.old met
            → StandsFor E.change self.new (met ++ packet.old ∷ [])) }
        ensures found { OnOk result ((met : List (List ℕ)) → StandsFor E.change self.old met
            → self.new.found.at ≡ first_of self.old.found.at at (finds_in self.old.service (E.change self.old.edit) met packet.old)) }
        ensures not_found { OnErr result (self.new.found ≡ self.old.found) }
        ensures spent { OnErr result (self.new.failed ≡ true) }
        ensures as_it_was { OnErr result (packet.new ≡ packet.old) }
        ensures service { self.new.service ≡ self.old.service }
        ensures edit { self.new.edit ≡ self.old.edit }
        ensures dropped { self.new.dropped ≡ self.old.dropped }
        ensures stuffing { self.new.stuffing ≡ self.old.stuffing }
    {
        self.failed.check()?;
        let answer = self.advance(at, packet);
        let passes = self.failed.note(answer)?;
        Ok(passes)
    }

    /// Processes the next packet, unless memory ran out before. After `AllocError` the packet is as it was.
    #[inline]
    fn advance(&mut self, at: u64, packet: &mut Packet) -> Result<bool, AllocError>
        ensures made { IfOk result (λ passes. (met : List (List ℕ)) → Serves E.change self.old met
            → left_by passes packet.new ≡ made_of self.old.service (E.change self.old.edit) self.old.dropped met packet.old) }
        ensures stands { OnOk result ((met : List (List ℕ)) → Serves E.change self.old met
            → Serves E.change self.new (met ++ packet.old ∷ [])) }
        ensures found { OnOk result ((met : List (List ℕ)) → Serves E.change self.old met
            → self.new.found.at ≡ first_of self.old.found.at at (finds_in self.old.service (E.change self.old.edit) met packet.old)) }
        ensures not_found { OnErr result (self.new.found ≡ self.old.found) }
        ensures as_it_was { OnErr result (packet.new ≡ packet.old) }
        ensures service { self.new.service ≡ self.old.service }
        ensures edit { self.new.edit ≡ self.old.edit }
        ensures dropped { self.new.dropped ≡ self.old.dropped }
        ensures stuffing { self.new.stuffing ≡ self.old.stuffing }
        ensures failed { self.new.failed ≡ self.old.failed }
    {
        // A law, which runs nothing.
        unfollowed_packets_change_nothing::<TableEditor<E>>();
        self.force.feed(at, packet)?;
        let pid = packet.pid();
        if !is_edited(&self.force, self.service, pid) {
            return Ok(!self.dropped.has(pid));
        }
        let edited = self.editors.take(self.alloc, at, &self.edit, (), packet)?;
        *packet = edited.packet;
        self.found.meet(at, edited.altered);
        Ok(true)
    }
}

/// Whether the tables on a PID are edited: it is that of the service's first entry, and not that of null packets.
#[inline]
fn is_edited(force: &InForce, service: u16, pid: u16) -> bool
    ensures tells { (met : List (List ℕ)) → Forced force.now met → result ≡ ServiceRule.is_edited service pid met }
    ensures below { result ≡ true → pid < NULL_PID }
{
    is_at(pid_of_service(force.pat(), service), pid)
}

// Whether a PID is there, and is this one, which is not that of null packets.
#[inline]
fn is_at(own: Option<u16>, pid: u16) -> bool
    ensures tells { result ≡ ServiceRule.is_at own pid }
    ensures below { result ≡ true → pid < NULL_PID }
{
    match own {
        Some(own) => own == pid && pid < NULL_PID,
        None => false,
    }
}

impl<E: ServiceTableEdit> Steps for ServiceEditSteps<E> {
    ghost use Rattle.std.specs.Prelude.{None, refl};
    ghost use Rattle.service_edit.specs.ServiceState.{MeetsHistory, rule_of};

    ghost rule = { λ s. rule_of E.change s };

    ghost stands_for = { λ s history. MeetsHistory E.change s history };

    ghost preallocated = { λ _. None };

    #[inline]
    fn step(&mut self, at: u64, packet: &mut Packet, _labels: &mut Labels) -> Outcome {
        match self.take(at, packet) {
            Ok(true) => Outcome::Pass,
            Ok(false) => {
                if !self.stuffing {
                    return Outcome::Drop;
                }
                *packet = Packet::null();
                Outcome::Pass
            }
            Err(_) => Outcome::NoMemory,
        }
    }

    fn pass_over(&mut self, _at: u64) {}

    fn has_fault(&self, cut: u64) -> bool {
        self.found.is_none_below(cut)
    }

    ghost quiet = { λ plugin. record { no_lines = λ history packet labels. refl; no_summary = λ history. refl } };

    ghost never_agrees = { λ plugin history. refl };
}
