//! The steps of `zap` and `svremove`.

ghost use Rattle.std.specs.Prelude.{◌≡◌, ℕ, ◌++◌, ◌∷◌, [], List, None, true, false, IfOk, IsOk, OnOk, OnErr};
ghost use Rattle.ts_packet.specs.Header.{pid_of};
ghost use Rattle.plugin_trait.specs.Finding.{first_of};
ghost use Rattle.named_services.specs.declared.service_word.ServiceWord.{ServiceWord};
ghost use Rattle.plug_service.specs.Actions.{may_be_read};
ghost use Rattle.plug_service.specs.ActionsState.{FollowsServices};
ghost use Rattle.plug_service.specs.Presence.{is_there_after};
ghost use Rattle.plug_service.specs.ServiceRule.{made_of};
ghost use Rattle.plug_service.specs.ServiceState.{IsNoted};
ghost use Rattle.plug_service.specs.EditorsState.{left_by};

use crate::editors::Editors;
use crate::service_follower::ServiceFollower;
use crate::way::Way;
use named_services::{ServiceWords, Unnamed};
use plug_psi::{Changes, FailureLatch, Unedited, both, pid_of_service};
use plugin_trait::{FirstFind, Outcome, Steps};
use std::alloc::{AllocError, Global};
use ts_packet::{Labels, Packet};

/// Keeps some services of a transport stream alone, or removes them.
///
/// If a step runs out of memory, every later step does too.
#[derive(Drop)]
pub struct ServiceSteps {
    pub(crate) way: Way,
    pub(crate) words: ServiceWords,
    pub(crate) stuffing: bool,
    pub(crate) follower: ServiceFollower,
    pub(crate) editors: Editors,
    /// The first position at which one of the services was there.
    pub(crate) found: FirstFind,
    pub(crate) failed: FailureLatch,
    pub(crate) alloc: Global,
}

impl ServiceSteps {
    ghost use Rattle.plug_service.specs.ServiceState.{Served, StandsFor, rule_of};

    /// New steps, which have processed no packet.
    pub(crate) fn new(
        alloc: Global,
        way: Way,
        words: &ServiceWords,
        stuffing: bool,
    ) -> Result<ServiceSteps, AllocError>
        ensures stands { IfOk result (λ plugin. StandsFor plugin []) }
        ensures found { IfOk result (λ plugin. plugin.found.at ≡ None) }
        ensures way { IfOk result (λ plugin. plugin.way ≡ way) }
        ensures words { IfOk result (λ plugin. plugin.words ≡ words.now) }
        ensures stuffing { IfOk result (λ plugin. plugin.stuffing ≡ stuffing) }
    {
        let own = words.copy(alloc)?;
        let follower = ServiceFollower::new(alloc, way, words)?;
        let editors = Editors::new(alloc, &follower.present);
        let (follower, editors) = both(follower, editors)?;
        Ok(ServiceSteps {
            way,
            words: own,
            stuffing,
            follower,
            editors,
            found: FirstFind::none(),
            failed: FailureLatch::unset(),
            alloc,
        })
    }

    /// Why nothing was edited, or not all that was meant: no PAT is in force, or by the tables in force a service is not
    /// there, of several the first.
    pub fn unedited(&self) -> Option<Unedited> {
        if self.follower.force.pat().is_none() {
            return Some(Unedited::NoPat);
        }
        for service in self.follower.present.services.as_slice() {
            let missing = self.missing(*service);
            if missing.is_some() {
                return missing;
            }
        }
        None
    }

    /// Why a name means no service by the tables in force, of several the first; `None` where each means one.
    pub fn unnamed(&self) -> Result<Option<Unnamed>, AllocError> {
        self.follower.names.unnamed(&self.follower.force)
    }

    /// What is missing of a service by the tables in force.
    fn missing(&self, service: u16) -> Option<Unedited> {
        let force = &self.follower.force;
        if pid_of_service(force.pat(), service).is_none() {
            return Some(Unedited::NoService(service));
        }
        match self.way {
            Way::Keep(_) if force.pmt(service).is_none() => Some(Unedited::NoPmt(service)),
            Way::Keep(_) | Way::Remove { .. } => None,
        }
    }

    /// Adds the PIDs on which tables changed without a new version.
    pub fn add_changes(&self, changes: &mut Changes) -> Result<(), AllocError> {
        self.follower.force.add_changes(changes)?;
        self.editors.add_changes(changes)
    }

    /// Processes the next packet, edits it in place, and returns whether a packet passes. After `AllocError` the packet is
    /// as it was, and every later call returns `AllocError`.
    #[inline]
    fn take(&mut self, at: u64, packet: &mut Packet) -> Result<bool, AllocError>
        ensures made { IfOk result (λ passes. (met : List (List ℕ)) → StandsFor self.old met
            → left_by passes packet.new ≡ made_of self.old.way self.old.words met packet.old) }
        ensures stands { OnOk result ((met : List (List ℕ)) → StandsFor self.old met → StandsFor self.new (met ++ packet.old ∷ [])) }
        ensures found { OnOk result ((met : List (List ℕ)) → StandsFor self.old met → self.new.found.at
            ≡ first_of self.old.found.at at (is_there_after self.old.way self.old.words (met ++ packet.old ∷ []))) }
        ensures not_found { OnErr result (self.new.found ≡ self.old.found) }
        ensures spent { OnErr result (self.new.failed ≡ true) }
        ensures as_it_was { OnErr result (packet.new ≡ packet.old) }
        ensures way { self.new.way ≡ self.old.way }
        ensures words { self.new.words ≡ self.old.words }
        ensures stuffing { self.new.stuffing ≡ self.old.stuffing }
        ensures quiet { (met : List (List ℕ)) → self.old.failed ≡ false → StandsFor self.old met
            → may_be_read self.old.way (pid_of packet.old) met ≡ false → IsOk result }
    {
        self.failed.check()?;
        let answer = self.advance(at, packet);
        let passes = self.failed.note(answer)?;
        Ok(passes)
    }

    /// Processes the next packet, unless memory ran out before. After `AllocError` the packet is as it was.
    #[inline]
    fn advance(&mut self, at: u64, packet: &mut Packet) -> Result<bool, AllocError>
        ensures made { IfOk result (λ passes. (way : Way) (words : List ServiceWord) (met : List (List ℕ)) → Served way words self.old met
            → left_by passes packet.new ≡ made_of way words met packet.old) }
        ensures stands { OnOk result ((way : Way) (words : List ServiceWord) (met : List (List ℕ)) → Served way words self.old met
            → Served way words self.new (met ++ packet.old ∷ [])) }
        ensures found { OnOk result ((way : Way) (words : List ServiceWord) (met : List (List ℕ)) → Served way words self.old met
            → self.new.found.at ≡ first_of self.old.found.at at (is_there_after way words (met ++ packet.old ∷ []))) }
        ensures not_found { OnErr result (self.new.found ≡ self.old.found) }
        ensures as_it_was { OnErr result (packet.new ≡ packet.old) }
        ensures way { self.new.way ≡ self.old.way }
        ensures words { self.new.words ≡ self.old.words }
        ensures stuffing { self.new.stuffing ≡ self.old.stuffing }
        ensures failed { self.new.failed ≡ self.old.failed }
        ensures quiet { (way : Way) (words : List ServiceWord) (met : List (List ℕ)) → Served way words self.old met
            → may_be_read way (pid_of packet.old) met ≡ false → IsOk result }
    {
        let (action, came) = self.follower.meet(self.alloc, at, packet)?;
        let present = &self.follower.present;
        let passes = self.editors.edit(self.alloc, at, action, present, packet)?;
        note_where(&mut self.found, at, &self.follower, came);
        Ok(passes)
    }
}

/// Notes at a position whether one of the services is there, if other tables may be in force.
#[inline]
fn note_where(found: &mut FirstFind, at: u64, follower: &ServiceFollower, came: bool)
    ensures { (way : Way) (words : List ServiceWord) (before after : List (List ℕ)) → FollowsServices way words follower.now after
        → (came ≡ false → is_there_after way words after ≡ is_there_after way words before)
        → IsNoted found.old (is_there_after way words before)
        → found.new.at ≡ first_of found.old.at at (is_there_after way words after) }
{
    if !came {
        return;
    }
    found.meet(at, follower.is_there());
}

impl Steps for ServiceSteps {
    ghost use Rattle.std.specs.Prelude.{◌≡◌, ◌≢◌, ◌<◌, List, None, false, refl};
    ghost use Rattle.ts_packet.specs.declared.cell.Cell.{Cell};
    ghost use Rattle.ts_packet.specs.Cells.{Live, live_packets};
    ghost use Rattle.ts_packet.specs.Header.{pid_of};
    ghost use Rattle.chain_model.specs.declared.positions.TheConstants.{POSITION_LIMIT};
    ghost use Rattle.plugin_trait.specs.Steps.{MeetsCells, Meets, Tells, left_of};
    ghost use Rattle.plugin_trait.specs.Unmarked.{unmarked};
    ghost use Rattle.plug_service.specs.Actions.{may_be_read};
    ghost use Rattle.plug_service.specs.ServiceState.{MeetsHistory, rule_of};

    ghost rule = { λ s. rule_of s };

    ghost stands_for = { λ s history. MeetsHistory s history };

    ghost preallocated = { λ _. None };

    /// The clauses are those of `Steps`, whose ghost members have no names here, and one more: a packet on a PID whose
    /// tables are neither read nor edited needs no memory.
    #[inline]
    fn step(&mut self, at: u64, packet: &mut Packet, _labels: &mut Labels) -> Outcome
        requires met { MeetsCells (unmarked (MeetsHistory self.old)) at }
        requires in_range { at < POSITION_LIMIT }
        ensures tells { Tells (rule_of self.old) (unmarked (MeetsHistory self.old)) at
            (Live packet.old _labels.old) result (left_of result packet.new _labels.new) }
        ensures meets { Meets (unmarked (MeetsHistory self.old)) (unmarked (MeetsHistory self.new)) at
            (Live packet.old _labels.old) result }
        ensures same_rule { rule_of self.new ≡ rule_of self.old }
        ensures quiet { (history : List Cell) → self.old.failed ≡ false → MeetsHistory self.old history
            → may_be_read self.old.way (pid_of packet.old) (live_packets history) ≡ false → result ≢ Outcome.NoMemory }
    {
        match self.take(at, packet) {
            Ok(true) => Outcome::Pass,
            Ok(false) => {
                if !self.stuffing {
                    return Outcome::Drop;
                }
                *packet = Packet::null();
                Outcome::Pass
            }
            Err(_) => Outcome::NoMemory,
        }
    }

    fn pass_over(&mut self, _at: u64) {}

    fn has_fault(&self, cut: u64) -> bool {
        self.found.is_none_below(cut)
    }

    ghost quiet = { λ plugin. record { no_lines = λ history packet labels. refl; no_summary = λ history. refl } };

    ghost never_agrees = { λ plugin history. refl };
}
