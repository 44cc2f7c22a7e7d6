//! What follows services: which are meant, the tables in force, and the actions by them.

ghost use Rattle.std.specs.Prelude.{◌≡◌, ℕ, ◌++◌, ◌∷◌, ◌||◌, [], List, false, IfOk, IsOk, OnOk};
ghost use Rattle.ts_packet.specs.Header.{pid_of};
ghost use Rattle.plug_psi.specs.InForce.{pat_of, pmt_of};
ghost use Rattle.plug_psi.specs.ForceStands.{StandsFor as Forced};
ghost use Rattle.plug_psi.specs.SameForce.{SameInForce};
ghost use Rattle.named_services.specs.NamesStand.{NamesStand, StaysMeant};
ghost use Rattle.named_services.specs.declared.service_word.ServiceWord.{ServiceWord};
ghost use Rattle.plug_service.specs.Actions.{IsEditable, action_after, is_edit, may_be_read};
ghost use Rattle.plug_service.specs.ActionsState.{ActionsStand};
ghost use Rattle.plug_service.specs.Presence.{is_any_there, is_there, is_there_after};
ghost use Rattle.plug_service.specs.Present.{present_after};

use crate::action::Action;
use crate::pid_actions::PidActions;
use crate::present::Present;
use crate::way::Way;
use named_services::{NamedServices, ServiceWords};
use plug_psi::{InForce, pid_of_service};
use service_items::stream_in_force;
use std::alloc::{AllocError, Global};
use ts_packet::Packet;

/// Follows services: which words mean, the tables in force, and what becomes of the packets on each PID by them.
#[derive(Drop)]
pub(crate) struct ServiceFollower {
    pub(crate) present: Present,
    pub(crate) actions: PidActions,
    pub(crate) names: NamedServices,
    pub(crate) force: InForce,
}

impl ServiceFollower {
    ghost use Rattle.plug_service.specs.ActionsState.{FollowsServices};

    /// A new follower, which has processed no packet.
    pub(crate) fn new(
        alloc: Global,
        way: Way,
        words: &ServiceWords,
    ) -> Result<ServiceFollower, AllocError>
        ensures { IfOk result (λ follower. FollowsServices way words.now follower []) }
    {
        let names = NamedServices::new(alloc, words)?;
        let force = InForce::new(alloc)?;
        let present = present_of(alloc, way, &names, &force)?;
        let mut actions = PidActions::new(alloc)?;
        actions.renew(alloc, &present, &force)?;
        Ok(ServiceFollower {
            present,
            actions,
            names,
            force,
        })
    }

    /// Processes the next packet, of any PID, which has a position. Returns its action, and whether with it other services
    /// may be meant or other tables in force.
    #[inline]
    pub(crate) fn meet(
        &mut self,
        alloc: Global,
        at: u64,
        packet: &Packet,
    ) -> Result<(Action, bool), AllocError>
        ensures stands { OnOk result ((way : Way) (words : List ServiceWord) (met : List (List ℕ)) → FollowsServices way words self.old met
            → FollowsServices way words self.new (met ++ packet.now ∷ [])) }
        ensures tells { IfOk result (λ told. (way : Way) (words : List ServiceWord) (met : List (List ℕ)) → FollowsServices way words self.old met
            → told.0 ≡ action_after way words (met ++ packet.now ∷ []) (pid_of packet.now)) }
        ensures same { IfOk result (λ told. told.1 ≡ false → (way : Way) (words : List ServiceWord) (met : List (List ℕ)) → FollowsServices way words self.old met
            → is_there_after way words (met ++ packet.now ∷ []) ≡ is_there_after way words met) }
        ensures editable { IfOk result (λ told. IsEditable told.0 (pid_of packet.now)) }
        ensures quiet { (way : Way) (words : List ServiceWord) (met : List (List ℕ)) → FollowsServices way words self.old met
            → may_be_read way (pid_of packet.now) met ≡ false → IsOk result }
        ensures unread { IfOk result (λ told. (way : Way) (words : List ServiceWord) (met : List (List ℕ)) → FollowsServices way words self.old met
            → may_be_read way (pid_of packet.now) met ≡ false → is_edit told.0 ≡ false) }
    {
        let came = self.force.update(at, packet)?;
        let other = self.names.meet(at, &self.force, came, packet)?;
        let changed = either(came, other);
        renew_where(
            alloc,
            &self.force,
            &self.names,
            &mut self.present,
            &mut self.actions,
            changed,
        )?;
        Ok((self.actions.action(packet.pid()), changed))
    }

    /// Whether one of the services is there by the tables in force.
    pub(crate) fn is_there(&self) -> bool
        ensures { (way : Way) (words : List ServiceWord) (met : List (List ℕ)) → FollowsServices way words self.now met
            → result ≡ is_there_after way words met }
    {
        self.is_any_there(self.present.services.as_slice())
    }

    /// Whether one of some services is there by the tables in force.
    fn is_any_there(&self, services: &[u16]) -> bool
        ensures { (way : Way) (words : List ServiceWord) (met : List (List ℕ)) → FollowsServices way words self.now met
            → result ≡ is_any_there way services.now (pat_of met) (λ service. pmt_of service met) }
    {
        for service in services {
            if self.is_one_there(*service) {
                return true;
            }
        }
        false
    }

    /// Whether a service is there by the tables in force: the PAT has an entry of it, and if it is kept, it has a PMT.
    fn is_one_there(&self, service: u16) -> bool
        ensures { (way : Way) (words : List ServiceWord) (met : List (List ℕ)) → FollowsServices way words self.now met
            → result ≡ is_there way service (pat_of met) (pmt_of service met) }
    {
        let Some(_pid) = pid_of_service(self.force.pat(), service) else {
            return false;
        };
        match self.present.way {
            Way::Keep(_) => self.force.pmt(service).is_some(),
            Way::Remove { .. } => true,
        }
    }
}

/// Whether at least one of two holds.
#[inline]
fn either(one: bool, other: bool) -> bool
    ensures { result ≡ (one || other) }
{
    one || other
}

/// Renews what is in force, and the actions by it, if other services may be meant or other tables be in force.
#[inline]
fn renew_where(
    alloc: Global,
    force: &InForce,
    names: &NamedServices,
    present: &mut Present,
    actions: &mut PidActions,
    changed: bool,
) -> Result<(), AllocError>
    ensures stands { OnOk result ((way : Way) (words : List ServiceWord) (met : List (List ℕ)) (packet : List ℕ) → Forced force.now (met ++ packet ∷ [])
        → NamesStand words names.now (met ++ packet ∷ []) → (changed ≡ false → SameInForce met packet × StaysMeant words met packet)
        → present.old ≡ present_after way words met → ActionsStand actions.old present.old (pat_of met) (λ other. pmt_of other met)
        → (present.new ≡ present_after way words (met ++ packet ∷ []))
        × ActionsStand actions.new present.new (pat_of (met ++ packet ∷ [])) (λ other. pmt_of other (met ++ packet ∷ []))) }
    ensures quiet { changed ≡ false → IsOk result }
{
    if !changed {
        return Ok(());
    }
    let now = present_of(alloc, present.way, names, force)?;
    actions.renew(alloc, &now, force)?;
    *present = now;
    Ok(())
}

/// What is in force.
fn present_of(
    alloc: Global,
    way: Way,
    names: &NamedServices,
    force: &InForce,
) -> Result<Present, AllocError>
    ensures { IfOk result (λ present. (words : List ServiceWord) (met : List (List ℕ)) → NamesStand words names.now met → Forced force.now met
        → present ≡ present_after way words met) }
{
    let services = names.services().copy(alloc)?;
    Ok(Present {
        way,
        services,
        unknown: names.are_unknown(),
        stream: stream_in_force(force),
    })
}
