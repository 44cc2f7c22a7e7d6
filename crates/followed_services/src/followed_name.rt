//! What is followed for a word that is a name.

ghost use Rattle.std.specs.Prelude.{◌≡◌, ◌∷◌, [], IfOk};

use crate::numbers::first_number;
use named_services::{NamedServices, ServiceWord, ServiceWords, Unnamed};
use plug_psi::{InForce, both};
use std::alloc::{AllocError, Global};
use ts_packet::Packet;

/// The tables in force, and the services that a word means by them.
#[derive(Drop)]
pub(crate) struct FollowedName {
    names: NamedServices,
    force: InForce,
}

impl FollowedName {
    ghost use Rattle.std.specs.Prelude.{◌≡◌, ◌==◌, ◌++◌, ◌∷◌, [], ℕ, List, false, IfOk, Ok, OnOk};
    ghost use Rattle.ts_packet.specs.Header.{pid_of};
    ghost use Rattle.plug_psi.specs.InForce.{may_have_tables};
    ghost use Rattle.named_services.specs.declared.service_word.ServiceWord.{ServiceWord as GivenWord};
    ghost use Rattle.followed_services.specs.ServiceNumbers.{number_after};
    ghost use Rattle.followed_services.specs.NumberStands.{FollowsWord};

    /// No packet was met.
    pub(crate) fn new(alloc: Global, word: &ServiceWord) -> Result<FollowedName, AllocError>
        ensures { IfOk result (λ followed. FollowsWord word.now followed []) }
    {
        let words = only(alloc, word)?;
        let names = NamedServices::new(alloc, &words)?;
        let force = InForce::new(alloc);
        let (names, force) = both(names, force)?;
        Ok(FollowedName { names, force })
    }

    /// Meets the next packet, of any PID, which has a position. Returns whether with it the word may mean another service.
    #[inline]
    pub(crate) fn meet(&mut self, at: u64, packet: &Packet) -> Result<bool, AllocError>
        ensures stands { OnOk result ((word : GivenWord) (met : List (List ℕ)) → FollowsWord word self.old met
            → FollowsWord word self.new (met ++ packet.now ∷ [])) }
        ensures same { IfOk result (λ other. other ≡ false → (word : GivenWord) (met : List (List ℕ)) → FollowsWord word self.old met
            → number_after word (met ++ packet.now ∷ []) ≡ number_after word met) }
        ensures quiet { (word : GivenWord) (met : List (List ℕ)) → FollowsWord word self.old met
            → may_have_tables (pid_of packet.now) met ≡ false → (pid_of packet.now == 17) ≡ false → result ≡ Ok false }
    {
        let came = self.force.update(at, packet)?;
        let other = self.names.meet(at, &self.force, came, packet)?;
        Ok(other)
    }

    /// The number of the service that the word means now.
    pub(crate) fn number(&self) -> Option<u16>
        ensures { (word : GivenWord) (met : List (List ℕ)) → FollowsWord word self.now met → result ≡ number_after word met }
    {
        first_number(self.names.services())
    }

    /// Why the word means no service by the tables in force; `None` where it means one.
    pub(crate) fn unnamed(&self) -> Result<Option<Unnamed>, AllocError> {
        self.names.unnamed(&self.force)
    }
}

// One word as a list of words.
fn only(alloc: Global, word: &ServiceWord) -> Result<ServiceWords, AllocError>
    ensures { IfOk result (λ words. words ≡ word.now ∷ []) }
{
    let own = word.copy()?;
    let mut words = ServiceWords::none(alloc);
    words.add(own)?;
    Ok(words)
}
