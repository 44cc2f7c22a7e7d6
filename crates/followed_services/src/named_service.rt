//! The service that a word means, packet by packet.

ghost use Rattle.std.specs.Prelude.{◌≡◌, ◌==◌, ◌++◌, ◌∷◌, [], ℕ, List, Option, false, IfOk, Ok, OnOk};
ghost use Rattle.ts_packet.specs.Header.{pid_of};
ghost use Rattle.plug_psi.specs.InForce.{may_have_tables};
ghost use Rattle.named_services.specs.declared.service_word.ServiceWord.{ServiceWord as GivenWord};
ghost use Rattle.followed_services.specs.ServiceNumbers.{number_after};
ghost use Rattle.followed_services.specs.NumberStands.{FollowsWord};

use crate::followed_name::FollowedName;
use named_services::{ServiceWord, Unnamed};
use std::alloc::{AllocError, Global};
use ts_packet::Packet;

/// The service that a word means by the SDT in force. Where the word is a number, no table is read.
#[derive(Drop)]
pub struct NamedService {
    number: Option<u16>,
    /// What is followed, if the word is a name.
    followed: Option<Box<FollowedName>>,
}

impl NamedService {
    ghost use Rattle.std.specs.Prelude.{◌≡◌, ◌++◌, ◌∷◌, [], ℕ, List, false, IfOk, IsOk, Ok, OnOk};
    ghost use Rattle.ts_packet.specs.Header.{pid_of};
    ghost use Rattle.named_services.specs.ServiceWords.{is_name};
    ghost use Rattle.followed_services.specs.ServiceNumbers.{may_rename, number_after};
    ghost use Rattle.followed_services.specs.NumberStands.{StandsFor};

    /// The service of a word; no packet was met. A word that is a number needs no memory.
    pub fn new(alloc: Global, word: &ServiceWord) -> Result<NamedService, AllocError>
        ensures fresh { IfOk result (λ service. StandsFor word.now service []) }
        ensures quiet { is_name word.now ≡ false → IsOk result }
    {
        match word {
            ServiceWord::Number(id) => Ok(NamedService {
                number: Some(*id),
                followed: None,
            }),
            ServiceWord::Name(_) => {
                let followed = FollowedName::new(alloc, word)?;
                Ok(NamedService {
                    number: None,
                    followed: Some(Box::new(alloc, followed)?),
                })
            }
        }
    }

    /// The number of the service that the word means with the packets that were met; `None` where no service has the name.
    #[inline]
    pub fn number(&self) -> Option<u16>
        ensures { (word : GivenWord) (met : List (List ℕ)) → StandsFor word self.now met → result ≡ number_after word met }
    {
        self.number
    }

    /// Meets the next packet, of any PID, which has a position. Returns whether with it the word may mean another service than
    /// before. After `AllocError` it is not to be used any more.
    #[inline]
    pub fn meet(&mut self, at: u64, packet: &Packet) -> Result<bool, AllocError>
        ensures stands { OnOk result ((word : GivenWord) (met : List (List ℕ)) → StandsFor word self.old met
            → StandsFor word self.new (met ++ packet.now ∷ [])) }
        ensures same { IfOk result (λ other. other ≡ false → (word : GivenWord) (met : List (List ℕ)) → StandsFor word self.old met
            → number_after word (met ++ packet.now ∷ []) ≡ number_after word met) }
        ensures quiet { (word : GivenWord) (met : List (List ℕ)) → StandsFor word self.old met
            → may_rename word (pid_of packet.now) met ≡ false → result ≡ Ok false }
    {
        match &mut self.followed {
            Some(followed) => {
                let other = renew(at, followed, &mut self.number, packet)?;
                Ok(other)
            }
            None => Ok(false),
        }
    }

    /// Why a name means no service by the tables in force; `None` where the word means one.
    pub fn unnamed(&self) -> Result<Option<Unnamed>, AllocError> {
        match &self.followed {
            Some(followed) => followed.unnamed(),
            None => Ok(None),
        }
    }
}

// Meets the next packet, where the word is a name, and finds the number anew if another service may be meant. Returns whether it
// did.
#[inline]
fn renew(
    at: u64,
    followed: &mut FollowedName,
    number: &mut Option<u16>,
    packet: &Packet,
) -> Result<bool, AllocError>
    ensures follows { OnOk result ((word : GivenWord) (met : List (List ℕ)) → FollowsWord word followed.old met
        → FollowsWord word followed.new (met ++ packet.now ∷ [])) }
    ensures number { OnOk result ((word : GivenWord) (met : List (List ℕ)) → FollowsWord word followed.old met
        → number.old ≡ number_after word met → number.new ≡ number_after word (met ++ packet.now ∷ [])) }
    ensures same { IfOk result (λ other. other ≡ false → (word : GivenWord) (met : List (List ℕ)) → FollowsWord word followed.old met
        → number_after word (met ++ packet.now ∷ []) ≡ number_after word met) }
    ensures quiet { (word : GivenWord) (met : List (List ℕ)) → FollowsWord word followed.old met
        → may_have_tables (pid_of packet.now) met ≡ false → (pid_of packet.now == 17) ≡ false → result ≡ Ok false }
{
    let other = followed.meet(at, packet)?;
    if !other {
        return Ok(false);
    }
    *number = followed.number();
    Ok(true)
}
