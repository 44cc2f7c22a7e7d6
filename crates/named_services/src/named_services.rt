//! The services that words mean, packet by packet.

ghost use Rattle.std.specs.Prelude.{◌≡◌, ◌==◌, ◌++◌, ◌∷◌, [], ℕ, List, false, true, is_none, length, IfOk, Ok, OnOk, option_map};
ghost use Rattle.std.specs.Option.{option_copied};
ghost use Rattle.ts_packet.specs.Header.{pid_of};
ghost use Rattle.plug_psi.specs.ForceStands.{StandsFor as Forced};
ghost use Rattle.plug_psi.specs.SameForce.{SameInForce};
ghost use Rattle.ts_si.specs.SiTables.{sdt_held};
ghost use Rattle.named_services.specs.NamedServices.{are_unknown, services_after};
ghost use Rattle.named_services.specs.NamesStand.{AreMeant, FollowsSdts, StaysMeant};
ghost use Rattle.named_services.specs.SdtStands.{HasFedSdt};
ghost use Rattle.named_services.specs.ServiceWords.{has_name};

use crate::meant::Meant;
use crate::named::{number_by, numbers_by};
use crate::sdt_in_force::SdtInForce;
use crate::service_list::ServiceList;
use crate::service_word::ServiceWord;
use crate::unnamed::Unnamed;
use crate::word_list::ServiceWords;
use plug_psi::InForce;
use service_items::stream_in_force;
use std::alloc::{AllocError, Global};
use ts_packet::Packet;
use ts_section::TableRun;
use ts_si::Sdt;

/// The services that words mean by the SDT in force. Where all words are numbers, no SDT is read.
#[derive(Drop)]
pub struct NamedServices {
    words: ServiceWords,
    meant: Meant,
    alloc: Global,
    /// The SDTs, if a word is a name.
    sdts: Option<SdtInForce>,
}

impl NamedServices {
    ghost use Rattle.named_services.specs.NamesStand.{NamesStand};
    ghost use Rattle.named_services.specs.declared.service_word.ServiceWord.{ServiceWord as GivenWord};

    /// The services of words; no packet was met.
    pub fn new(alloc: Global, words: &ServiceWords) -> Result<NamedServices, AllocError>
        ensures { IfOk result (λ named. NamesStand words.now named []) }
    {
        let own = words.copy(alloc)?;
        let services = numbers_by(alloc, words, None)?;
        let unknown = words.has_name();
        // The largest value comes last: nothing can fail while it is held.
        let sdts = sdts_for(alloc, unknown)?;
        Ok(NamedServices {
            words: own,
            meant: Meant { services, unknown },
            alloc,
            sdts,
        })
    }

    /// The numbers of the services, each once. A name that no service has is left out.
    pub fn services(&self) -> &ServiceList
        ensures { (words : List GivenWord) (met : List (List ℕ)) → NamesStand words self.now met → result.now ≡ services_after words met }
    {
        &self.meant.services
    }

    /// Whether a word is a name, and no SDT is in force, so that it is not known yet which services are meant.
    pub fn are_unknown(&self) -> bool
        ensures { (words : List GivenWord) (met : List (List ℕ)) → NamesStand words self.now met → result ≡ are_unknown words met }
    {
        self.meant.unknown
    }

    /// Why a word means no service by the tables in force, of several the first; `None` where each means one.
    pub fn unnamed(&self, force: &InForce) -> Result<Option<Unnamed>, AllocError> {
        let Some(sdts) = &self.sdts else {
            return Ok(None);
        };
        let sdt = sdts.in_force(stream_in_force(force));
        if is_missing(sdt) {
            return Ok(Some(Unnamed::NoSdt));
        }
        if all_mean_one(self.alloc, self.words.as_slice(), sdt)? {
            return Ok(None);
        }
        Ok(Some(Unnamed::NoName))
    }

    /// Meets the next packet, of any PID, which has a position; the tables in force are those with it, and `came` says
    /// whether another PAT may be. Returns whether with it other services may be meant, or it may be known now which are.
    /// After `AllocError` it is not to be used any more.
    #[inline]
    pub fn meet(
        &mut self,
        at: u64,
        force: &InForce,
        came: bool,
        packet: &Packet,
    ) -> Result<bool, AllocError>
        ensures stands { OnOk result ((words : List GivenWord) (met : List (List ℕ)) → NamesStand words self.old met
            → Forced force.now (met ++ packet.now ∷ []) → (came ≡ false → SameInForce met packet.now)
            → NamesStand words self.new (met ++ packet.now ∷ [])) }
        ensures same { IfOk result (λ other. other ≡ false → (words : List GivenWord) (met : List (List ℕ)) → NamesStand words self.old met
            → Forced force.now (met ++ packet.now ∷ []) → (came ≡ false → SameInForce met packet.now)
            → StaysMeant words met packet.now) }
        ensures quiet { (pid_of packet.now == 17) ≡ false → came ≡ false → result ≡ Ok false }
    {
        match &mut self.sdts {
            Some(sdts) => {
                let other = follow(
                    self.alloc,
                    at,
                    &self.words,
                    sdts,
                    &mut self.meant,
                    force,
                    came,
                    packet,
                )?;
                Ok(other)
            }
            None => Ok(false),
        }
    }
}

// Feeds a packet to what follows the SDTs, where a word is a name, and finds the services anew if another SDT may be in
// force. Returns whether it did.
fn follow(
    alloc: Global,
    at: u64,
    words: &ServiceWords,
    sdts: &mut SdtInForce,
    meant: &mut Meant,
    force: &InForce,
    came: bool,
    packet: &Packet,
) -> Result<bool, AllocError>
    ensures fed { OnOk result ((fed : List (List ℕ)) → HasFedSdt sdts.old fed → HasFedSdt sdts.new (fed ++ packet.now ∷ [])) }
    ensures meant { OnOk result ((fed : List (List ℕ)) → has_name words.now ≡ true → HasFedSdt sdts.old fed → Forced force.now (fed ++ packet.now ∷ [])
        → (came ≡ false → SameInForce fed packet.now) → AreMeant words.now meant.old fed → AreMeant words.now meant.new (fed ++ packet.now ∷ [])) }
    ensures same { IfOk result (λ other. other ≡ false → meant.new ≡ meant.old) }
    ensures quiet { (pid_of packet.now == 17) ≡ false → came ≡ false → result ≡ Ok false }
{
    let tables = sdts.feed(at, packet)?;
    if stays(came, &tables) {
        return Ok(false);
    }
    let now = meant_by(alloc, words, sdts, force)?;
    *meant = now;
    Ok(true)
}

// Whether no PAT came, and no table on PID 17.
fn stays(came: bool, tables: &[TableRun]) -> bool
    ensures stays { result ≡ true → (came ≡ false) × (length tables.now ≡ 0) }
    ensures changes { result ≡ false → came ≡ false → length tables.now ≡ 0 → ⊥ }
{
    if came {
        return false;
    }
    tables.is_empty()
}

// What words mean, of which one is a name.
fn meant_by(
    alloc: Global,
    words: &ServiceWords,
    sdts: &SdtInForce,
    force: &InForce,
) -> Result<Meant, AllocError>
    ensures { IfOk result (λ meant. (fed : List (List ℕ)) → HasFedSdt sdts.now fed → Forced force.now fed → has_name words.now ≡ true
        → AreMeant words.now meant fed) }
{
    let sdt = sdts.in_force(stream_in_force(force));
    let services = numbers_by(alloc, words, sdt)?;
    Ok(Meant {
        services,
        unknown: is_missing(sdt),
    })
}

// Whether each word means a service where this SDT is in force.
fn all_mean_one(
    alloc: Global,
    words: &[ServiceWord],
    sdt: Option<&Sdt>,
) -> Result<bool, AllocError> {
    for word in words {
        if number_by(alloc, word, sdt)?.is_none() {
            return Ok(false);
        }
    }
    Ok(true)
}

// Whether there is no SDT.
fn is_missing(sdt: Option<&Sdt>) -> bool
    ensures { result ≡ is_none (option_map sdt_held (option_copied sdt.entry)) }
{
    match sdt {
        Some(_) => false,
        None => true,
    }
}

// What follows the SDTs, if a word is a name.
fn sdts_for(alloc: Global, has_name: bool) -> Result<Option<SdtInForce>, AllocError>
    ensures { IfOk result (λ sdts. FollowsSdts has_name sdts []) }
{
    if !has_name {
        return Ok(None);
    }
    let sdts = SdtInForce::new(alloc)?;
    Ok(Some(sdts))
}
