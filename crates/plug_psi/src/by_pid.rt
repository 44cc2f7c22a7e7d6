//! What follows the packets of each PID.

ghost use Rattle.std.specs.Prelude.{◌≡◌, ◌<◌, ◌∷◌, ◌++◌, ℕ, [], List, Bool, true, false, None, IfOk, OnOk, nat_eq};
ghost use Rattle.indexmap.specs.IndexMap.{get};
ghost use Rattle.ts_packet.specs.Header.{pid_of};
ghost use Rattle.plug_psi.specs.Entries.{EntryStands};

use crate::changes::{Changes, SeesChanges};
use crate::follows::Follows;
use indexmap::IndexMap;
use std::alloc::{AllocError, Global};
use ts_packet::{NULL_PID, Packet};

/// For each PID on which a packet was taken, what follows its packets. It is created with the first of them.
///
/// The caller decides which packets are taken on a PID: the clauses hold for any test of whether a PID is followed at the
/// position of a packet. What follows a PID is kept once it exists, also when the PID is no longer followed.
#[derive(Drop)]
pub struct ByPid<T: Drop> {
    entries: IndexMap<u16, T>,
}

impl<T: Follows> ByPid<T> {
    ghost use Rattle.std.specs.Prelude.{◌≡◌, ◌<◌, ◌∷◌, ◌++◌, ℕ, [], List, Bool, true, IfOk, OnOk};
    ghost use Rattle.std.specs.Option.{option_copied};
    ghost use Rattle.ts_packet.specs.Header.{pid_of};
    ghost use Rattle.ts_demux.specs.TakenWhere.{taken_on};
    ghost use Rattle.plug_psi.specs.ByPid.{AllStand};
    ghost use Rattle.plug_psi.specs.Entries.{EntryStands};

    /// No packet was taken.
    pub fn new(alloc: Global) -> ByPid<T>
        ensures { (seed : T.Seed) (follows : ℕ → List (List ℕ) → Bool) → AllStand (T.stands seed) result follows [] }
    {
        ByPid {
            entries: IndexMap::new(alloc),
        }
    }

    /// Processes the next packet, whose PID is followed at its position. The seed is the same for all PIDs. After
    /// `AllocError` it is not to be used any more.
    pub fn take(
        &mut self,
        alloc: Global,
        at: u64,
        seed: &T::Seed,
        input: T::Input,
        packet: &Packet,
    ) -> Result<T::Told, AllocError>
        requires { pid_of packet.now < NULL_PID }
        ensures stands { OnOk result ((follows : ℕ → List (List ℕ) → Bool) (met : List (List ℕ)) → AllStand (T.stands seed.now) self.old follows met
            → follows (pid_of packet.now) (met ++ packet.now ∷ []) ≡ true
            → T.given (pid_of packet.now) (taken_on follows (pid_of packet.now) met) packet.now input
            → AllStand (T.stands seed.now) self.new follows (met ++ packet.now ∷ [])) }
        ensures tells { IfOk result (λ told. (follows : ℕ → List (List ℕ) → Bool) (met : List (List ℕ)) → AllStand (T.stands seed.now) self.old follows met
            → T.given (pid_of packet.now) (taken_on follows (pid_of packet.now) met) packet.now input
            → T.tells seed.now (pid_of packet.now) (taken_on follows (pid_of packet.now) met) packet.now told) }
    {
        let pid = packet.pid();
        let told = take_on(alloc, at, &mut self.entries, seed, pid, input, packet)?;
        Ok(told)
    }

    /// What follows a PID; `None` if no packet was taken on it.
    pub fn get(&self, pid: u16) -> Option<&T>
        ensures { (seed : T.Seed) (follows : ℕ → List (List ℕ) → Bool) (met : List (List ℕ)) → AllStand (T.stands seed) self.now follows met
            → EntryStands (T.stands seed) (option_copied result) pid (taken_on follows pid met) }
    {
        self.entries.get(&pid)
    }
}

impl<T: Follows + SeesChanges> ByPid<T> {
    /// Adds the PIDs on which tables changed without a new version.
    pub fn add_changes(&self, changes: &mut Changes) -> Result<(), AllocError> {
        for i in 0..self.entries.len() {
            if let Some((pid, entry)) = self.entries.get_index(i) {
                changes.add(*pid, entry.changed())?;
            }
        }
        Ok(())
    }
}

/// Passes a packet to what follows its PID. This is created if nothing follows the PID yet.
fn take_on<T: Follows>(
    alloc: Global,
    at: u64,
    entries: &mut IndexMap<u16, T>,
    seed: &T::Seed,
    pid: u16,
    input: T::Input,
    packet: &Packet,
) -> Result<T::Told, AllocError>
    requires { pid < NULL_PID }
    ensures stands { OnOk result ((taken : List (List ℕ)) → EntryStands (T.stands seed.now) (get nat_eq entries.old pid) pid taken
        → T.given pid taken packet.now input → EntryStands (T.stands seed.now) (get nat_eq entries.new pid) pid (taken ++ packet.now ∷ [])) }
    ensures tells { IfOk result (λ told. (taken : List (List ℕ)) → EntryStands (T.stands seed.now) (get nat_eq entries.old pid) pid taken
        → T.given pid taken packet.now input → T.tells seed.now pid taken packet.now told) }
    ensures others { OnOk result ((other : ℕ) → nat_eq pid other ≡ false → get nat_eq entries.new other ≡ get nat_eq entries.old other) }
{
    match entries.get_mut(&pid) {
        Some(entry) => entry.take(alloc, at, input, packet),
        None => take_first(alloc, at, entries, seed, pid, input, packet),
    }
}

/// Creates what follows a PID, and passes the first packet to it.
fn take_first<T: Follows>(
    alloc: Global,
    at: u64,
    entries: &mut IndexMap<u16, T>,
    seed: &T::Seed,
    pid: u16,
    input: T::Input,
    packet: &Packet,
) -> Result<T::Told, AllocError>
    requires pid { pid < NULL_PID }
    requires none { get nat_eq entries.old pid ≡ None }
    ensures stands { OnOk result (T.given pid [] packet.now input → EntryStands (T.stands seed.now) (get nat_eq entries.new pid) pid (packet.now ∷ [])) }
    ensures tells { IfOk result (λ told. T.given pid [] packet.now input → T.tells seed.now pid [] packet.now told) }
    ensures others { OnOk result ((other : ℕ) → nat_eq pid other ≡ false → get nat_eq entries.new other ≡ get nat_eq entries.old other) }
{
    let mut entry = T::fresh(alloc, seed, pid)?;
    let told = entry.take(alloc, at, input, packet)?;
    entries.insert(pid, entry)?;
    Ok(told)
}
