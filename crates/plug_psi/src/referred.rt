//! The PIDs that are referred to.

ghost use Rattle.std.specs.Prelude.{◌≡◌, ℕ, ◌<◌, ◌==◌, ◌++◌, ◌∷◌, [], List, Ok, true, false, IfOk, OnOk, OnErr, IsErr, IsOk, option_map};
ghost use Rattle.std.specs.Option.{option_copied};
ghost use Rattle.ts_psi.specs.CatTables.{cat_held};
ghost use Rattle.plug_psi.specs.CatInForce.{cat_of};
ghost use Rattle.ts_packet.specs.Header.{pid_of};
ghost use Rattle.plug_psi.specs.ForceStands.{StandsFor as Forced};
ghost use Rattle.plug_psi.specs.PidFlags.{AreFlags};
ghost use Rattle.plug_psi.specs.Referred.{is_fixed, named_in, refers};
ghost use Rattle.plug_psi.specs.ReferredState.{HasCat};

use crate::cycle_editor::one_holds;
use crate::follows::Follows;
use crate::handed_over::both;
use crate::in_force::InForce;
use crate::kept_cat::KeptCat;
use crate::pid_flags::tell;
use crate::pids_in_force::named_pids;
use crate::reading::Reading;
use std::alloc::{AllocError, Global};
use ts_demux::FailureLatch;
use ts_packet::{NULL_PID, PID_COUNT, Packet, PidRow};
use ts_psi::Cat;

/// The PID of the CAT (ISO/IEC 13818-1, 2.4.4.6).
const CAT_PID: u16 = 1;

/// The greatest PID, besides 8191, that is referred to whatever tables are in force (ETSI EN 300 468, 5.1.3).
const LAST_FIXED_PID: u16 = 31;

/// For each PID, whether it is referred to after all packets that were fed.
///
/// PIDs 0 to 31 and PID 8191 always are. The others are those that the tables in force name:
/// - the PAT: the PIDs of its entries, the network PID too;
/// - the PMT of each of its services: the PIDs of the components, the PCR_PID, and the CA_PIDs of the CA descriptors of the
///   program and of the components;
/// - the CAT: its CA_PIDs.
///
/// `InForce` says which PAT and PMTs are in force. The CAT in force is the last complete table on PID 1 that is current and
/// reads as a CAT.
#[derive(Drop)]
pub struct Referred {
    force: InForce,
    one: Reading<KeptCat>,
    /// The flags of the PIDs that tables name. They are set again when another table comes into force.
    flags: PidRow<bool>,
    failed: FailureLatch,
    alloc: Global,
}

impl Referred {
    ghost use Rattle.plug_psi.specs.Referred.{may_name_pids};
    ghost use Rattle.plug_psi.specs.ReferredStands.{StandsFor, has_failed};

    /// No table is in force before a packet was fed.
    pub fn new(alloc: Global) -> Result<Referred, AllocError>
        ensures { IfOk result (λ referred. StandsFor referred []) }
    {
        let flags = PidRow::filled(alloc, false)?;
        let one = Reading::fresh(alloc, &(), CAT_PID)?;
        let force = InForce::new(alloc);
        let (one, force) = both(one, force)?;
        Ok(Referred {
            force,
            one,
            flags,
            failed: FailureLatch::unset(),
            alloc,
        })
    }

    /// Processes the next packet, of any PID, which has a position. A packet on a PID without a table that names PIDs needs no
    /// memory. After `AllocError` every later call returns `AllocError`.
    #[inline]
    pub fn feed(&mut self, at: u64, packet: &Packet) -> Result<(), AllocError>
        ensures stands { OnOk result ((fed : List (List ℕ)) → StandsFor self.old fed → StandsFor self.new (fed ++ packet.now ∷ [])) }
        ensures quiet { (fed : List (List ℕ)) → StandsFor self.old fed → may_name_pids (pid_of packet.now) fed ≡ false → IsOk result }
        ensures spent { OnErr result (has_failed self.new ≡ true) }
        ensures stays_spent { has_failed self.old ≡ true → IsErr result }
    {
        self.failed.check()?;
        let answer = self.take(at, packet);
        self.failed.note(answer)?;
        Ok(())
    }

    /// Whether a PID, below 8192, is referred to.
    #[inline]
    pub fn has(&self, pid: u16) -> bool
        requires { pid < PID_COUNT }
        ensures { (fed : List (List ℕ)) → StandsFor self.now fed → result ≡ refers fed pid }
    {
        is_fixed(pid) || self.flags.get(pid)
    }

    /// The PAT and the PMTs in force.
    pub fn in_force(&self) -> &InForce
        ensures { (fed : List (List ℕ)) → StandsFor self.now fed → Forced result.now fed }
    {
        &self.force
    }

    /// The CAT in force, if there is one.
    pub fn cat(&self) -> Option<&Cat>
        ensures { (fed : List (List ℕ)) → StandsFor self.now fed → option_map cat_held (option_copied result) ≡ cat_of fed }
    {
        self.one.follower.cat.as_ref()
    }

    /// Processes the next packet, unless memory ran out before.
    #[inline]
    fn take(&mut self, at: u64, packet: &Packet) -> Result<(), AllocError>
        ensures stands { OnOk result ((fed : List (List ℕ)) → StandsFor self.old fed → StandsFor self.new (fed ++ packet.now ∷ [])) }
        ensures quiet { (fed : List (List ℕ)) → StandsFor self.old fed → may_name_pids (pid_of packet.now) fed ≡ false → IsOk result }
        ensures same_failed { has_failed self.new ≡ has_failed self.old }
    {
        let psi_came = self.force.update(at, packet)?;
        let cat_came = take_cats(self.alloc, at, &mut self.one, packet)?;
        let came = one_holds(psi_came, cat_came);
        renew_where(self.alloc, &self.force, &self.one, &mut self.flags, came)?;
        Ok(())
    }
}

/// Passes a packet on PID 1 to the reader of that PID, and returns whether a CAT was kept.
#[inline]
fn take_cats(
    alloc: Global,
    at: u64,
    one: &mut Reading<KeptCat>,
    packet: &Packet,
) -> Result<bool, AllocError>
    ensures stands { OnOk result ((fed : List (List ℕ)) → HasCat one.old fed → HasCat one.new (fed ++ packet.now ∷ [])) }
    ensures same { IfOk result (λ came. came ≡ false → (fed : List (List ℕ)) → HasCat one.old fed
        → cat_of (fed ++ packet.now ∷ []) ≡ cat_of fed) }
    ensures quiet { (pid_of packet.now == 1) ≡ false → result ≡ Ok false }
{
    if packet.pid() != CAT_PID {
        return Ok(false);
    }
    let came = read_cats(alloc, at, one, packet)?;
    Ok(came)
}

/// The same for a packet that is on PID 1.
#[inline(never)]
fn read_cats(
    alloc: Global,
    at: u64,
    one: &mut Reading<KeptCat>,
    packet: &Packet,
) -> Result<bool, AllocError>
    requires { pid_of packet.now ≡ 1 }
    ensures stands { OnOk result ((fed : List (List ℕ)) → HasCat one.old fed → HasCat one.new (fed ++ packet.now ∷ [])) }
    ensures same { IfOk result (λ came. came ≡ false → (fed : List (List ℕ)) → HasCat one.old fed
        → cat_of (fed ++ packet.now ∷ []) ≡ cat_of fed) }
{
    let kept = one.take(alloc, at, (), packet)?;
    Ok(kept.came)
}

/// Whether a PID is referred to, whatever tables are in force.
#[inline]
fn is_fixed(pid: u16) -> bool
    ensures { result ≡ is_fixed pid }
{
    pid <= LAST_FIXED_PID || pid == NULL_PID
}

/// Sets the flags again if a table came into force.
#[inline]
fn renew_where(
    alloc: Global,
    force: &InForce,
    one: &Reading<KeptCat>,
    flags: &mut PidRow<bool>,
    came: bool,
) -> Result<(), AllocError>
    ensures stands { OnOk result ((fed : List (List ℕ)) (packet : List ℕ) → Forced force.now (fed ++ packet ∷ [])
        → HasCat one.now (fed ++ packet ∷ [])
        → (came ≡ false → named_in (fed ++ packet ∷ []) ≡ named_in fed)
        → AreFlags flags.old (named_in fed) → AreFlags flags.new (named_in (fed ++ packet ∷ []))) }
    ensures quiet { came ≡ false → IsOk result }
{
    if !came {
        return Ok(());
    }
    renew(alloc, force, one, flags)
}

/// Sets the flags again. It allocates memory on the way, and keeps none.
#[inline(never)]
fn renew(
    alloc: Global,
    force: &InForce,
    one: &Reading<KeptCat>,
    flags: &mut PidRow<bool>,
) -> Result<(), AllocError>
    ensures { OnOk result ((fed : List (List ℕ)) → Forced force.now fed → HasCat one.now fed
        → AreFlags flags.new (named_in fed)) }
{
    let pids = named_pids(alloc, force, one.follower.cat.as_ref())?;
    tell(flags, &pids, &[]);
    Ok(())
}
