//! The tables in force.

ghost use Rattle.std.specs.Prelude.{◌≡◌, ℕ, ◌<◌, ◌==◌, ◌++◌, ◌∷◌, ◌&&◌, ◌||◌, [], List, None, Ok, true, false, not, IfOk, OnOk, OnErr, IsErr, IsOk, option_map};
ghost use Rattle.std.specs.Option.{option_copied};
ghost use Rattle.ts_psi.specs.PatTables.{pat_held};
ghost use Rattle.ts_psi.specs.PsiTables.{pmt_held};
ghost use Rattle.plug_psi.specs.InForce.{is_named, names, pat_of, pmt_of, pmt_on};
ghost use Rattle.ts_demux.specs.TablesOn.{Completes, packets_on};
ghost use Rattle.ts_packet.specs.Header.{pid_of};
ghost use Rattle.plug_psi.specs.ForceState.{HasPat, HavePmts};
ghost use Rattle.plug_psi.specs.SameForce.{SameInForce};

use crate::by_pid::ByPid;
use crate::changes::Changes;
use crate::current_pat::CurrentPat;
use crate::cycle_editor::one_holds;
use crate::follow_laws::unfollowed_packets_change_nothing;
use crate::follows::Follows;
use crate::kept_pmts::KeptPmts;
use crate::reading::Reading;
use std::alloc::{AllocError, Global};
use std::mem;
use ts_demux::FailureLatch;
use ts_packet::{NULL_PID, PID_COUNT, Packet};
use ts_psi::{Pat, Pmt};
use ts_section::TableRun;

/// The PID of the PAT (ISO/IEC 13818-1, 2.4.3.3).
const PAT_PID: u16 = 0;

/// What is kept of the PIDs on which packets were taken.
type Pids = ByPid<Reading<KeptPmts>>;

/// The PAT in force and the PMTs in force, of all packets that were fed.
///
/// The PAT in force is the last complete table on PID 0 that is current and reads as a PAT. The PMT in force of a
/// service is the last complete table that is current and reads as its PMT, of the packets on the PID of its first
/// entry in that PAT; of these, packets count at whose positions the PAT in force named the PID by a service.
/// Packets on PID 8191 never count.
#[derive(Drop)]
pub struct InForce {
    zero: Reading<CurrentPat>,
    pids: Pids,
    /// The tables of the last packet on PID 0, and of the last one on a PID whose packets are taken.
    pats: Vec<TableRun>,
    pmts: Vec<TableRun>,
    failed: FailureLatch,
    alloc: Global,
}

impl InForce {
    ghost use Rattle.ts_packet.specs.Header.{pid_of};
    ghost use Rattle.ts_demux.specs.TablesOn.{Completes, packets_on};
    ghost use Rattle.ts_demux.specs.TakenWhere.{taken_on};
    ghost use Rattle.plug_psi.specs.ForceStands.{StandsFor, has_failed, pats_in, pmts_in};
    ghost use Rattle.plug_psi.specs.InForce.{follows, may_have_tables};

    /// Nothing is in force before a packet was fed.
    pub fn new(alloc: Global) -> Result<InForce, AllocError>
        ensures { IfOk result (λ force. StandsFor force []) }
    {
        Ok(InForce {
            zero: Reading::fresh(alloc, &(), PAT_PID)?,
            pids: ByPid::new(alloc),
            pats: Vec::new(alloc),
            pmts: Vec::new(alloc),
            failed: FailureLatch::unset(),
            alloc,
        })
    }

    /// Processes the next packet, of any PID, which has a position. After `AllocError` every later call returns
    /// `AllocError`.
    pub fn feed(&mut self, at: u64, packet: &Packet) -> Result<(), AllocError>
        ensures stands { OnOk result ((fed : List (List ℕ)) → StandsFor self.old fed → StandsFor self.new (fed ++ packet.now ∷ [])) }
        ensures quiet { (fed : List (List ℕ)) → StandsFor self.old fed → may_have_tables (pid_of packet.now) fed ≡ false → IsOk result }
        ensures spent { OnErr result (has_failed self.new ≡ true) }
        ensures stays_spent { has_failed self.old ≡ true → IsErr result }
    {
        self.update(at, packet)?;
        Ok(())
    }

    /// Processes the next packet as `feed` does. If the result is `false`, the same PAT and PMTs are in force as before;
    /// `true` says that a PAT or a PMT may have come into force with it, so what was made from them has to be made again.
    /// A packet on a PID that is not followed needs no memory, and neither brings a table.
    ///
    /// The tables that it completes on PID 0, or on a PID whose packets are taken, are returned by `take_pats` and
    /// `take_pmts`. So a caller that needs these tables too does not read them again.
    #[inline]
    pub fn update(&mut self, at: u64, packet: &Packet) -> Result<bool, AllocError>
        ensures stands { OnOk result ((fed : List (List ℕ)) → StandsFor self.old fed → StandsFor self.new (fed ++ packet.now ∷ [])) }
        ensures same { IfOk result (λ came. came ≡ false → (fed : List (List ℕ)) → StandsFor self.old fed → SameInForce fed packet.now) }
        ensures pats { OnOk result ((fed : List (List ℕ)) → StandsFor self.old fed → pid_of packet.now ≡ 0
            → Completes 0 (packets_on 0 fed) packet.now (pats_in self.new)) }
        ensures pmts { OnOk result ((fed : List (List ℕ)) → StandsFor self.old fed
            → follows (pid_of packet.now) (fed ++ packet.now ∷ []) ≡ true
            → Completes (pid_of packet.now) (taken_on follows (pid_of packet.now) fed) packet.now (pmts_in self.new)) }
        ensures quiet { (fed : List (List ℕ)) → StandsFor self.old fed → may_have_tables (pid_of packet.now) fed ≡ false → result ≡ Ok false }
        ensures spent { OnErr result (has_failed self.new ≡ true) }
        ensures stays_spent { has_failed self.old ≡ true → IsErr result }
    {
        // A law, which runs nothing.
        unfollowed_packets_change_nothing::<Reading<KeptPmts>>();
        self.failed.check()?;
        // Nearly all packets end here.
        let pid = packet.pid();
        if !may_have_tables(&self.zero, pid) {
            return Ok(false);
        }
        let answer = self.read(at, packet);
        let came = self.failed.note(answer)?;
        Ok(came)
    }

    /// The tables that were completed by the last packet on PID 0. They are handed on once.
    pub fn take_pats(&mut self) -> Vec<TableRun>
        ensures pats { result.items ≡ pats_in self.old }
        ensures stands { (fed : List (List ℕ)) → StandsFor self.old fed → StandsFor self.new fed }
    {
        mem::replace(&mut self.pats, Vec::new(self.alloc))
    }

    /// The tables that were completed by the last packet on a PID whose packets are taken. They are handed on once.
    pub fn take_pmts(&mut self) -> Vec<TableRun>
        ensures pmts { result.items ≡ pmts_in self.old }
        ensures stands { (fed : List (List ℕ)) → StandsFor self.old fed → StandsFor self.new fed }
    {
        mem::replace(&mut self.pmts, Vec::new(self.alloc))
    }

    /// The PAT in force, if there is one.
    pub fn pat(&self) -> Option<&Pat>
        ensures { (fed : List (List ℕ)) → StandsFor self.now fed → option_map pat_held (option_copied result) ≡ pat_of fed }
    {
        self.zero.follower.as_ref()
    }

    /// Whether a service of the PAT in force has this PID.
    pub fn names(&self, pid: u16) -> bool
        ensures { (fed : List (List ℕ)) → StandsFor self.now fed → result ≡ names (pat_of fed) pid }
    {
        self.zero.follower.names(pid)
    }

    /// Whether the packets of a PID are taken now: a service of the PAT in force has it, and it is not 8191.
    #[inline]
    pub fn follows(&self, pid: u16) -> bool
        ensures { (fed : List (List ℕ)) → StandsFor self.now fed → result ≡ follows pid fed }
    {
        is_followed(&self.zero, pid)
    }

    /// The PMT in force of a service, if there is one.
    pub fn pmt(&self, service: u16) -> Option<&Pmt>
        ensures { (fed : List (List ℕ)) → StandsFor self.now fed → option_map pmt_held (option_copied result) ≡ pmt_of service fed }
    {
        match self.zero.follower.pid_for(service) {
            Some(pid) => pmt_in(&self.pids, pid, service),
            None => None,
        }
    }

    /// Adds the PIDs on which tables changed without a new version, of PID 0 and those whose packets were taken.
    pub fn add_changes(&self, changes: &mut Changes) -> Result<(), AllocError> {
        changes.add(PAT_PID, self.zero.tables.changed())?;
        self.pids.add_changes(changes)
    }

    /// Processes the next packet, whose PID may have tables, unless memory ran out before.
    #[inline(never)]
    fn read(&mut self, at: u64, packet: &Packet) -> Result<bool, AllocError>
        ensures stands { OnOk result ((fed : List (List ℕ)) → StandsFor self.old fed → StandsFor self.new (fed ++ packet.now ∷ [])) }
        ensures same { IfOk result (λ came. came ≡ false → (fed : List (List ℕ)) → StandsFor self.old fed → SameInForce fed packet.now) }
        ensures pats { OnOk result ((fed : List (List ℕ)) → StandsFor self.old fed → pid_of packet.now ≡ 0
            → Completes 0 (packets_on 0 fed) packet.now (pats_in self.new)) }
        ensures pmts { OnOk result ((fed : List (List ℕ)) → StandsFor self.old fed
            → follows (pid_of packet.now) (fed ++ packet.now ∷ []) ≡ true
            → Completes (pid_of packet.now) (taken_on follows (pid_of packet.now) fed) packet.now (pmts_in self.new)) }
        ensures same_failed { has_failed self.new ≡ has_failed self.old }
    {
        // A law, which runs nothing.
        unfollowed_packets_change_nothing::<Reading<KeptPmts>>();
        let pat_came = take_first(self.alloc, at, &mut self.zero, &mut self.pats, packet)?;
        let pid = packet.pid();
        if !is_followed(&self.zero, pid) {
            return Ok(pat_came);
        }
        let kept = self.pids.take(self.alloc, at, &(), (), packet)?;
        self.pmts = kept.tables;
        Ok(one_holds(pat_came, kept.came))
    }
}

/// Whether tables may come with packets on a PID: it is that of the PAT, or its packets are taken.
#[inline]
fn may_have_tables(zero: &Reading<CurrentPat>, pid: u16) -> bool
    ensures { result ≡ ((pid == 0) || is_named (option_map pat_held zero.now.follower) pid) }
{
    pid == PAT_PID || is_followed(zero, pid)
}

/// Passes a packet on PID 0 to the reader of that PID, and returns whether a PAT was kept. The tables that the packet
/// completes replace those of the packet before. A packet on another PID changes nothing.
fn take_first(
    alloc: Global,
    at: u64,
    zero: &mut Reading<CurrentPat>,
    pats: &mut Vec<TableRun>,
    packet: &Packet,
) -> Result<bool, AllocError>
    ensures stands { OnOk result ((fed : List (List ℕ)) → HasPat zero.old fed → HasPat zero.new (fed ++ packet.now ∷ [])) }
    ensures pats { OnOk result ((fed : List (List ℕ)) → HasPat zero.old fed → pid_of packet.now ≡ 0
        → Completes 0 (packets_on 0 fed) packet.now pats.new.items) }
    ensures same { IfOk result (λ came. came ≡ false → (fed : List (List ℕ)) → HasPat zero.old fed
        → pat_of (fed ++ packet.now ∷ []) ≡ pat_of fed) }
{
    if packet.pid() != PAT_PID {
        return Ok(false);
    }
    let kept = zero.take(alloc, at, (), packet)?;
    *pats = kept.tables;
    Ok(kept.came)
}

/// Whether the packets of a PID are taken.
#[inline]
fn is_followed(zero: &Reading<CurrentPat>, pid: u16) -> bool
    ensures { result ≡ is_named (option_map pat_held zero.now.follower) pid }
{
    zero.follower.names(pid) && pid != NULL_PID
}

/// The last PMT of a service, of the packets that were taken on a PID.
fn pmt_in(pids: &Pids, pid: u16, service: u16) -> Option<&Pmt>
    ensures { (fed : List (List ℕ)) → HavePmts pids.now fed → option_map pmt_held (option_copied result) ≡ pmt_on pid service fed }
{
    match pids.get(pid) {
        Some(on) => on.follower.pmts.get(&service),
        None => None,
    }
}
