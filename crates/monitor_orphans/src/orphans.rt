//! What is met of each PID to which no table refers.
ghost use Rattle.std.specs.Prelude.{◌≡◌};
ghost use Rattle.monitor_orphans.specs.Orphans as orphans;

use crate::orphan::Orphan;
use crate::reach::Reach;
use monitor_keys::Span;
use plug_psi::Referred;
use std::alloc::{AllocError, Global};
use ts_packet::{PID_COUNT, Packet, PidRow};

/// What is met of each PID to which no table refers. It takes all its memory when it is made, but for what it tells.
#[derive(Drop)]
pub struct Orphans {
    pids: PidRow<Orphan>,
    // In a right stream it has no PID, and a PCR costs nothing.
    reach: Reach,
    alloc: Global,
}

impl Orphans {
    ghost use Rattle.std.specs.Prelude.{◌≡◌, ◌<◌, ◌∷◌, ◌++◌, [], ℕ, List, Option, IfOk, OnOk, length, if◌then◌else◌};
    ghost use Rattle.std.specs.List.{slice_set};
    ghost use Rattle.ts_packet.specs.declared.cell.Cell.{Cell};
    ghost use Rattle.ts_packet.specs.Cells.{Live, live_packets};
    ghost use Rattle.plug_psi.specs.ReferredStands.{StandsFor};
    ghost use Rattle.monitor_keys.specs.Keys.{span_on};
    ghost use Rattle.monitor_orphans.specs.OrphanRow.{Follows, IsWithin, LookedBelow, met_in, told_below, told_in};
    ghost use Rattle.monitor_orphans.specs.Orphans.{orphans_on};
    ghost use Rattle.monitor_orphans.specs.Reaches.{IsIdleOutside, Reaches};
    ghost use Rattle.monitor_keys.specs.declared.span.Span.{Span};

    /// No packet yet on any PID. Allocates 256 KiB.
    pub fn new(alloc: Global) -> Result<Orphans, AllocError>
        ensures { IfOk result (λ kept. (pcr_pid : Option ℕ) → Follows pcr_pid kept []) }
    {
        Ok(Orphans {
            pids: PidRow::filled(alloc, Orphan::Unmet)?,
            reach: Reach::none(),
            alloc,
        })
    }

    /// The packet of a span, which the tables have been fed already. Gives the PIDs that are told with it, ascending: only a
    /// packet with a PCR that is read has some.
    pub fn meet(
        &mut self,
        span: &Span,
        packet: &Packet,
        referred: &Referred,
    ) -> Result<Vec<u16>, AllocError>
        ensures tells { IfOk result (λ told. (pcr_pid : Option ℕ) (history : List Cell) → Follows pcr_pid self.old history
            → span.now ≡ span_on pcr_pid history packet.now → StandsFor referred.now (live_packets history ++ packet.now ∷ [])
            → told.items ≡ orphans_on pcr_pid history packet.now) }
        ensures stands { OnOk result ((pcr_pid : Option ℕ) (history : List Cell) (labels : ℕ) → Follows pcr_pid self.old history
            → span.now ≡ span_on pcr_pid history packet.now → StandsFor referred.now (live_packets history ++ packet.now ∷ [])
            → Follows pcr_pid self.new (history ++ Live packet.now labels ∷ [])) }
    {
        if span.is_look() {
            let told = self.look(span, packet, referred)?;
            return Ok(told);
        }
        self.turn(packet.pid(), span, packet, referred);
        Ok(Vec::new(self.alloc))
    }

    // Each PID, with a PCR that is read. Those outside of the reach stay as they are.
    fn look(
        &mut self,
        span: &Span,
        packet: &Packet,
        referred: &Referred,
    ) -> Result<Vec<u16>, AllocError>
        ensures tells { IfOk result (λ told. (fed : List (List ℕ)) → StandsFor referred.now fed → IsWithin self.old.reach self.old.pids
            → told.items ≡ told_below span.now packet.now fed self.old.pids PID_COUNT) }
        ensures stands { OnOk result ((fed : List (List ℕ)) → StandsFor referred.now fed → IsWithin self.old.reach self.old.pids
            → LookedBelow span.now packet.now fed self.old.pids self.new.pids PID_COUNT) }
        ensures within { OnOk result ((fed : List (List ℕ)) → StandsFor referred.now fed → IsWithin self.old.reach self.old.pids
            → IsWithin self.new.reach self.new.pids) }
    {
        let mut told = Vec::new(self.alloc);
        let reach = self.reach_with(packet, referred);
        self.reach = Reach::none();
        for pid in reach.from..reach.to {
            self.look_at(pid, span, packet, referred, &mut told)?;
        }
        Ok(told)
    }

    // The PIDs of which something may be kept, before or after a packet.
    fn reach_with(&self, packet: &Packet, referred: &Referred) -> Reach
        ensures { (span : Span) (fed : List (List ℕ)) → StandsFor referred.now fed → IsWithin self.now.reach self.now.pids
            → IsIdleOutside span packet.now fed self.now.pids result }
    {
        let pid = packet.pid();
        if referred.has(pid) {
            return self.reach;
        }
        self.reach.over(pid)
    }

    // One PID, with such a PCR.
    fn look_at(
        &mut self,
        pid: u16,
        span: &Span,
        packet: &Packet,
        referred: &Referred,
        told: &mut Vec<u16>,
    ) -> Result<(), AllocError>
        requires { pid < PID_COUNT }
        ensures kept { (fed : List (List ℕ)) → StandsFor referred.now fed
            → self.new.pids ≡ slice_set self.old.pids pid (met_in span.now packet.now fed self.old.pids pid) }
        ensures told { OnOk result ((fed : List (List ℕ)) → StandsFor referred.now fed
            → told.new.items ≡ told.old.items ++ (if told_in span.now packet.now fed self.old.pids pid then pid ∷ [] else [])) }
        ensures reach { (fed : List (List ℕ)) → StandsFor referred.now fed
            → Reaches self.old.reach pid (met_in span.now packet.now fed self.old.pids pid) self.new.reach }
        ensures whole { length self.old.pids ≡ PID_COUNT }
    {
        if self.turn(pid, span, packet, referred) {
            told.push(pid)?;
        }
        Ok(())
    }

    // One PID, with a packet. Returns whether it is told.
    fn turn(&mut self, pid: u16, span: &Span, packet: &Packet, referred: &Referred) -> bool
        requires { pid < PID_COUNT }
        ensures kept { (fed : List (List ℕ)) → StandsFor referred.now fed
            → self.new.pids ≡ slice_set self.old.pids pid (met_in span.now packet.now fed self.old.pids pid) }
        ensures told { (fed : List (List ℕ)) → StandsFor referred.now fed
            → result ≡ told_in span.now packet.now fed self.old.pids pid }
        ensures reach { (fed : List (List ℕ)) → StandsFor referred.now fed
            → Reaches self.old.reach pid (met_in span.now packet.now fed self.old.pids pid) self.new.reach }
        ensures whole { length self.old.pids ≡ PID_COUNT }
    {
        let kept = self.pids.get(pid);
        let is_on = is_on(packet, pid);
        let is_referred = referred.has(pid);
        let turned = kept.with(span, is_on, is_referred);
        self.pids.set(pid, turned);
        self.reach = self.reach.with(pid, turned);
        kept.is_told_with(span, is_on, is_referred)
    }
}

// Whether a packet without a transport_error_indicator is on a PID.
fn is_on(packet: &Packet, pid: u16) -> bool
    ensures { result ≡ orphans.is_on pid packet.now }
{
    packet.pid() == pid && !packet.error_indicator()
}
