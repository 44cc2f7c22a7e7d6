//! What is kept of each PID for its continuity counter.

use crate::continuity_error::ContinuityError;
use crate::last_packet::{LastPacket, fault_behind, seen_with};
use std::alloc::{AllocError, Global};
use ts_packet::{PID_COUNT, Packet, PidRow};

/// The last packet on each PID.
#[derive(Drop)]
pub struct LastPackets {
    seen: PidRow<Option<LastPacket>>,
}

impl LastPackets {
    ghost use Rattle.std.specs.Prelude.{◌≡◌, ◌<◌, ◌∷◌, ◌++◌, [], ℕ, List, IfOk, None, true, length, option_to_list};
    ghost use Rattle.std.specs.List.{slice_index_or};
    ghost use Rattle.ts_packet.specs.declared.cell.Cell.{Cell as GivenCell};
    ghost use Rattle.ts_packet.specs.Cells.{Live};
    ghost use Rattle.ts_packet.specs.Header.{pid_of};
    ghost use Rattle.plugin_notes.specs.declared.continuity_conf.ContinuityConf.{ContinuityConf as GivenConf};
    ghost use Rattle.plugin_notes.specs.ContinuityErrors.{error_on};
    ghost use Rattle.plugin_notes.specs.Counters.{is_watched, packets_of, right_counter};
    ghost use Rattle.plugin_notes.specs.LastSeen.{HasCounters, IsTable, Remembers};

    /// No packet yet on any PID. Allocates 32 KiB.
    pub fn new(alloc: Global) -> Result<LastPackets, AllocError>
        ensures { IfOk result (λ last. (conf : GivenConf) → Remembers conf last []) }
    {
        Ok(LastPackets {
            seen: PidRow::filled(alloc, None)?,
        })
    }

    /// The continuity error of the packet at a position, if it has one.
    #[inline]
    pub fn fault(&self, at: u64, packet: &Packet) -> Option<ContinuityError>
        requires { IsTable self.now }
        ensures { (conf : GivenConf) (history : List GivenCell) → Remembers conf self.now history
            → is_watched conf (pid_of packet.now) ≡ true
            → length history ≡ at → option_to_list result ≡ error_on conf history packet.now }
    {
        fault_behind(at, self.on(packet.pid()), packet)
    }

    /// Keeps a packet as the last one on its PID, and returns its correct counter, 0 to 15.
    #[inline]
    pub fn keep(&mut self, packet: &Packet) -> u8
        requires { IsTable self.old }
        ensures right { (conf : GivenConf) (history : List GivenCell) → Remembers conf self.old history
            → is_watched conf (pid_of packet.now) ≡ true
            → result ≡ right_counter (packets_of (pid_of packet.now) history ++ packet.now ∷ []) }
        ensures kept { (conf : GivenConf) (history : List GivenCell) → Remembers conf self.old history
            → is_watched conf (pid_of packet.now) ≡ true
            → (labels : ℕ) → Remembers conf self.new (history ++ Live packet.now labels ∷ []) }
        ensures range { result < 16 }
    {
        let pid = packet.pid();
        let next = seen_with(self.on(pid), packet);
        self.seen.set(pid, Some(next));
        next.right
    }

    // What is kept of the last packet on a PID.
    #[inline]
    fn on(&self, pid: u16) -> Option<LastPacket>
        requires on_pid { pid < PID_COUNT }
        requires table { IsTable self.now }
        ensures is { result ≡ slice_index_or self.now.seen pid None }
        ensures counters { HasCounters result }
    {
        self.seen.get(pid)
    }
}
