//! The last packet on each PID.
use crate::counter_error::CounterError;
use crate::last_met::{LastMet, error_after, met_with};
use std::alloc::{AllocError, Global};
use ts_packet::{NULL_PID, PID_COUNT, Packet, PidRow};

/// The last packet on each PID, by which the continuity counter of the next one is checked. It takes all its memory when it is
/// made.
#[derive(Drop)]
pub struct LastMets {
    packets: PidRow<Option<LastMet>>,
}

impl LastMets {
    ghost use Rattle.std.specs.Prelude.{◌≡◌, ◌<◌, ◌∷◌, ◌++◌, [], ℕ, List, IfOk, None};
    ghost use Rattle.std.specs.List.{slice_index_or};
    ghost use Rattle.ts_packet.specs.declared.cell.Cell.{Cell};
    ghost use Rattle.ts_packet.specs.Cells.{Live};
    ghost use Rattle.monitor_counters.specs.CounterErrors.{counter_error_on};
    ghost use Rattle.monitor_counters.specs.MetPackets.{Remembers};

    /// No packet yet on any PID. Allocates 1.5 MiB.
    pub fn new(alloc: Global) -> Result<LastMets, AllocError>
        ensures { IfOk result (λ kept. Remembers kept []) }
    {
        Ok(LastMets {
            packets: PidRow::filled(alloc, None)?,
        })
    }

    /// Keeps a packet as the last one on its PID. Gives what is wrong with its continuity counter, if anything is.
    pub fn meet(&mut self, packet: &Packet) -> Option<CounterError>
        ensures tells { (history : List Cell) → Remembers self.old history → result ≡ counter_error_on history packet.now }
        ensures stands { (history : List Cell) (labels : ℕ) → Remembers self.old history
            → Remembers self.new (history ++ Live packet.now labels ∷ []) }
    {
        let pid = packet.pid();
        if pid == NULL_PID {
            return None;
        }
        let before = self.on(pid);
        self.packets.set(pid, met_with(&before, packet));
        if packet.error_indicator() {
            return None;
        }
        error_after(&before, packet)
    }

    // The last packet on a PID.
    fn on(&self, pid: u16) -> Option<LastMet>
        requires { pid < PID_COUNT }
        ensures { result ≡ slice_index_or self.now.packets pid None }
    {
        self.packets.get(pid)
    }
}
