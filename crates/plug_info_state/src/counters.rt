//! The continuity counters of all PIDs.
ghost use Rattle.std.specs.Prelude.{◌≡◌, ◌∷◌, ◌++◌, [], ℕ, List, length};
ghost use Rattle.ts_packet.specs.declared.cell.Cell.{Cell as GivenCell};
ghost use Rattle.ts_packet.specs.Cells.{Live};
ghost use Rattle.plugin_notes.specs.LastSeen.{IsTable, Remembers};
ghost use Rattle.plug_analyze.specs.AnalyzeNotes.{is_fault_at};
ghost use Rattle.plug_analyze.specs.AnalyzeRule.{all_pids};

use plugin_notes::LastPackets;
use ts_packet::{NULL_PID, Packet};

/// Processes the packet at a position, of any PID, and returns whether its counter is a fault. Those of null packets
/// never are.
#[inline]
pub fn meet_counter(last: &mut LastPackets, at: u64, packet: &Packet) -> bool
    requires { IsTable last.old }
    ensures fault { (history : List GivenCell) → Remembers all_pids last.old history
        → length history ≡ at → result ≡ is_fault_at history packet.now }
    ensures met { (history : List GivenCell) → Remembers all_pids last.old history → (labels : ℕ)
        → Remembers all_pids last.new (history ++ Live packet.now labels ∷ []) }
{
    if packet.pid() == NULL_PID {
        return false;
    }
    let fault = last.fault(at, packet);
    last.keep(packet);
    fault.is_some()
}
