//! The counts of all packets, by PID and kind.
ghost use Rattle.std.specs.Prelude.{◌≡◌, ◌<◌, ◌++◌, ◌∷◌, [], List, IfOk};
ghost use Rattle.plug_analyze.specs.declared.note.Note.{Note as GivenNote};
ghost use Rattle.ts_packet.specs.declared.numbers.TheConstants.{PID_COUNT};

use crate::note::Note;
use crate::pid_counts::PidCounts;
use plugin_notes::Tally;
use std::alloc::{AllocError, Global};

/// The packets that were counted, by PID, once for each kind.
#[derive(Drop)]
pub struct Totals {
    packets: Tally,
    payload: Tally,
    scrambled: Tally,
    faults: Tally,
    pcr: Tally,
}

impl Totals {
    ghost use Rattle.std.specs.Prelude.{◌≡◌, ◌<◌, ◌++◌, ◌∷◌, [], List, IfOk};
    ghost use Rattle.ts_packet.specs.declared.cell.Cell.{Cell as GivenCell};
    ghost use Rattle.plug_analyze.specs.AnalyzeRule.{counts_on};
    ghost use Rattle.plug_analyze.specs.TotalsOf.{AreTotals, HasRoom};

    /// Nothing counted yet. Allocates 320 KiB.
    pub fn new(alloc: Global) -> Result<Totals, AllocError>
        ensures { IfOk result (λ totals. AreTotals totals []) }
    {
        Ok(Totals {
            packets: Tally::new(alloc)?,
            payload: Tally::new(alloc)?,
            scrambled: Tally::new(alloc)?,
            faults: Tally::new(alloc)?,
            pcr: Tally::new(alloc)?,
        })
    }

    /// Counts one more packet.
    #[inline]
    pub fn add(&mut self, note: Note)
        requires on_pid { note.pid < PID_COUNT }
        requires room { HasRoom self.old }
        ensures { (notes : List GivenNote) → AreTotals self.old notes → AreTotals self.new (notes ++ note ∷ []) }
    {
        self.packets.add_if(true, note.pid);
        self.payload.add_if(note.has_payload, note.pid);
        self.scrambled.add_if(note.is_scrambled, note.pid);
        self.faults.add_if(note.is_fault, note.pid);
        self.pcr.add_if(note.has_pcr, note.pid);
    }
}

impl Totals {
    ghost use Rattle.std.specs.Prelude.{◌≡◌, ◌<◌, ℕ, List, length, map};
    ghost use Rattle.ts_packet.specs.declared.numbers.TheConstants.{PID_COUNT};
    ghost use Rattle.ts_packet.specs.declared.cell.Cell.{Cell as GivenCell};
    ghost use Rattle.ts_packet.specs.Header.{pid_of};
    ghost use Rattle.plugin_notes.specs.PidPackets.{packets_on};
    ghost use Rattle.plug_analyze.specs.AnalyzeRule.{counts_on};
    ghost use Rattle.plugin_notes.specs.Tallies.{IsCounted};
    ghost use Rattle.plug_analyze.specs.TotalsOf.{AreCounted};

    /// How many packets were counted in total.
    pub fn packets(&self) -> u64
        ensures { result ≡ self.now.packets.total }
    {
        self.packets.total()
    }

    /// How many packets were counted on a PID.
    pub fn packets_on(&self, pid: u16) -> u64
        requires on_pid { pid < PID_COUNT }
        ensures { (packets : List (List ℕ)) → IsCounted self.now.packets (map pid_of packets) → result ≡ packets_on pid packets }
    {
        self.packets.count_on(pid)
    }

    /// How many packets of each kind were counted on a PID.
    pub fn counts_on(&self, pid: u16) -> PidCounts
        requires on_pid { pid < PID_COUNT }
        ensures { (cells : List GivenCell) → AreCounted self.now cells → result ≡ counts_on pid cells }
    {
        PidCounts {
            packets: self.packets.count_on(pid),
            payload: self.payload.count_on(pid),
            scrambled: self.scrambled.count_on(pid),
            faults: self.faults.count_on(pid),
            pcr: self.pcr.count_on(pid),
        }
    }
}
