//! The counts of all packets, by PID and kind.
ghost use Rattle.std.specs.Prelude.{◌≡◌, ◌<◌, ◌++◌, ◌∷◌, [], List, IfOk};

use plug_info_texts::PidNumbers;
use plugin_notes::Tally;
use std::alloc::{AllocError, Global};

/// The packets that were counted, by PID, once for each kind.
#[derive(Drop)]
pub struct PacketCounts {
    packets: Tally,
    scrambled: Tally,
    faults: Tally,
    errored: Tally,
}

impl PacketCounts {
    ghost use Rattle.std.specs.Prelude.{◌≡◌, ◌<◌, ◌++◌, ◌∷◌, [], ℕ, List, IfOk, if◌then◌else◌};
    ghost use Rattle.ts_packet.specs.declared.numbers.TheConstants.{PID_COUNT};
    ghost use Rattle.plugin_notes.specs.Tallies.{IsCounted};
    ghost use Rattle.plug_info_state.specs.CountsOf.{AreCounted, HasRoom};

    /// Nothing counted yet. Allocates 256 KiB.
    pub fn new(alloc: Global) -> Result<PacketCounts, AllocError>
        ensures { IfOk result (λ counts. AreCounted counts []) }
    {
        Ok(PacketCounts {
            packets: Tally::new(alloc)?,
            scrambled: Tally::new(alloc)?,
            faults: Tally::new(alloc)?,
            errored: Tally::new(alloc)?,
        })
    }

    /// Counts one more packet.
    #[inline]
    pub fn add(&mut self, pid: u16, is_scrambled: bool, is_fault: bool, is_errored: bool)
        requires on_pid { pid < PID_COUNT }
        requires room { HasRoom self.old }
        ensures packets { (pids : List ℕ) → IsCounted self.old.packets pids → IsCounted self.new.packets (pids ++ pid ∷ []) }
        ensures scrambled { (pids : List ℕ) → IsCounted self.old.scrambled pids
            → IsCounted self.new.scrambled (pids ++ (if is_scrambled then pid ∷ [] else [])) }
        ensures faults { (pids : List ℕ) → IsCounted self.old.faults pids
            → IsCounted self.new.faults (pids ++ (if is_fault then pid ∷ [] else [])) }
        ensures errored { (pids : List ℕ) → IsCounted self.old.errored pids
            → IsCounted self.new.errored (pids ++ (if is_errored then pid ∷ [] else [])) }
    {
        self.packets.add(pid);
        self.scrambled.add_if(is_scrambled, pid);
        self.faults.add_if(is_fault, pid);
        self.errored.add_if(is_errored, pid);
    }
}

impl PacketCounts {
    ghost use Rattle.std.specs.Prelude.{◌≡◌, ◌<◌, ℕ, List, length, filter};
    ghost use Rattle.ts_packet.specs.declared.numbers.TheConstants.{PID_COUNT};
    ghost use Rattle.ts_packet.specs.declared.cell.Cell.{Cell as GivenCell};
    ghost use Rattle.ts_packet.specs.Cells.{live_packets};
    ghost use Rattle.ts_packet.specs.Header.{error_indicator_of};
    ghost use Rattle.plugin_notes.specs.PidPackets.{packets_on};
    ghost use Rattle.plug_analyze.specs.AnalyzeRule.{fault_pids, is_scrambled};
    ghost use Rattle.plug_info_state.specs.PidCounts.{numbers_on};
    ghost use Rattle.plug_info_state.specs.CountsOf.{AreCounted};

    /// How many packets were counted in total.
    pub fn packets(&self) -> u64
        ensures { (cells : List GivenCell) → AreCounted self.now cells → result ≡ length (live_packets cells) }
    {
        self.packets.total()
    }

    /// How many of them are scrambled.
    pub fn scrambled(&self) -> u64
        ensures { (cells : List GivenCell) → AreCounted self.now cells → result ≡ length (filter is_scrambled (live_packets cells)) }
    {
        self.scrambled.total()
    }

    /// How many of them have a faulty counter.
    pub fn faults(&self) -> u64
        ensures { (cells : List GivenCell) → AreCounted self.now cells → result ≡ length (fault_pids cells) }
    {
        self.faults.total()
    }

    /// How many of them have the transport_error_indicator.
    pub fn errored(&self) -> u64
        ensures { (cells : List GivenCell) → AreCounted self.now cells → result ≡ length (filter error_indicator_of (live_packets cells)) }
    {
        self.errored.total()
    }

    /// How many packets were counted on a PID.
    pub fn packets_on(&self, pid: u16) -> u64
        requires on_pid { pid < PID_COUNT }
        ensures { (cells : List GivenCell) → AreCounted self.now cells → result ≡ packets_on pid (live_packets cells) }
    {
        self.packets.count_on(pid)
    }

    /// How many packets of each kind were counted on a PID.
    pub fn numbers_on(&self, pid: u16) -> PidNumbers
        requires on_pid { pid < PID_COUNT }
        ensures { (cells : List GivenCell) → AreCounted self.now cells → result ≡ numbers_on pid cells }
    {
        PidNumbers {
            packets: self.packets.count_on(pid),
            scrambled: self.scrambled.count_on(pid),
            faults: self.faults.count_on(pid),
        }
    }
}
