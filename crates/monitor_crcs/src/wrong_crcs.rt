//! The reader of wrong CRCs of one PID.

ghost use Rattle.std.specs.Prelude.{◌≡◌, ℕ, ◌<◌, ◌≤◌, List, [], true, false, length, IfSome, IfNone, IfOk, OnErr, IsErr};
ghost use Rattle.ts_demux.specs.CountedPackets as counted;
ghost use Rattle.monitor_crcs.specs.ReaderState.{StandsFor, TakesIn, GivesFirst};

use crate::reader::PieceReader;
use std::alloc::{AllocError, Global};
use std::collections::VecDeque;
use std::marker::Model;
use ts_demux::FailureLatch;
use ts_packet::{PID_COUNT, Packet};

/// Finds the sections of one PID with a wrong CRC, fed packet by packet (ETSI TR 101 290, 5.2.2, 2.2; what would be a section is
/// cut off as the demultiplexer does, ISO/IEC 13818-1, 2.4.3.3 and 2.4.4).
///
/// Clauses see its PID, the table_ids that wait, whether a call ran out of memory, and one part that stands for all packets
/// fed. It keeps no more than one unfinished piece and what waits.
#[derive(Drop)]
pub struct WrongCrcs {
    pid: u16,
    reader: PieceReader,
    waiting: VecDeque<u8>,
    failed: FailureLatch,
}

impl Model for WrongCrcs {
    ghost use Rattle.monitor_crcs.specs.ReaderState.{ReaderState};
    ghost use Rattle.monitor_crcs.specs.Reader.{remembered_by, IsSound};

    ghost Value = { ReaderState };

    ghost view = { λ d. record { pid = d.pid; remembered = remembered_by d.reader; waiting = d.waiting.items; failed = d.failed } };

    ghost invariant = { λ d. IsSound d.reader d.waiting.items d.failed };
}

impl WrongCrcs {
    /// A reader that was fed nothing.
    pub fn new(alloc: Global, pid: u16) -> Result<WrongCrcs, AllocError>
        requires { pid < PID_COUNT }
        ensures { IfOk result (λ demux. StandsFor demux pid [] []) }
    {
        Ok(WrongCrcs {
            pid,
            reader: PieceReader::new(alloc),
            waiting: VecDeque::new(alloc),
            failed: FailureLatch::unset(),
        })
    }

    /// Processes the next packet, of any PID, and returns how many sections with a wrong CRC it completed; their table_ids wait
    /// in order. After `AllocError` nothing waits, and every later call returns `AllocError`.
    pub fn feed(&mut self, packet: &Packet) -> Result<usize, AllocError>
        ensures taken { IfOk result (λ completed. TakesIn self.old self.new packet.now completed) }
        ensures bounded { IfSome self.new.remembered (λ part. length part.payload ≤ 4096) }
        ensures spent { OnErr result ((self.new.failed ≡ true) × (self.new.waiting ≡ [])) }
        ensures stays_spent { self.old.failed ≡ true → IsErr result }
    {
        self.failed.check()?;
        let answer = self.advance(packet);
        let completed = self.failed.note(answer)?;
        Ok(completed)
    }

    // Processes the next packet, unless an earlier call ran out of memory. After `AllocError` nothing waits.
    fn advance(&mut self, packet: &Packet) -> Result<usize, AllocError>
        requires { self.old.failed ≡ false }
        ensures taken { IfOk result (λ completed. TakesIn self.old self.new packet.now completed) }
        ensures bounded { IfSome self.new.remembered (λ part. length part.payload ≤ 4096) }
        ensures none_waits { OnErr result (self.new.waiting ≡ []) }
        ensures same_failed { self.new.failed ≡ self.old.failed }
    {
        if !counts(self.pid, packet) {
            return Ok(0);
        }
        let before = self.waiting.len();
        let taken = self.reader.take_part(
            packet.counter(),
            packet.unit_start(),
            packet.payload(),
            &mut self.waiting,
        );
        match taken {
            Ok(()) => Ok(self.waiting.len() - before),
            Err(error) => {
                self.reader.reset();
                self.waiting.clear();
                Err(error)
            }
        }
    }

    /// The first table_id that waits; `None` exactly if nothing waits.
    pub fn next_table(&mut self) -> Option<u8>
        ensures first { IfSome result (λ table. GivesFirst self.old self.new table) }
        ensures none { IfNone result ((self.old.waiting ≡ []) × (self.new ≡ self.old)) }
        ensures same { (self.new.pid ≡ self.old.pid) × (self.new.failed ≡ self.old.failed) }
    {
        self.waiting.pop_front()
    }
}

// Whether a packet counts for the sections of the PID.
fn counts(pid: u16, packet: &Packet) -> bool
    ensures { result ≡ counted.counts pid packet.now }
{
    packet.pid() == pid
        && packet.scrambling() == 0
        && !packet.error_indicator()
        && packet.payload_start().is_some()
}
