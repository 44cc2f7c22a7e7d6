//! A sink of a desk in memory.
ghost use Rattle.std.specs.Prelude.{◌≡◌, ◌<◌, ◌≤◌, length, take, is_err, IfOk, OnErr};
ghost use Rattle.ts_outside.specs.Sink.{took, write_failed};
ghost use Rattle.ts_outside.specs.Memory.{sink_failed, sink_seen, sink_wrote, write_count, write_fails};

use crate::closed_outputs::ClosedOutputs;
use crate::counts::one_more;
use crate::faults::Failed;
use crate::name_text::NameText;
use crate::number_list::NumberList;
use crate::sinks::Sink;
use std::marker::Model;

/// A sink that keeps its bytes in memory, up to its room, and fails where its desk's plan says so.
pub struct MemorySink {
    pub(crate) bytes: Vec<u8>,
    pub(crate) name: NameText,
    pub(crate) faults: u64,
    pub(crate) calls: u64,
    pub(crate) failing: NumberList,
    pub(crate) piece: usize,
    pub(crate) room: usize,
    // The link that closing it fills.
    pub(crate) link: Box<ClosedOutputs>,
}

impl Model for MemorySink {
    ghost use Rattle.std.specs.Prelude.{ℕ, ◌<◌, ◌≤◌};
    ghost use Rattle.std.specs.Vec.{vec_capacity, vec_len};
    ghost use Rattle.ts_outside.specs.Memory.{MemorySinkView};

    ghost Value = { MemorySinkView };

    ghost view = { λ s. record {
      taken = s.bytes.items;
      name = s.name;
      faults = s.faults;
      calls = s.calls;
      failing = s.failing;
      piece = s.piece;
      room = s.room;
    } };

    // The room is reserved when it is opened.
    ghost invariant = { λ s. (0 < s.piece) × (vec_len s.bytes ≤ s.room) × (s.room ≤ vec_capacity s.bytes) };
}

impl Sink for MemorySink {
    ghost seen = { sink_seen };

    fn write(&mut self, piece: &[u8]) -> Result<usize, Failed>
        requires { 0 < length piece.now }
        ensures some { IfOk result (λ n. 0 < n) }
        ensures within { IfOk result (λ n. n ≤ length piece.now) }
        ensures taken { IfOk result (λ n. sink_seen self.new ≡ took (sink_seen self.old) (take n piece.now)) }
        ensures failed { OnErr result (sink_seen self.new ≡ write_failed (sink_seen self.old)) }

        // Exactly where the plan or the room says so, and exactly as many bytes as may be taken.
        ensures planned { is_err result ≡ write_fails self.old }
        ensures count { IfOk result (λ n. n ≡ write_count self.old (length piece.now)) }
        ensures wrote { IfOk result (λ n. self.new ≡ sink_wrote self.old (take n piece.now)) }
        ensures stood { OnErr result (self.new ≡ sink_failed self.old) }
    {
        let planned = self.failing.has(one_more(self.calls));
        let left = self.room - self.bytes.len();
        self.calls = one_more(self.calls);
        if planned || left == 0 {
            self.faults = one_more(self.faults);
            return Err(Failed);
        }
        let count = piece.len().min(self.piece).min(left);
        self.bytes.extend_from_slice(&piece[..count]).unwrap();
        Ok(count)
    }
}
