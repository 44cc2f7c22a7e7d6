//! A sink of a preallocated desk.
ghost use Rattle.std.specs.Prelude.{◌≡◌, ◌<◌, ◌≤◌, length, take, IfOk, OnErr};
ghost use Rattle.ts_outside.specs.Sink.{took, write_failed};
ghost use Rattle.ts_outside.specs.Preallocated.{counted, preallocated_sink};

use crate::faults::Failed;
use crate::sinks::Sink;
use std::marker::Model;

/// A sink that keeps only the number of its bytes, which contracts see. It never fails.
pub struct PreallocatedSink {
    pub(crate) taken: u64,
}

impl Model for PreallocatedSink {
    ghost use Rattle.std.specs.Prelude.{ℕ};

    ghost Value = { ℕ };

    ghost view = { λ s. s.taken };
}

impl Sink for PreallocatedSink {
    ghost seen = { preallocated_sink };

    fn write(&mut self, piece: &[u8]) -> Result<usize, Failed>
        requires { 0 < length piece.now }
        ensures some { IfOk result (λ n. 0 < n) }
        ensures within { IfOk result (λ n. n ≤ length piece.now) }
        ensures taken { IfOk result (λ n. preallocated_sink self.new ≡ took (preallocated_sink self.old) (take n piece.now)) }
        ensures failed { OnErr result (preallocated_sink self.new ≡ write_failed (preallocated_sink self.old)) }

        // It never fails, and takes all bytes.
        ensures preallocated { result ≡ Ok (length piece.now) }
        ensures count { self.new ≡ counted self.old (length piece.now) }
    {
        self.taken = self.taken.saturating_add(piece.len() as u64);
        Ok(piece.len())
    }
}
