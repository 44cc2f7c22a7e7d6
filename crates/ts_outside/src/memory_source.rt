//! A source of a desk in memory.
ghost use Rattle.std.specs.Prelude.{◌≡◌, ◌<◌, ◌≤◌, [], length, take, is_err, IfOk, OnErr, IfSome};
ghost use Rattle.ts_outside.specs.Source.{read_failed, unread};
ghost use Rattle.ts_outside.specs.Memory.{fails_next, read_count, source_failed, source_read, source_seen};

use crate::closed_inputs::ClosedInputs;
use crate::counts::one_more;
use crate::faults::Failed;
use crate::number_list::NumberList;
use crate::sources::Source;
use std::marker::Model;

/// A source over bytes in memory, which fails where its desk's plan says so.
pub struct MemorySource {
    pub(crate) bytes: Vec<u8>,
    pub(crate) at: usize,
    pub(crate) faults: u64,
    pub(crate) calls: u64,
    pub(crate) failing: NumberList,
    pub(crate) piece: usize,
    // The link that closing it fills.
    pub(crate) link: Box<ClosedInputs>,
}

impl Model for MemorySource {
    ghost use Rattle.std.specs.Prelude.{ℕ, ◌<◌, ◌≤◌, drop, vec_len};
    ghost use Rattle.ts_outside.specs.Memory.{MemorySourceView};

    ghost Value = { MemorySourceView };

    ghost view = { λ s. record {
      left = drop s.at s.bytes.items;
      faults = s.faults;
      calls = s.calls;
      failing = s.failing;
      piece = s.piece;
    } };

    ghost invariant = { λ s. (s.at ≤ vec_len s.bytes) × (0 < s.piece) };
}

impl Source for MemorySource {
    ghost seen = { source_seen };

    fn read(&mut self, into: &mut [u8]) -> Result<usize, Failed>
        requires { 0 < length into.old }
        ensures within { IfOk result (λ n. n ≤ length into.new) }
        ensures moved { IfOk result (λ n. source_seen self.old ≡ unread (take n into.new) (source_seen self.new)) }
        ensures end { IfOk result (λ n. n ≡ 0 → IfSome (source_seen self.old).left (λ l. l ≡ [])) }
        ensures failed { OnErr result (source_seen self.new ≡ read_failed (source_seen self.old)) }

        // Exactly where the plan says so, and exactly as many bytes as may be moved.
        ensures planned { is_err result ≡ fails_next self.old.failing self.old.calls }
        ensures count { IfOk result (λ n. n ≡ read_count self.old (length into.new)) }
        ensures read { IfOk result (λ n. self.new ≡ source_read self.old n) }
        ensures stood { OnErr result (self.new ≡ source_failed self.old) }
    {
        let planned = self.failing.has(one_more(self.calls));
        self.calls = one_more(self.calls);
        if planned {
            self.faults = one_more(self.faults);
            return Err(Failed);
        }
        let rest = &self.bytes[self.at..];
        let count = into.len().min(self.piece).min(rest.len());
        into[..count].copy_from_slice(&rest[..count]);
        self.at += count;
        Ok(count)
    }
}
