//! A source of a preallocated desk.
ghost use Rattle.std.specs.Prelude.{◌≡◌, ◌<◌, ◌≤◌, [], drop, length, min, take, IfOk, IsOk, OnErr, IfSome};
ghost use Rattle.ts_outside.specs.Source.{read_failed, unread};
ghost use Rattle.ts_outside.specs.Preallocated.{preallocated_source};

use crate::faults::Failed;
use crate::sources::Source;
use std::marker::Model;

/// A source over bytes in memory, which contracts see as those still to come. It never fails.
pub struct PreallocatedSource {
    pub(crate) bytes: Vec<u8>,
    pub(crate) at: usize,
}

impl Model for PreallocatedSource {
    ghost use Rattle.std.specs.Prelude.{ℕ, List, ◌≤◌, drop, vec_len};

    ghost Value = { List ℕ };

    ghost view = { λ s. drop s.at s.bytes.items };

    ghost invariant = { λ s. s.at ≤ vec_len s.bytes };
}

impl Source for PreallocatedSource {
    ghost seen = { preallocated_source };

    fn read(&mut self, into: &mut [u8]) -> Result<usize, Failed>
        requires { 0 < length into.old }
        ensures within { IfOk result (λ n. n ≤ length into.new) }
        ensures moved { IfOk result (λ n. preallocated_source self.old ≡ unread (take n into.new) (preallocated_source self.new)) }
        ensures end { IfOk result (λ n. n ≡ 0 → IfSome (preallocated_source self.old).left (λ l. l ≡ [])) }
        ensures failed { OnErr result (preallocated_source self.new ≡ read_failed (preallocated_source self.old)) }

        // It never fails, and moves as many bytes as there are and have a place.
        ensures preallocated { IsOk result }
        ensures count { IfOk result (λ n. n ≡ min (length into.new) (length self.old)) }
        ensures rest { IfOk result (λ n. self.new ≡ drop n self.old) }
    {
        let rest = &self.bytes[self.at..];
        let count = into.len().min(rest.len());
        into[..count].copy_from_slice(&rest[..count]);
        self.at += count;
        Ok(count)
    }
}
