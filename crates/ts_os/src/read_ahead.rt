//! Bytes that the system gave at once, and that a reader takes in smaller pieces.
ghost use Rattle.std.specs.Prelude.{◌≡◌, ◌+◌, ◌≤◌, vec_len};
ghost use Rattle.ts_os.specs.Pieces.{ahead_size};

use crate::opened::Opened;
use crate::reason::Reason;
use std::alloc::{AllocError, Global};
use std::marker::Model;

/// For how many bytes the system is asked at least: a pipe holds as many, and no datagram is longer.
const AHEAD_SIZE: usize = 65_536;

/// Bytes that the system gave and that no reader took yet. Their room is taken once; contracts see the list of them.
///
/// Of a datagram that is longer than the room for it the system drops the rest, so it is asked for many bytes also where the
/// reader has room for few.
#[derive(Drop)]
pub(crate) struct ReadAhead {
    room: Vec<u8>,

    /// Where in the room they begin.
    from: usize,

    /// How many they are.
    have: usize,
    ghost size: { vec_len room ≡ ahead_size },
    ghost within: { from + have ≤ vec_len room },
}

impl Model for ReadAhead {
    ghost use Rattle.std.specs.Prelude.{List, ℕ, take, drop};

    ghost Value = { List ℕ };

    ghost view = { λ ahead. take ahead.have (drop ahead.from ahead.room.items) };
}

impl ReadAhead {
    ghost use Rattle.std.specs.Prelude.{◌≡◌, ◌<◌, ◌≤◌, [], length, take, drop, min, IfOk, OnErr, MatchResult};

    /// No byte waits. `Err` means out of memory.
    pub(crate) fn new(alloc: Global) -> Result<ReadAhead, AllocError>
        ensures { IfOk result (λ ahead. ahead ≡ []) }
    {
        let room = vec![in alloc; 0; AHEAD_SIZE]?;
        Ok(ReadAhead {
            room,
            from: 0,
            have: 0,
        })
    }

    /// Moves the first bytes that wait to the front of `into`, as many as there is room for, and returns how many.
    fn take(&mut self, into: &mut [u8]) -> usize
        ensures count { result ≡ min (length into.old) (length self.old) }
        ensures within { result ≤ length into.new }
        ensures moved { take result into.new ≡ take result self.old }
        ensures rest { self.new ≡ drop result self.old }
    {
        let count = into.len().min(self.have);
        into[..count].copy_from_slice(&self.room[self.from..self.from + count]);
        self.from += count;
        self.have -= count;
        count
    }

    /// Gives bytes that wait; where none do, asks the system once, for `AHEAD_SIZE` bytes, or for as many as `into` has room
    /// for where these are more. Returns the reason if that failed; then no byte waits, as before.
    pub(crate) fn read(&mut self, from: &mut Opened, into: &mut [u8]) -> Result<usize, Reason>
        ensures within { IfOk result (λ n. n ≤ length into.new) }
        ensures waits { 0 < length self.old → MatchResult result
            (λ n. (n ≡ min (length into.old) (length self.old)) × (take n into.new ≡ take n self.old)
            × (self.new ≡ drop n self.old))
            (λ _. ⊥) }
        ensures failed { OnErr result (self.new ≡ self.old) }
    {
        if self.have == 0 {
            if into.len() >= AHEAD_SIZE {
                return from.read(into);
            }
            self.from = 0;
            self.have = from.read(self.room.as_mut_slice())?;
        }
        Ok(self.take(into))
    }
}
