//! The trait of sources.
//!
//! What contracts see of a source has a third part, `origin`: the length of the units of which it leaves some bytes
//! out, and the bytes that the source under it had to come when it was taken, known or not. No call changes it. The
//! clauses of a run are equations of whole views, so it goes through all of them without a line of its own, and after
//! the run it ties the packets that were read to the file's own bytes. A source that leaves nothing out has
//! `own_bytes`. The length has to be there: a short file has the same packets in two forms, and without it the source
//! that comes back could be one of the other form.
ghost use Rattle.std.specs.Prelude.{◌≡◌, ◌<◌, ◌≤◌, [], length, take, IfOk, OnErr, IfSome};
ghost use Rattle.ts_outside.specs.Source.{SourceView, read_failed, unread};

use crate::faults::Failed;

/// Where bytes come from: an opened file, a standard stream, or a list in memory.
///
/// A source is not `Drop`: it has to be passed to `Desk::close_in`.
pub trait Source {
    // What contracts see: the bytes still to come, known or not, the count of faults, and where the bytes are from.
    ghost seen: { Self → SourceView };

    /// Moves the next bytes to the front of `into` and returns how many. The bytes after them in `into` may
    /// have changed.
    ///
    /// `Ok(0)` means the end. `Failed` raises the count of faults, and loses no byte.
    fn read(&mut self, into: &mut [u8]) -> Result<usize, Failed>
        requires { 0 < length into.old }
        ensures within { IfOk result (λ n. n ≤ length into.new) }
        ensures moved { IfOk result (λ n. seen self.old ≡ unread (take n into.new) (seen self.new)) }
        ensures end { IfOk result (λ n. n ≡ 0 → IfSome (seen self.old).left (λ l. l ≡ [])) }
        ensures failed { OnErr result (seen self.new ≡ read_failed (seen self.old)) };
}
