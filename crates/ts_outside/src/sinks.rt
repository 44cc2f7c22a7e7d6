//! The trait of sinks.
ghost use Rattle.std.specs.Prelude.{◌≡◌, ◌<◌, ◌≤◌, length, take, IfOk, OnErr};
ghost use Rattle.ts_outside.specs.Sink.{SinkView, took, write_failed};

use crate::faults::Failed;

/// Where bytes go: an opened file, a standard stream, or a list in memory.
///
/// A sink is not `Drop`: it has to be passed to `Desk::close_out`.
pub trait Sink {
    // What contracts see: the bytes taken and the name, each known or not, and the count of faults.
    ghost seen: { Self → SinkView };

    /// Takes the first bytes of a piece, at least one, and returns how many.
    ///
    /// `Failed` raises the count of faults, and none of the piece was taken.
    fn write(&mut self, piece: &[u8]) -> Result<usize, Failed>
        requires { 0 < length piece.now }
        ensures some { IfOk result (λ n. 0 < n) }
        ensures within { IfOk result (λ n. n ≤ length piece.now) }
        ensures taken { IfOk result (λ n. seen self.new ≡ took (seen self.old) (take n piece.now)) }
        ensures failed { OnErr result (seen self.new ≡ write_failed (seen self.old)) };
}
