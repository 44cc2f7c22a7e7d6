//! Single calls of the system that read and write.
ghost use Rattle.std.specs.Prelude.{◌<◌, ◌≤◌, length, IfOk};

use crate::reason::Reason;
use std::io::{ErrorKind, Read, Write};

/// Asks the system once for bytes; a call that a signal interrupted is made again. Returns the reason if it failed.
pub(crate) fn read_some<R: Read>(from: &mut R, into: &mut [u8]) -> Result<usize, Reason>
    ensures { IfOk result (λ n. n ≤ length into.new) }
{
    for _ in 0..u64::MAX {
        match from.read(into) {
            Ok(count) => return Ok(count),
            Err(e) if e.kind() == ErrorKind::Interrupted => {}
            Err(e) => return Err(Reason::of(e.kind())),
        }
    }
    Err(Reason::Other)
}

/// Gives the system bytes once; a call that a signal interrupted is made again. Returns the reason if it failed, or took
/// nothing.
pub(crate) fn write_some<W: Write>(to: &mut W, piece: &[u8]) -> Result<usize, Reason>
    ensures some { IfOk result (λ n. 0 < n) }
    ensures within { IfOk result (λ n. n ≤ length piece.now) }
{
    for _ in 0..u64::MAX {
        match to.write(piece) {
            Ok(0) => return Err(Reason::Full),
            Ok(count) => return Ok(count),
            Err(e) if e.kind() == ErrorKind::Interrupted => {}
            Err(e) => return Err(Reason::of(e.kind())),
        }
    }
    Err(Reason::Other)
}
