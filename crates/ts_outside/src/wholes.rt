//! Writing and reporting a piece as a whole.
ghost use Rattle.std.specs.Prelude.{◌≡◌, ◌<◌, length, take, OnOk, IfErr};
ghost use Rattle.ts_outside.specs.Sink.{took, write_failed};
ghost use Rattle.ts_outside.specs.Desk.{reports, report_failed};

use crate::desks::Desk;
use crate::faults::Failed;
use crate::sinks::Sink;

/// A piece was not taken whole: a call failed after its first bytes.
#[derive(Clone, Copy, PartialEq, Eq)]
pub struct CutShort {
    /// The number of bytes that were taken before the failure.
    pub taken: usize,
}

/// Writes all of a piece, in as many calls as the sink needs; no call for an empty piece.
///
/// A failure is returned with the number of bytes that were taken before it. At most one call fails.
#[tactic(auto, using(crate::proofs::Views::views))]
pub fn write_whole<K: Sink>(sink: &mut K, piece: &[u8]) -> Result<(), CutShort>
    ensures whole { OnOk result (K.seen sink.new ≡ took (K.seen sink.old) piece.now) }
    ensures short { IfErr result (λ cut. cut.taken < length piece.now) }
    ensures front { IfErr result (λ cut. K.seen sink.new ≡ write_failed (took (K.seen sink.old) (take cut.taken piece.now))) }
{
    let mut taken = 0;
    while taken < piece.len() {
        match sink.write(&piece[taken..]) {
            Ok(count) => taken += count,
            Err(Failed) => return Err(CutShort { taken }),
        }
    }
    Ok(())
}

/// Reports all of a piece, in as many calls as the desk needs; no call for an empty piece.
///
/// A failure is returned with the number of bytes that were taken before it. At most one call fails.
#[tactic(auto, using(crate::proofs::Views::views))]
pub fn report_whole<D: Desk>(desk: &mut D, piece: &[u8]) -> Result<(), CutShort>
    ensures whole { OnOk result (D.seen desk.new ≡ reports (D.seen desk.old) piece.now) }
    ensures short { IfErr result (λ cut. cut.taken < length piece.now) }
    ensures front { IfErr result (λ cut. D.seen desk.new ≡ report_failed (reports (D.seen desk.old) (take cut.taken piece.now))) }
{
    let mut taken = 0;
    while taken < piece.len() {
        match desk.report(&piece[taken..]) {
            Ok(count) => taken += count,
            Err(Failed) => return Err(CutShort { taken }),
        }
    }
    Ok(())
}
