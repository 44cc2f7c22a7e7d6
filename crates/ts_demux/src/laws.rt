//! Laws of packets and sections, each a fact and no code.

ghost use Rattle.std.specs.Prelude.{◌≡◌, ℕ, List, false};
ghost use Rattle.ts_demux.specs.CountedPackets.{counts};
ghost use Rattle.ts_demux.specs.DemuxState.{DemuxState, TakesIn};

/// A packet that does not count for the sections of a PID changes nothing: a demultiplexer that is left as it is
/// stands for it too. A law: it runs nothing.
pub fn other_packets_change_nothing()
    ensures { (demux : DemuxState) (packet : List ℕ) → counts demux.pid packet ≡ false → TakesIn demux demux packet 0 }
{}
