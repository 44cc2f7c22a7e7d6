//! A write straight from a window of packets.
ghost use Rattle.std.specs.Prelude.{◌≡◌, ◌*◌, ◌<◌, length, take, OnOk, IfErr};
ghost use Rattle.ts_outside.specs.Sink.{took, write_failed};
ghost use Rattle.ts_land.specs.Opening.{AreRows, joined};

use ts_land::{Window, open};
use ts_outside::{CutShort, Sink, write_whole};
use ts_packet::Packet;

/// Writes the packets of a window straight from it. The window is as it was.
pub fn write_in_place<K: Sink>(
    sink: &mut K,
    window: Window<Packet>,
) -> (Window<Packet>, Result<(), CutShort>)
    ensures same { result.0 ≡ window }
    ensures packets { AreRows window.cells }
    ensures whole { OnOk result.1 (K.seen sink.new ≡ took (K.seen sink.old) (joined window.cells)) }
    ensures short { IfErr result.1 (λ cut. cut.taken < length window.cells * 188) }
    ensures front { IfErr result.1 (λ cut. K.seen sink.new
        ≡ write_failed (took (K.seen sink.old) (take cut.taken (joined window.cells)))) }
{
    let opened = open(window);
    let written = write_whole(sink, opened.as_slice());
    (opened.shut(), written)
}
