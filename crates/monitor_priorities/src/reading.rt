//! Sections of one PID, where nearly all packets are on others.
ghost use Rattle.std.specs.Prelude.{◌≡◌, ◌∷◌, ◌++◌, [], ℕ, List, IfOk, OnOk};
ghost use Rattle.monitor_tables.specs.ReaderStands.{HasRead};
ghost use Rattle.monitor_tables.specs.TableIds.{sections_with};

use monitor_tables::SectionReader;
use std::alloc::{AllocError, Global};
use ts_demux::other_packets_change_nothing;
use ts_packet::Packet;
use ts_section::Section;

/// A packet with the reader of a PID. Gives the sections that it completes; one on another PID is not handed on.
pub(crate) fn read_on(
    alloc: Global,
    reader: &mut SectionReader,
    pid: u16,
    packet: &Packet,
) -> Result<Vec<Section>, AllocError>
    ensures stands { OnOk result ((fed : List (List ℕ)) → HasRead reader.old pid fed → HasRead reader.new pid (fed ++ packet.now ∷ [])) }
    ensures gives { IfOk result (λ sections. (fed : List (List ℕ)) → HasRead reader.old pid fed
        → sections.items ≡ sections_with pid fed packet.now) }
{
    if packet.pid() != pid {
        // A law, which runs nothing.
        other_packets_change_nothing();
        return Ok(Vec::new(alloc));
    }
    let sections = reader.read(packet)?;
    Ok(sections)
}
