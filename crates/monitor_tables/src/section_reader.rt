//! The reader of the sections of one PID.
ghost use Rattle.std.specs.Prelude.{◌≡◌, ◌++◌, ℕ, List, [], IfOk, OnOk};
ghost use Rattle.ts_demux.specs.DemuxState.{StandsFor};
ghost use Rattle.ts_demux.specs.SectionsOfPid.{sections_of_pid};

use std::alloc::{AllocError, Global};
use ts_demux::Demux;
use ts_packet::{PID_COUNT, Packet};
use ts_section::Section;

/// Gives the sections of one PID, each with the packet that completes it. It keeps at most one unfinished section, of no more
/// than 4096 bytes.
#[derive(Drop)]
pub struct SectionReader {
    demux: Demux,
    alloc: Global,
}

impl SectionReader {
    ghost use Rattle.std.specs.Prelude.{◌≡◌, ◌<◌, ◌∷◌, ◌++◌, [], ℕ, List, IfOk, OnOk};
    ghost use Rattle.monitor_tables.specs.ReaderStands.{HasRead};
    ghost use Rattle.monitor_tables.specs.TableIds.{sections_with};

    /// No packet was fed.
    pub fn new(alloc: Global, pid: u16) -> Result<SectionReader, AllocError>
        requires { pid < PID_COUNT }
        ensures { IfOk result (λ reader. HasRead reader pid []) }
    {
        let demux = Demux::new(alloc, pid)?;
        Ok(SectionReader { demux, alloc })
    }

    /// Takes the next packet, of any PID, and gives the sections that it completes, in their order. After `AllocError` it is not
    /// to be used any more.
    pub fn read(&mut self, packet: &Packet) -> Result<Vec<Section>, AllocError>
        ensures stands { OnOk result ((pid : ℕ) (fed : List (List ℕ)) → HasRead self.old pid fed → HasRead self.new pid (fed ++ packet.now ∷ [])) }
        ensures gives { IfOk result (λ sections. (pid : ℕ) (fed : List (List ℕ)) → HasRead self.old pid fed
            → sections.items ≡ sections_with pid fed packet.now) }
    {
        self.demux.feed(packet)?;
        let sections = take_waiting(self.alloc, &mut self.demux)?;
        Ok(sections)
    }
}

// The sections that wait.
fn take_waiting(alloc: Global, demux: &mut Demux) -> Result<Vec<Section>, AllocError>
    ensures stands { OnOk result ((pid : ℕ) (fed given : List (List ℕ)) → StandsFor demux.old pid fed given
        → StandsFor demux.new pid fed (sections_of_pid pid fed)) }
    ensures sections { IfOk result (λ sections. (pid : ℕ) (fed given : List (List ℕ)) → StandsFor demux.old pid fed given
        → sections_of_pid pid fed ≡ given ++ sections.items) }
{
    let mut sections = Vec::new(alloc);
    while let Some(section) = demux.next_section() {
        sections.push(section)?;
    }
    Ok(sections)
}
