//! The packets of an input that is a generated stream.

use cell_rows::Mark;
use chain_core::InputEnd;
use ts_packet::Packet;
use ts_testgen::TestGen;

/// The packets of an input that is a generated stream.
#[derive(Drop)]
pub(crate) struct GeneratedFeed {
    pub(crate) generator: TestGen,
    /// How many packets the input has.
    pub(crate) all: u64,
    /// How many packets were put: as many as the generator has given.
    pub(crate) packets: u64,
}

impl GeneratedFeed {
    ghost use Rattle.std.specs.Prelude.{◌≡◌, ◌+◌, ◌<◌, None, Some, nat_lt, if◌then◌else◌};
    ghost use Rattle.chain_model.specs.declared.input_end.InputEnd.TheVariants.{End};
    ghost use Rattle.chain_model.specs.declared.positions.TheConstants.{POSITION_LIMIT};
    ghost use Rattle.ts_packet.specs.Cells.{Live};
    ghost use Rattle.ts_packet.specs.Labels.{no_labels};
    ghost use Rattle.cell_rows.specs.Cells.{cell_of};
    ghost use Rattle.ts_testgen.specs.Generated.{generated};
    ghost use Rattle.stage_run.specs.Feeds.{IsCounted};

    /// Whether a packet is left, or how the packets end.
    pub(crate) fn ensure_packet(&self) -> Option<InputEnd>
        ensures { result ≡ (if nat_lt self.now.packets self.now.all then None else Some (End 0)) }
    {
        if self.packets < self.all {
            None
        } else {
            Some(InputEnd::End { left: 0 })
        }
    }

    /// Puts the next packet into a slot.
    pub(crate) fn next_packet(&mut self, packet: &mut Packet, mark: &mut Mark)
        requires left { self.old.packets < self.old.all }
        requires counted { IsCounted self.old }
        requires in_range { self.old.packets < POSITION_LIMIT }
        ensures puts { cell_of packet.new mark.new ≡ Live (generated self.old.generator.seed self.old.packets) no_labels }
        ensures seed { self.new.generator.seed ≡ self.old.generator.seed }
        ensures all { self.new.all ≡ self.old.all }
        ensures packets { self.new.packets ≡ self.old.packets + 1 }
        ensures counted { IsCounted self.new }
    {
        *packet = self.generator.next_packet();
        *mark = Mark::live();
        self.packets += 1;
    }
}
