//! The plugin `compact`.
ghost use Rattle.std.specs.Prelude.{◌≡◌, IfOk, [], Some};
ghost use Rattle.plug_window.specs.CompactRule.{compact_rule};
ghost use Rattle.plug_window.specs.WindowSettings.{IsValidWindow};

use crate::block_line::BlockLine;
use crate::slot::fill_slot;
use crate::window_conf::WindowConf;
use plugin_trait::{Outcome, Plugin, Silent, Steps};
use std::alloc::{AllocError, Global};
use ts_packet::{Labelled, Labels, Packet};

/// Outputs the packets in blocks of the window's size, each at the positions of the block after it, with its null packets
/// last. A packet is output with the labels that it had when it came in.
#[derive(Drop)]
pub struct CompactSteps {
    line: BlockLine,
    /// Whether a null packet is put in the place if no packet is output; else the place is dropped.
    stuffing: bool,
    /// For how many positions after the last mark there is room.
    buffer: usize,
}

/// The plugin `compact`.
pub type Compact = Silent<CompactSteps>;

/// A new plugin, which has processed no cell. All memory is allocated here; its steps allocate nothing.
pub fn new_compact(alloc: Global, conf: &WindowConf, buffer: usize) -> Result<Compact, AllocError>
    requires { IsValidWindow conf.now }
    ensures rule { IfOk result (λ plugin. ⟦<Compact as Plugin>⟧.rule plugin ≡ compact_rule conf.now) }
    ensures fresh { IfOk result (λ plugin. ⟦<Compact as Plugin>⟧.stands_for plugin [] 0) }
    ensures preallocated { IfOk result (λ plugin. ⟦<Compact as Plugin>⟧.preallocated plugin ≡ Some buffer) }
{
    let steps = CompactSteps {
        line: BlockLine::new(alloc, conf.window as usize)?,
        stuffing: conf.stuffing,
        buffer,
    };
    Ok(Silent { steps })
}

impl Steps for CompactSteps {
    ghost use Rattle.std.specs.Prelude.{◌≡◌, ◌≢◌, ◌<◌, Some, refl};
    ghost use Rattle.ts_packet.specs.Cells.{Live};
    ghost use Rattle.chain_model.specs.declared.positions.TheConstants.{POSITION_LIMIT};
    ghost use Rattle.plugin_trait.specs.Steps.{MeetsCells, Tells, Meets, left_of};
    ghost use Rattle.plugin_trait.specs.Unmarked.{unmarked};
    ghost use Rattle.plug_window.specs.CompactRule.{compact_rule};
    ghost use Rattle.plug_window.specs.CompactState.{conf_of, MeetsHistory};

    ghost rule = { λ s. compact_rule (conf_of s) };

    ghost stands_for = { λ s history. MeetsHistory s history };

    ghost preallocated = { λ s. Some s.buffer };

    /// The clauses are those of `Steps`, whose ghost members have no names here, and one more: no step returns
    /// `NoMemory`.
    #[inline]
    fn step(&mut self, at: u64, packet: &mut Packet, labels: &mut Labels) -> Outcome
        requires met { MeetsCells (unmarked (MeetsHistory self.old)) at }
        requires in_range { at < POSITION_LIMIT }
        ensures tells { Tells (compact_rule (conf_of self.old)) (unmarked (MeetsHistory self.old)) at
            (Live packet.old labels.old) result (left_of result packet.new labels.new) }
        ensures meets { Meets (unmarked (MeetsHistory self.old)) (unmarked (MeetsHistory self.new)) at
            (Live packet.old labels.old) result }
        ensures same_rule { compact_rule (conf_of self.new) ≡ compact_rule (conf_of self.old) }
        ensures same_preallocated { Some self.new.buffer ≡ Some self.old.buffer }
        ensures no_memory { result ≢ Outcome.NoMemory }
    {
        let came = Labelled {
            packet: *packet,
            labels: *labels,
        };
        let given = self.line.turn(came);
        fill_slot(packet, labels, given, self.stuffing)
    }

    fn pass_over(&mut self, _at: u64) {}

    fn has_fault(&self, _cut: u64) -> bool {
        false
    }

    ghost quiet = { λ plugin. record { no_lines = λ history packet labels. refl; no_summary = λ history. refl } };

    ghost never_agrees = { λ plugin history. refl };
}
