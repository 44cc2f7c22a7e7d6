//! The steps of a plugin that reports nothing.

use crate::Outcome;
use ts_packet::{Labels, Packet};

/// What a plugin does that reports nothing and never agrees to end. `Silent` makes a plugin of it.
///
/// As of a plugin, a call asks for one list of cells that the value stands for, and what it promises holds for each.
pub trait Steps {
    ghost use Rattle.std.specs.Prelude.{◌≡◌, ◌≢◌, ◌<◌, ◌≤◌, ℕ, List, Option, false, take, length};
    ghost use Rattle.ts_packet.specs.declared.cell.Cell.{Cell};
    ghost use Rattle.ts_packet.specs.Cells.{Live, Dropped};
    ghost use Rattle.chain_model.specs.declared.positions.TheConstants.{POSITION_LIMIT};
    ghost use Rattle.chain_model.specs.PluginRule.{PluginRule};
    ghost use Rattle.plugin_trait.specs.Steps.{MeetsCells, MeetsSome, Tells, Meets, HasRoom, left_of};
    ghost use Rattle.plugin_trait.specs.PlacedLines.{IsSilent};
    ghost use Rattle.plugin_trait.specs.Unmarked.{unmarked};

    /// The rule that the plugin means. No call changes it.
    ghost rule: { Self → PluginRule };

    /// The value stands for these cells that it met.
    ghost stands_for: { Self → List Cell → Type 0 };

    /// Where it is a number, memory was taken before the run for so many positions after the greatest mark. No call
    /// changes it.
    ghost preallocated: { Self → Option ℕ };

    /// Takes the packet at a position with its labels, as `step` of `Plugin` does.
    fn step(&mut self, at: u64, packet: &mut Packet, labels: &mut Labels) -> Outcome
        requires met { MeetsCells (unmarked (stands_for self.old)) at }
        requires in_range { at < POSITION_LIMIT }
        ensures tells { Tells (rule self.old) (unmarked (stands_for self.old)) at (Live packet.old labels.old) result
            (left_of result packet.new labels.new) }
        ensures meets { Meets (unmarked (stands_for self.old)) (unmarked (stands_for self.new)) at
            (Live packet.old labels.old) result }
        ensures same_rule { rule self.new ≡ rule self.old }
        ensures same_preallocated { preallocated self.new ≡ preallocated self.old }
        ensures room { HasRoom (preallocated self.old) (unmarked (stands_for self.old)) at → result ≢ Outcome.NoMemory };

    /// Meets a position whose packet was dropped before.
    fn pass_over(&mut self, at: u64)
        requires met { MeetsCells (unmarked (stands_for self.old)) at }
        requires in_range { at < POSITION_LIMIT }
        ensures meets { Meets (unmarked (stands_for self.old)) (unmarked (stands_for self.new)) at Dropped Outcome.Pass }
        ensures same_rule { rule self.new ≡ rule self.old }
        ensures same_preallocated { preallocated self.new ≡ preallocated self.old };

    /// Whether a run that is cut before this position has a fault, as that the plugin found nothing to do.
    fn has_fault(&self, cut: u64) -> bool
        requires { MeetsSome (unmarked (stands_for self.now)) }
        ensures { (history : List Cell) → stands_for self.now history → cut ≤ length history
            → result ≡ (rule self.now).has_fault (take cut history) };

    /// It has neither lines nor a summary.
    ghost quiet: { (plugin : Self) → IsSilent (rule plugin) };

    /// It never agrees to a common end.
    ghost never_agrees: { (plugin : Self) (history : List Cell) → (rule plugin).agrees history ≡ false };
}
