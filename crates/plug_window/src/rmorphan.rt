//! The plugin `rmorphan`.
ghost use Rattle.std.specs.Prelude.{◌≡◌, IfOk, [], None};
ghost use Rattle.plug_window.specs.RmorphanRule.{rmorphan_rule};
ghost use Rattle.plug_window.specs.WindowSettings.{IsValidWindow};

use crate::late_line::LateLine;
use crate::slot::fill_slot;
use crate::window_conf::WindowConf;
use plugin_trait::{Outcome, Plugin, Silent, Steps};
use std::alloc::{AllocError, Global};
use ts_packet::{Labelled, Labels, Packet};

/// Outputs each packet a window of packets later, and drops those on PIDs that nothing refers to by then. A packet is
/// output with the labels that it had when it came in.
#[derive(Drop)]
pub struct RmorphanSteps {
    line: LateLine,
    /// Whether a null packet is put in the place if no packet is output; else the place is dropped.
    stuffing: bool,
}

/// The plugin `rmorphan`.
pub type Rmorphan = Silent<RmorphanSteps>;

/// A new plugin, which has processed no cell. The room of the window is allocated here; its steps allocate for
/// tables only.
pub fn new_rmorphan(alloc: Global, conf: &WindowConf) -> Result<Rmorphan, AllocError>
    requires { IsValidWindow conf.now }
    ensures rule { IfOk result (λ plugin. ⟦<Rmorphan as Plugin>⟧.rule plugin ≡ rmorphan_rule conf.now) }
    ensures fresh { IfOk result (λ plugin. ⟦<Rmorphan as Plugin>⟧.stands_for plugin [] 0) }
    ensures preallocated { IfOk result (λ plugin. ⟦<Rmorphan as Plugin>⟧.preallocated plugin ≡ None) }
{
    let steps = RmorphanSteps {
        line: LateLine::new(alloc, conf.window as usize)?,
        stuffing: conf.stuffing,
    };
    Ok(Silent { steps })
}

impl Steps for RmorphanSteps {
    ghost use Rattle.std.specs.Prelude.{◌≡◌, ◌≢◌, ◌<◌, List, refl, false};
    ghost use Rattle.ts_packet.specs.declared.cell.Cell.{Cell};
    ghost use Rattle.ts_packet.specs.Cells.{Live};
    ghost use Rattle.ts_packet.specs.Header.{pid_of};
    ghost use Rattle.chain_model.specs.declared.positions.TheConstants.{POSITION_LIMIT};
    ghost use Rattle.plugin_trait.specs.Steps.{HasRoom, MeetsCells, Tells, Meets, left_of};
    ghost use Rattle.plugin_trait.specs.Unmarked.{unmarked};
    ghost use Rattle.plug_window.specs.RmorphanRule.{rmorphan_rule};
    ghost use Rattle.plug_window.specs.RmorphanState.{conf_of, may_name, preallocated_of, Delays, MeetsHistory};

    ghost rule = { λ s. rmorphan_rule (conf_of s) };

    ghost stands_for = { λ s history. MeetsHistory s history };

    ghost preallocated = { λ s. preallocated_of s };

    /// The clauses are those of `Steps`, whose ghost members have no names here, and one more: a packet on a PID without a
    /// table that names PIDs needs no memory.
    #[inline]
    fn step(&mut self, at: u64, packet: &mut Packet, labels: &mut Labels) -> Outcome
        requires met { MeetsCells (unmarked (MeetsHistory self.old)) at }
        requires in_range { at < POSITION_LIMIT }
        ensures tells { Tells (rmorphan_rule (conf_of self.old)) (unmarked (MeetsHistory self.old)) at
            (Live packet.old labels.old) result (left_of result packet.new labels.new) }
        ensures meets { Meets (unmarked (MeetsHistory self.old)) (unmarked (MeetsHistory self.new)) at
            (Live packet.old labels.old) result }
        ensures same_rule { rmorphan_rule (conf_of self.new) ≡ rmorphan_rule (conf_of self.old) }
        ensures same_preallocated { preallocated_of self.new ≡ preallocated_of self.old }
        ensures room { HasRoom (preallocated_of self.old) (unmarked (MeetsHistory self.old)) at → result ≢ Outcome.NoMemory }
        ensures quiet { (history : List Cell) → Delays self.old history
            → may_name (pid_of packet.old) history ≡ false → result ≢ Outcome.NoMemory }
    {
        let came = Labelled {
            packet: *packet,
            labels: *labels,
        };
        match self.line.turn(at, came) {
            Ok(given) => fill_slot(packet, labels, given, self.stuffing),
            Err(_) => Outcome::NoMemory,
        }
    }

    fn pass_over(&mut self, _at: u64) {}

    fn has_fault(&self, _cut: u64) -> bool {
        false
    }

    ghost quiet = { λ plugin. record { no_lines = λ history packet labels. refl; no_summary = λ history. refl } };

    ghost never_agrees = { λ plugin history. refl };
}
