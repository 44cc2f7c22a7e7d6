//! The plugin `restuff`.
ghost use Rattle.std.specs.Prelude.{◌≡◌, IfOk, [], Some};
ghost use Rattle.chain_model.specs.Apply.{outcome_of_live, goes_on};
ghost use Rattle.plugin_trait.specs.Steps.{left_of};
ghost use Rattle.plug_restuff.specs.RestuffRule.{restuff_rule};
ghost use Rattle.plug_restuff.specs.RestuffRule;
ghost use Rattle.plug_restuff.specs.RestuffSettings.{IsValidRestuff};
ghost use Rattle.plug_restuff.specs.RestuffState.{outcome_word};

use crate::restuff_conf::RestuffConf;
use crate::slot_line::SlotLine;
use plugin_trait::{Outcome, Plugin, Reason, Silent, Steps};
use std::alloc::{AllocError, Global};
use ts_packet::{Labelled, Labels, Packet};

/// Gives a stream of one constant rate a lower one: null packets are left out, and what is no null packet waits for a slot
/// of the lower rate and leaves there, with its labels and its PCR moved by as much.
#[derive(Drop)]
pub struct RestuffSteps {
    line: SlotLine,
    /// For how many positions after the last mark there is room.
    buffer: usize,
}

/// The plugin `restuff`.
pub type Restuff = Silent<RestuffSteps>;

/// A new plugin, which has met no cell. All memory is allocated here; its steps allocate nothing.
pub fn new_restuff(alloc: Global, conf: &RestuffConf, buffer: usize) -> Result<Restuff, AllocError>
    requires { IsValidRestuff conf.now }
    ensures rule { IfOk result (λ plugin. ⟦<Restuff as Plugin>⟧.rule plugin ≡ restuff_rule conf.now) }
    ensures fresh { IfOk result (λ plugin. ⟦<Restuff as Plugin>⟧.stands_for plugin [] 0) }
    ensures preallocated { IfOk result (λ plugin. ⟦<Restuff as Plugin>⟧.preallocated plugin ≡ Some buffer) }
{
    let steps = RestuffSteps {
        line: SlotLine::new(alloc, conf)?,
        buffer,
    };
    Ok(Silent { steps })
}

// Puts in a cell what is put there; where nothing is, its packet is dropped.
#[inline]
fn fill_cell(packet: &mut Packet, labels: &mut Labels, given: Option<Labelled>) -> Outcome
    ensures made { outcome_of_live (RestuffRule.outcome_of given) (RestuffRule.labels_of labels.old given)
        ≡ goes_on (left_of result packet.new labels.new) }
    ensures told { result ≡ outcome_word (left_of result packet.new labels.new) }
{
    let Some(row) = given else {
        return Outcome::Drop;
    };
    *packet = row.packet;
    *labels = row.labels;
    Outcome::Pass
}

impl Steps for RestuffSteps {
    ghost use Rattle.std.specs.Prelude.{◌≡◌, ◌≢◌, ◌<◌, Some, refl};
    ghost use Rattle.ts_packet.specs.Cells.{Live};
    ghost use Rattle.chain_model.specs.declared.positions.TheConstants.{POSITION_LIMIT};
    ghost use Rattle.plugin_trait.specs.Steps.{MeetsCells, Tells, Meets, left_of};
    ghost use Rattle.plugin_trait.specs.Unmarked.{unmarked};
    ghost use Rattle.plug_restuff.specs.RestuffRule.{restuff_rule};
    ghost use Rattle.plug_restuff.specs.RestuffState.{conf_of, MeetsHistory};

    ghost rule = { λ s. restuff_rule (conf_of s.line) };

    ghost stands_for = { λ s history. MeetsHistory s history };

    ghost preallocated = { λ s. Some s.buffer };

    /// The clauses are those of `Steps`, whose ghost members have no names here, and one more: no step returns
    /// `NoMemory`.
    #[inline]
    fn step(&mut self, at: u64, packet: &mut Packet, labels: &mut Labels) -> Outcome
        requires met { MeetsCells (unmarked (MeetsHistory self.old)) at }
        requires in_range { at < POSITION_LIMIT }
        ensures tells { Tells (restuff_rule (conf_of self.old.line)) (unmarked (MeetsHistory self.old)) at
            (Live packet.old labels.old) result (left_of result packet.new labels.new) }
        ensures meets { Meets (unmarked (MeetsHistory self.old)) (unmarked (MeetsHistory self.new)) at
            (Live packet.old labels.old) result }
        ensures same_rule { restuff_rule (conf_of self.new.line) ≡ restuff_rule (conf_of self.old.line) }
        ensures same_preallocated { Some self.new.buffer ≡ Some self.old.buffer }
        ensures no_memory { result ≢ Outcome.NoMemory }
    {
        let came = Labelled {
            packet: *packet,
            labels: *labels,
        };
        if self.line.refuses(&came) {
            return Outcome::Refuse(Reason::Pid(packet.pid()));
        }
        let given = self.line.turn(came);
        fill_cell(packet, labels, given)
    }

    fn pass_over(&mut self, _at: u64) {}

    fn has_fault(&self, _cut: u64) -> bool {
        false
    }

    ghost quiet = { λ plugin. record { no_lines = λ history packet labels. refl; no_summary = λ history. refl } };

    ghost never_agrees = { λ plugin history. refl };
}
