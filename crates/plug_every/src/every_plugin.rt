//! A plugin that gives its summary at each so-many-th packet too.
//!
//! It keeps no second plugin, and no lines: lines are given out at a mark, and so is a summary. Where a due packet is below a
//! mark, the plugin within is first given a mark behind that packet, and its summary there is the one of a run that is cut
//! there. What is kept is the positions of the due packets from the greatest mark on.

ghost use Rattle.std.specs.Prelude.{◌≡◌, ◌≤◌, ◌∷◌, ◌++◌, [], List, if◌then◌else◌};
ghost use Rattle.ts_packet.specs.declared.cell.Cell.{Cell as GivenCell};
ghost use Rattle.plugin_trait.specs.Steps.{met_after};

use crate::due::Due;
use crate::giving::give;
use circular_buffer::HeapCircularBuffer;
use plugin_notes::push_if_any;
use plugin_trait::{Line, Outcome, Plugin};
use std::alloc::{AllocError, Global};
use ts_packet::{Labels, Packet};

/// A plugin with its summary so far at each so-many-th packet that it sees.
///
/// If memory runs out for its lines at a mark, it gives out none from then on: the plugin within has passed its own mark, and
/// has no way back. The packets pass as before.
#[derive(Drop)]
pub struct EveryPlugin<P> {
    plugin: P,
    /// After how many packets there is a summary, from 1.
    every: u64,
    /// Whether a line before it says how many packets were seen.
    counts: bool,
    /// How many packets were seen.
    seen: u64,
    /// The due packets from the greatest mark on.
    due: HeapCircularBuffer<Due>,
    /// The greatest mark.
    mark: u64,
    /// Where memory ran out at a mark, whether a run that is cut at the mark before it has a fault.
    failed: Option<bool>,
}

// How many packets of which each `every`-th is due may be due between the greatest mark and the position at hand, and two
// more.
fn due_count(every: u64, buffer: usize) -> usize
    requires { 1 ≤ every }
{
    ((buffer as u64 / every) as usize).saturating_add(2)
}

// Whether the plugin met the packet: its list has not ended before it.
#[inline]
fn has_met(outcome: Outcome) -> bool
    ensures { (history : List GivenCell) (cell : GivenCell)
        → met_after outcome history cell ≡ (if result then history ++ cell ∷ [] else history) }
{
    match outcome {
        Outcome::Pass | Outcome::Drop | Outcome::Last => true,
        Outcome::Stop | Outcome::Refuse(_) | Outcome::NoMemory => false,
    }
}

impl<P: Plugin + Drop> EveryPlugin<P> {
    ghost use Rattle.std.specs.Prelude.{◌≡◌, ◌≤◌, ◌<◌, ◌+◌, ◌^◌, ◌%◌, ◌==◌, ◌++◌, [], None, Some, IfOk, false, length, option_to_list, if◌then◌else◌};
    ghost use Rattle.plug_every.specs.EveryRule.{every_rule};
    ghost use Rattle.plug_every.specs.EveryStands.{StandsEvery, rule_in};

    /// The plugin, which has met no cell, with its summary at each `every`-th packet that it sees, and with a line before each
    /// that says how many packets it saw, where `counts` says so. `buffer` is the number of positions that the chain holds.
    pub fn of(
        alloc: Global,
        plugin: P,
        every: u64,
        counts: bool,
        buffer: usize,
    ) -> Result<EveryPlugin<P>, AllocError>
        requires fresh { P.stands_for plugin [] 0 }
        requires positive { 1 ≤ every }
        ensures rule { IfOk result (λ made. rule_in P.rule made ≡ every_rule every counts (P.rule plugin)) }
        ensures fresh { IfOk result (λ made. StandsEvery P.rule P.stands_for made [] 0) }
    {
        let due = HeapCircularBuffer::with_capacity(alloc, due_count(every, buffer))?;
        Ok(EveryPlugin {
            plugin,
            every,
            counts,
            seen: 0,
            due,
            mark: 0,
            failed: None,
        })
    }

    /// The plugin within.
    pub fn plugin(&self) -> &P
        ensures { result.now ≡ self.now.plugin }
    {
        &self.plugin
    }

    // Whether one more due packet would find no room, where it is to be noted.
    fn is_full(&self) -> bool
        ensures { result ≡ false → self.now.failed ≡ None → length self.now.due.items < self.now.due.capacity }
    {
        self.failed.is_none() && self.due.len() >= self.due.capacity()
    }

    // Counts one more packet, at a position, and notes it where it is due.
    fn count(&mut self, at: u64)
        requires positive { 1 ≤ self.old.every }
        requires few { self.old.seen + 1 < 2 ^ 64 }
        ensures seen { self.new.seen ≡ self.old.seen + 1 }
        ensures due { length self.old.due.items < self.old.due.capacity
            → self.new.due.items ≡ self.old.due.items
            ++ option_to_list (if (self.old.seen + 1) % self.old.every == 0 then Some (record { at = at; seen = self.old.seen + 1 }) else None) }
        ensures plugin { self.new.plugin ≡ self.old.plugin }
        ensures every { self.new.every ≡ self.old.every }
        ensures counts { self.new.counts ≡ self.old.counts }
        ensures mark { self.new.mark ≡ self.old.mark }
        ensures failed { self.new.failed ≡ self.old.failed }
    {
        self.seen += 1;
        let due = if self.seen % self.every == 0 {
            Some(Due {
                at,
                seen: self.seen,
            })
        } else {
            None
        };
        let _ = push_if_any(&mut self.due, due);
    }
}

impl<P: Plugin + Drop> Plugin for EveryPlugin<P> {
    ghost use Rattle.std.specs.Prelude.{None, false};
    ghost use Rattle.plug_every.specs.EveryStands.{StandsEvery, rule_in};

    ghost rule = { rule_in P.rule };

    ghost stands_for = { StandsEvery P.rule P.stands_for };

    ghost preallocated = { λ _. None };

    ghost silent = { λ _. false };

    #[inline]
    fn step(&mut self, at: u64, packet: &mut Packet, labels: &mut Labels) -> Outcome {
        if self.is_full() {
            return Outcome::NoMemory;
        }
        let outcome = self.plugin.step(at, packet, labels);
        if !has_met(outcome) {
            return outcome;
        }
        self.count(at);
        outcome
    }

    fn pass_over(&mut self, at: u64) {
        self.plugin.pass_over(at);
    }

    fn note(&mut self, written: u64, lines: &mut Vec<Line>) -> Result<(), AllocError> {
        if self.failed.is_some() {
            return Err(AllocError);
        }
        let fault = self.plugin.has_fault(self.mark);
        match give(&mut self.plugin, &mut self.due, self.counts, written, lines) {
            Ok(()) => {
                self.mark = written;
                Ok(())
            }
            Err(error) => {
                self.failed = Some(fault);
                Err(error)
            }
        }
    }

    fn summary(&self, at: u64, lines: &mut Vec<Line>) -> Result<(), AllocError> {
        if self.failed.is_some() {
            return Err(AllocError);
        }
        self.plugin.summary(at, lines)
    }

    fn agreed(&self) -> bool {
        self.plugin.agreed()
    }

    fn has_fault(&self, cut: u64) -> bool {
        match self.failed {
            None => self.plugin.has_fault(cut),
            Some(fault) => fault,
        }
    }

    ghost starts_open = { λ plugin history mark stands. P.starts_open plugin.plugin history stands.inner stands.holds };
}
