//! The plugin of steps that report nothing.

use crate::steps::Steps;
use crate::{Line, Outcome, Plugin};
use std::alloc::AllocError;
use ts_packet::{Labels, Packet};

/// A plugin that reports nothing and never agrees to end.
#[derive(Drop)]
pub struct Silent<T: Drop> {
    pub steps: T,
}

impl<T: Steps + Drop> Plugin for Silent<T> {
    ghost use Rattle.std.specs.Prelude.{[], true};
    ghost use Rattle.plugin_trait.specs.Unmarked.{unmarked};

    ghost rule = { λ s. T.rule s.steps };

    ghost stands_for = { λ s. unmarked (T.stands_for s.steps) };

    ghost preallocated = { λ s. T.preallocated s.steps };

    ghost silent = { λ _. true };

    #[inline(always)]
    fn step(&mut self, at: u64, packet: &mut Packet, labels: &mut Labels) -> Outcome {
        self.steps.step(at, packet, labels)
    }

    #[inline(always)]
    fn pass_over(&mut self, at: u64) {
        self.steps.pass_over(at);
    }

    fn note(&mut self, _written: u64, _lines: &mut Vec<Line>) -> Result<(), AllocError> {
        Ok(())
    }

    fn summary(&self, _at: u64, _lines: &mut Vec<Line>) -> Result<(), AllocError> {
        Ok(())
    }

    fn agreed(&self) -> bool {
        false
    }

    fn has_fault(&self, cut: u64) -> bool {
        self.steps.has_fault(cut)
    }

    ghost starts_open = { λ plugin history mark stands. T.never_agrees plugin.steps [] };
}
