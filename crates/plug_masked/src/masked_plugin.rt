//! A plugin that sees only packets with some labels.

ghost use Rattle.std.specs.Prelude.{◌≡◌};

use plugin_trait::{Line, Outcome, Plugin};
use std::alloc::AllocError;
use ts_packet::{Labels, Packet};

/// A plugin to which every cell is shown as it is, or, where it has labels, a packet with none of them as a dropped
/// one. Such a packet stays as it is.
#[derive(Drop)]
pub struct MaskedPlugin<P> {
    /// The plugin to which cells are shown.
    pub plugin: P,
    /// The labels of which a packet has to have one; `None` shows all cells as they are.
    pub only: Option<Labels>,
}

impl<P> MaskedPlugin<P> {
    ghost use Rattle.plug_masked.specs.OnlyLabels.{shows};

    // Whether a packet with these labels is shown to the plugin.
    #[inline]
    fn shows(&self, labels: Labels) -> bool
        ensures { result ≡ shows self.now.only labels }
    {
        match self.only {
            Some(only) => labels.shares(only),
            None => true,
        }
    }
}

impl<P: Plugin + Drop> Plugin for MaskedPlugin<P> {
    ghost use Rattle.plug_masked.specs.OnlyLabels.{rule_for, shown, starts_open_for};

    ghost rule = { λ s. rule_for s.only (P.rule s.plugin) };

    ghost stands_for = { λ s history mark. P.stands_for s.plugin (shown s.only history) mark };

    ghost preallocated = { λ s. P.preallocated s.plugin };

    ghost silent = { λ s. P.silent s.plugin };

    #[inline]
    fn step(&mut self, at: u64, packet: &mut Packet, labels: &mut Labels) -> Outcome {
        if self.shows(*labels) {
            return self.plugin.step(at, packet, labels);
        }
        self.plugin.pass_over(at);
        Outcome::Pass
    }

    fn pass_over(&mut self, at: u64) {
        self.plugin.pass_over(at);
    }

    fn note(&mut self, written: u64, lines: &mut Vec<Line>) -> Result<(), AllocError> {
        self.plugin.note(written, lines)
    }

    fn summary(&self, at: u64, lines: &mut Vec<Line>) -> Result<(), AllocError> {
        self.plugin.summary(at, lines)
    }

    fn agreed(&self) -> bool {
        self.plugin.agreed()
    }

    fn has_fault(&self, cut: u64) -> bool {
        self.plugin.has_fault(cut)
    }

    ghost starts_open = { λ plugin history mark stands. starts_open_for plugin.only
        (P.rule plugin.plugin)
        (P.starts_open plugin.plugin (shown plugin.only history) mark stands) };
}
