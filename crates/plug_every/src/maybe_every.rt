//! A plugin that may have its summary at each so-many-th packet too.

use crate::every_plugin::EveryPlugin;
use cell_rows::Mark;
use plugin_trait::{Applied, Line, Outcome, Plugin};
use std::alloc::{AllocError, Global};
use ts_packet::{Labels, Packet};

/// A plugin as it is, or with its summary so far at each so-many-th packet.
///
/// The second stands in a box of its own: a value of this type has room for one plugin, and not for two.
#[derive(Drop)]
pub enum MaybeEvery<P> {
    Plain(P),
    Every(Box<EveryPlugin<P>>),
}

impl<P: Plugin + Drop> MaybeEvery<P> {
    ghost use Rattle.std.specs.Prelude.{◌≡◌, ◌≤◌, [], IfOk, IfSome};
    ghost use Rattle.plug_every.specs.EveryRule.{rule_every};
    ghost use Rattle.plug_every.specs.EveryStands.{StandsMaybe, preallocated_every, preallocated_of_maybe, rule_of_maybe, silent_every, silent_of_maybe};

    /// The plugin, which has met no cell: with its summary at each `every`-th packet that it sees where that is given, and as it
    /// is else. `counts` and `buffer` are those of `EveryPlugin::of`.
    pub fn of(
        alloc: Global,
        plugin: P,
        every: Option<u64>,
        counts: bool,
        buffer: usize,
    ) -> Result<MaybeEvery<P>, AllocError>
        requires fresh { P.stands_for plugin [] 0 }
        requires positive { IfSome every (λ n. 1 ≤ n) }
        ensures rule { IfOk result (λ made. rule_of_maybe P.rule made ≡ rule_every every counts (P.rule plugin)) }
        ensures fresh { IfOk result (λ made. StandsMaybe P.rule P.stands_for made [] 0) }
        ensures preallocated { IfOk result (λ made. preallocated_of_maybe P.preallocated made ≡ preallocated_every every (P.preallocated plugin)) }
        ensures silent { IfOk result (λ made. silent_of_maybe P.silent made ≡ silent_every every (P.silent plugin)) }
    {
        match every {
            None => Ok(MaybeEvery::Plain(plugin)),
            Some(every) => {
                let plugin = EveryPlugin::of(alloc, plugin, every, counts, buffer)?;
                Ok(MaybeEvery::Every(Box::new(alloc, plugin)?))
            }
        }
    }

    /// The plugin itself.
    pub fn plugin(&self) -> &P {
        match self {
            MaybeEvery::Plain(plugin) => plugin,
            MaybeEvery::Every(plugin) => plugin.plugin(),
        }
    }
}

// The same expression for the plugin of each variant.
macro_rules! either {
    ($some:expr, $plugin:ident => $does:expr) => {
        match $some {
            MaybeEvery::Plain($plugin) => $does,
            MaybeEvery::Every($plugin) => $does,
        }
    };
}

impl<P: Plugin + Drop> Plugin for MaybeEvery<P> {
    ghost use Rattle.plug_every.specs.EveryStands.{StandsMaybe, opens_maybe, preallocated_of_maybe, rule_of_maybe, silent_of_maybe};

    ghost rule = { rule_of_maybe P.rule };

    ghost stands_for = { StandsMaybe P.rule P.stands_for };

    ghost preallocated = { preallocated_of_maybe P.preallocated };

    ghost silent = { silent_of_maybe P.silent };

    #[inline]
    fn step(&mut self, at: u64, packet: &mut Packet, labels: &mut Labels) -> Outcome {
        either!(self, plugin => plugin.step(at, packet, labels))
    }

    fn pass_over(&mut self, at: u64) {
        either!(self, plugin => plugin.pass_over(at))
    }

    fn steps(
        &mut self,
        at: u64,
        packets: &mut [Packet],
        marks: &mut [Mark],
        noted: &mut bool,
    ) -> Applied {
        either!(self, plugin => plugin.steps(at, packets, marks, noted))
    }

    fn note(&mut self, written: u64, lines: &mut Vec<Line>) -> Result<(), AllocError> {
        either!(self, plugin => plugin.note(written, lines))
    }

    fn summary(&self, at: u64, lines: &mut Vec<Line>) -> Result<(), AllocError> {
        either!(self, plugin => plugin.summary(at, lines))
    }

    fn agreed(&self) -> bool {
        either!(self, plugin => plugin.agreed())
    }

    fn has_fault(&self, cut: u64) -> bool {
        either!(self, plugin => plugin.has_fault(cut))
    }

    ghost starts_open = { opens_maybe P.rule P.stands_for P.starts_open };
}
