//! A round: each stage of a row is served once.
ghost use Rattle.std.specs.Prelude.{◌≡◌, ◌&&◌, false, length};
ghost use Rattle.stage_run.specs.Seeing.{seeing};
ghost use Rattle.chain_live_threads.specs.Rows.{is_over, HaveEnded, AreReady, Carried};

use crate::live_stage::LiveStage;
use chain_threads::Turn;
use plugin_trait::Plugin;
use std::thread::yield_now;
use ts_outside::{Gate, Sink, Source};
use window_ring::Ring;

/// What came of a round.
#[derive(Clone, Copy)]
pub(crate) enum Round {
    /// All stages had ended before it.
    Over,
    /// Each stage that goes on made its visit, has no cell in hand, and no end to report.
    Idle,
    /// Another round may find something to do.
    Moved,
}

impl Round {
    /// Whether all stages have ended.
    pub(crate) fn is_over(&self) -> bool
        ensures { result ≡ is_over self.now }
    {
        matches!(self, Round::Over)
    }
}

/// What came of two rounds, as one.
fn joined(first: Round, rest: Round) -> Round
    ensures { is_over result ≡ (is_over first && is_over rest) }
{
    match (first, rest) {
        (Round::Over, rest) => rest,
        (first, Round::Over) => first,
        (Round::Idle, Round::Idle) => Round::Idle,
        _ => Round::Moved,
    }
}

/// What came of a turn of one stage that had not ended. What may be news for a stage before it counts as moved: so does its end.
fn round_of(turn: Turn) -> Round
    ensures { is_over result ≡ false }
{
    match turn {
        Turn::Idle => Round::Idle,
        Turn::Busy => {
            yield_now();
            Round::Moved
        }
        Turn::Worked | Turn::Ended => Round::Moved,
    }
}

/// Serves the only stage of a row, unless it has ended.
pub(crate) fn serve_one<S: Source, K: Sink, P: Plugin, G: Gate>(
    ring: &Ring,
    gate: &G,
    stages: &mut [LiveStage<S, K, P>],
) -> Round
    requires one { length stages.old ≡ 1 }
    requires ready { AreReady (seeing S.seen K.seen P.rule P.stands_for P.preallocated) ring.now stages.old }
    ensures carried { Carried (seeing S.seen K.seen P.rule P.stands_for P.preallocated) ring.now stages.old stages.new }
    ensures ended { HaveEnded (is_over result) stages.new }
{
    if stages[0].over {
        return Round::Over;
    }
    round_of(stages[0].serve(ring, gate))
}

/// Serves each stage of the row that has not ended, in order.
#[tactic(auto, using(crate::proofs::Carries::both, crate::proofs::Carries::same, crate::proofs::Carries::over_joined))]
pub(crate) fn serve_row<S: Source, K: Sink, P: Plugin, G: Gate>(
    ring: &Ring,
    gate: &G,
    stages: &mut [LiveStage<S, K, P>],
) -> Round
    requires ready { AreReady (seeing S.seen K.seen P.rule P.stands_for P.preallocated) ring.now stages.old }
    ensures carried { Carried (seeing S.seen K.seen P.rule P.stands_for P.preallocated) ring.now stages.old stages.new }
    ensures ended { HaveEnded (is_over result) stages.new }
{
    if stages.len() == 0 {
        return Round::Over;
    }
    let (first, rest) = stages.split_at_mut(1);
    let one = serve_one(ring, gate, first);
    joined(one, serve_row(ring, gate, rest))
}
