//! A chain that runs in one thread: its stages take turns.
//!
//! A turn has two visits: the first gives nothing and brings the news, the second gives on what was done with them. One
//! visit a turn would do with the news of the turn before; two leave nothing unsaid between turns, which makes the
//! run's proof short, and cost nothing where a batch has many packets.
ghost use Rattle.std.specs.Prelude.{◌≡◌, ◌<◌, ◌||◌};
ghost use Rattle.chain_core.specs.Numbers.{MayVisit};
ghost use Rattle.chain_core.specs.CoreNumbers.{progress_of_core};
ghost use Rattle.chain_run.specs.Runs.{nothing_told};
ghost use Rattle.chain_run.specs.Working.{Looks};

use crate::cell_block::{CellBlock, Lifted};
use crate::laws::machine_laws;
use chain_core::{Core, News, StageWord};
use plugin_trait::Plugin;
use stage_run::{StagePart, Work};
use ts_outside::{Gate, Sink, Source};

/// The word of a stage that reports nothing.
const NOTHING: StageWord = StageWord {
    agreed: None,
    ended: None,
};

/// The next place in a row of so many; after the last one comes the first.
fn after(place: usize, len: usize) -> usize
    requires { place < len }
    ensures { result < len }
{
    if place + 1 < len { place + 1 } else { 0 }
}

/// Whether one of the two holds.
fn one_holds(one: bool, other: bool) -> bool
    ensures { result ≡ (one || other) }
{
    one || other
}

/// A visit of a stage that gives and reports nothing: it takes of the cells that wait. Returns its news.
fn look(core: &mut Core, stage: usize) -> News
    requires { MayVisit core.old.plan (progress_of_core core.old) core.old.told stage 0 nothing_told }
    ensures { Looks core.old core.new stage result }
{
    core.visit(stage, 0, NOTHING)
}

/// A chain that runs in one thread: its numbers, its stages, and the cells between them.
pub struct SerialChain<S, K, P> {
    pub core: Core,
    /// The input, the plugins and the output, in this order.
    pub parts: Vec<StagePart<S, K, P>>,
    /// The buffer: the cell at a position is in the slot of that number modulo the number of slots.
    pub cells: CellBlock,
}

impl<S: Source, K: Sink, P: Plugin> SerialChain<S, K, P> {
    ghost use Rattle.std.specs.Prelude.{◌≡◌, ◌<◌, ◌≤◌, ℕ, suc, length, true, false, is_some, slice_index_or};
    ghost use Rattle.std.specs.List.{All};
    ghost use Rattle.chain_model.specs.declared.positions.TheConstants.{POSITION_LIMIT};
    ghost use Rattle.chain_core.specs.CoreNumbers.{progress_of_core};
    ghost use Rattle.chain_core.specs.ChainRun.{AllEnded};
    ghost use Rattle.stage_run.specs.Seeing.{seeing};
    ghost use Rattle.stage_run.specs.declared.stage_part.StagePart.{StagePart};
    ghost use Rattle.stage_run.specs.PartStands.{PartStands, MayWorkOnSome};
    ghost use Rattle.chain_run.specs.SerialRuns.{IsIdleOrOver};
    ghost use Rattle.chain_run.specs.Working.{RunsSomehow, RunsOn, WorksOn, LeavesLess};

    /// Whether a stage has ended.
    fn has_ended(&self, stage: usize) -> bool
        requires { stage ≤ suc self.now.core.plan.plugins }
        ensures { result ≡ is_some (progress_of_core self.now.core stage).ended }
    {
        self.core.progress(stage).ended.is_some()
    }

    /// Lets a stage work on the cells in its hands that are in one row of the buffer, on at most `most` of them.
    fn work<G: Gate>(&mut self, stage: usize, most: usize, news: &News, gate: &G) -> Work
        requires is_stage { stage ≤ suc self.old.core.plan.plugins }
        requires has_part { stage < length self.old.parts.items }
        requires slots { 0 < length self.old.cells.items }
        requires some { 1 ≤ most }
        requires written { news.now.written ≤ (progress_of_core self.old.core stage).given }
        requires given { (progress_of_core self.old.core stage).given ≤ news.now.taken }
        requires taken { news.now.taken ≤ POSITION_LIMIT }
        requires stands { (d : StagePart S K P) → let part = slice_index_or self.old.parts.items stage d in
            MayWorkOnSome (PartStands (seeing S.seen K.seen P.rule P.stands_for P.preallocated) part)
            (progress_of_core self.old.core stage).given news.now.written }
        ensures core { self.new.core ≡ self.old.core }
        ensures works { WorksOn (seeing S.seen K.seen P.rule P.stands_for P.preallocated)
            self.old self.new stage news.now result }
    {
        let at = self.core.progress(stage).given;
        let slots = self.cells.len();
        let start = (at % slots as u64) as usize;
        let len = ((news.taken - at) as usize).min(most).min(slots - start);
        let Lifted {
            before,
            window,
            behind,
        } = self.cells.lift(start, len);
        let (work, window) = self.parts[stage].work(stage, at, window, news, gate);
        self.cells.put_back(before, window, behind);
        work
    }

    /// The turn of a stage: it takes of the cells that wait, works, and gives on what it has done. Returns whether anything moved.
    fn turn<G: Gate>(&mut self, stage: usize, most: usize, gate: &G) -> bool
        requires runs { RunsSomehow (seeing S.seen K.seen P.rule P.stands_for P.preallocated) self.old }
        requires is_stage { stage ≤ suc self.old.core.plan.plugins }
        requires some { 1 ≤ most }
        ensures runs { RunsOn (seeing S.seen K.seen P.rule P.stands_for P.preallocated) self.old self.new }
        ensures moved { result ≡ true → LeavesLess self.old self.new }
        ensures rests { result ≡ false → progress_of_core self.new.core ≡ progress_of_core self.old.core }
        ensures idle { result ≡ false
            → IsIdleOrOver self.old.core.plan (progress_of_core self.new.core) stage }
        ensures plan { self.new.core.plan ≡ self.old.core.plan }
        ensures parts { length self.new.parts.items ≡ length self.old.parts.items }
    {
        if self.has_ended(stage) {
            return false;
        }
        // It runs nothing: the proof cites it.
        machine_laws();
        let news = look(&mut self.core, stage);
        let work = self.work(stage, most, &news, gate);
        self.core.visit(stage, work.done, work.word);
        work.done > 0 || work.word.ended.is_some()
    }

    /// A round: each stage takes a turn, in the order of the stages. Returns whether anything moved; where nothing did, all
    /// stages have ended.
    ///
    /// A turn works on at most as many cells as `sizes` has at `next`, which then goes on to the next place, after the last
    /// one to the first. With each round that moves anything less is left to do.
    pub fn round<G: Gate>(&mut self, sizes: &[u32], next: &mut usize, gate: &G) -> bool
        requires runs { RunsSomehow (seeing S.seen K.seen P.rule P.stands_for P.preallocated) self.old }
        requires sizes { All (λ size. 1 ≤ size) sizes.now }
        requires next { next.old < length sizes.now }
        ensures runs { RunsOn (seeing S.seen K.seen P.rule P.stands_for P.preallocated) self.old self.new }
        ensures moved { result ≡ true → LeavesLess self.old self.new }
        ensures over { result ≡ false → AllEnded self.new.core.plan (progress_of_core self.new.core) }
        ensures plan { self.new.core.plan ≡ self.old.core.plan }
        ensures next { next.new < length sizes.now }
    {
        // It runs nothing: the proof cites it.
        machine_laws();
        let mut moved = false;
        for stage in 0..self.parts.len() {
            let most = sizes[*next];
            *next = after(*next, sizes.len());
            let turned = self.turn(stage, most as usize, gate);
            moved = one_holds(turned, moved);
        }
        moved
    }

    /// Lets the stages take their turns until all of them have ended.
    pub(crate) fn run<G: Gate>(&mut self, sizes: &[u32], gate: &G)
        requires runs { RunsSomehow (seeing S.seen K.seen P.rule P.stands_for P.preallocated) self.old }
        requires sizes { All (λ size. 1 ≤ size) sizes.now }
        requires some { 0 < length sizes.now }
        ensures runs { RunsOn (seeing S.seen K.seen P.rule P.stands_for P.preallocated) self.old self.new }
        ensures over { AllEnded self.new.core.plan (progress_of_core self.new.core) }
    {
        let mut next = 0;
        while self.round(sizes, &mut next, gate) {}
    }
}
