//! A stage with its seat and with what it knows as written, and its turns.
ghost use Rattle.std.specs.Prelude.{◌≡◌, ◌+◌, ◌≤◌, ◌==◌, length};
ghost use Rattle.chain_model.specs.declared.positions.TheConstants.{POSITION_LIMIT};
ghost use Rattle.stage_run.specs.Seeing.{seeing};
ghost use Rattle.stage_run.specs.PartStands.{PartStands, MayWorkOnSome};
ghost use Rattle.chain_threads.specs.Turning.{HandWorks};

use crate::laws::run_laws;
use chain_core::{News, StageWord};
use chain_threads::Turn;
use plugin_trait::{Line, Plugin};
use stage_run::{StagePart, Work};
use std::alloc::{AllocError, Global};
use ts_outside::{Gate, Sink, Source};
use window_ring::{Ring, StageSeat, Visited};

/// A stage of a chain with its seat in the ring.
///
/// It may go to another thread. Its next visit gives the first `done` of the cells in hand, and reports the word.
pub(crate) struct LiveStage<S, K, P> {
    pub(crate) seat: StageSeat,
    pub(crate) part: StagePart<S, K, P>,
    pub(crate) done: usize,
    pub(crate) word: StageWord,
    /// Whether its end was reported.
    pub(crate) over: bool,
    /// How many cells were written, as its last visit told.
    pub(crate) written: u64,
}

/// What a part did with the cells in hand, and whether there were none.
struct HandWork {
    work: Work,
    empty: bool,
}

/// A part works in place on the cells in the seat's hands, up to the end of the block.
fn work_in_hand<S: Source, K: Sink, P: Plugin, G: Gate>(
    seat: &mut StageSeat,
    part: &mut StagePart<S, K, P>,
    news: &News,
    gate: &G,
) -> HandWork
    requires stands { MayWorkOnSome (PartStands (seeing S.seen K.seen P.rule P.stands_for P.preallocated)
        part.old) seat.old.hand.at news.now.written }
    requires written { news.now.written ≤ seat.old.hand.at }
    requires in_hand { seat.old.hand.at + length seat.old.hand.cells ≤ news.now.taken }
    requires in_range { news.now.taken ≤ POSITION_LIMIT }
    requires fits { length seat.old.hand.cells ≤ seat.old.hand.land.count }
    ensures works { HandWorks (seeing S.seen K.seen P.rule P.stands_for P.preallocated) part.old part.new
        seat.old.hand seat.new.hand news.now result.work }
    ensures seat { seat.new.seat ≡ seat.old.seat }
    ensures stage { seat.new.stage ≡ seat.old.stage }
{
    let stage = seat.stage();
    let at = seat.position();
    match seat.lift_front() {
        None => HandWork {
            work: part.work_on_none(at, news),
            empty: true,
        },
        Some(window) => {
            let (work, window) = part.work(stage, at, window, news, gate);
            seat.put_front(window);
            HandWork { work, empty: false }
        }
    }
}

/// The result of a turn whose stage goes on: it is idle where its visit gave nothing, its hand is empty, and it has no end to report.
///
/// A visit that gave cells is news for the plugins' stages, which learn by it what is written, also where no cell is left in hand.
fn turn_of(gave: usize, empty: bool, word: &StageWord) -> Turn {
    if gave == 0 && empty && word.ended.is_none() {
        return Turn::Idle;
    }
    Turn::Worked
}

impl<S, K, P> LiveStage<S, K, P> {
    ghost use Rattle.std.specs.Prelude.{◌≡◌};

    /// Returns the part and the seat.
    pub(crate) fn into_parts(self) -> (StagePart<S, K, P>, StageSeat)
        ensures part { result.0 ≡ self.part }
        ensures seat { result.1 ≡ self.seat }
    {
        let LiveStage {
            seat,
            part,
            done: _,
            word: _,
            over: _,
            written: _,
        } = self;
        (part, seat)
    }
}

impl<S: Source, K: Sink, P: Plugin> LiveStage<S, K, P> {
    ghost use Rattle.std.specs.Prelude.{◌≡◌, ℕ, false, IfOk};
    ghost use Rattle.cell_land.specs.declared.cell_window.Bases.{Bases};
    ghost use Rattle.atomic_table.specs.Seated.{TableId};
    ghost use Rattle.stage_run.specs.Seeing.{seeing};
    ghost use Rattle.chain_run.specs.Runs.{RunStart};
    ghost use Rattle.chain_threads.specs.Turning.{IsNewStage};
    ghost use Rattle.chain_live_threads.specs.RowStages.{new_stage};
    ghost use Rattle.chain_live_threads.specs.Serving.{Serves, IsReady, Keeps};
    ghost use Rattle.chain_live_threads.specs.Marking.{IsSameBesidesPart, IsPluginAt, IsMarked, GaveLines, ServesTaken, MayMark, MayTake};

    /// The part and the seat of one stage, of which nothing was done.
    pub(crate) fn of(part: StagePart<S, K, P>, seat: StageSeat) -> Self
        ensures new { result ≡ new_stage part seat }
        ensures serves { (begun : RunStart S K) (base : Bases) (table : TableId)
            → let see = seeing S.seen K.seen P.rule P.stands_for P.preallocated in
            IsNewStage see begun base table part seat → Serves see begun base table result }
    {
        // It runs nothing: the proof cites it.
        run_laws::<S, K, P>();
        LiveStage {
            seat,
            part,
            done: 0,
            word: StageWord {
                agreed: None,
                ended: None,
            },
            over: false,
            written: 0,
        }
    }

    /// One visit, which reports the work before it, and then work on the cells in hand.
    ///
    /// The stage has not ended. Nothing is allocated but what a plugin takes.
    fn turn<G: Gate>(&mut self, ring: &Ring, gate: &G) -> Turn
        requires ready { IsReady (seeing S.seen K.seen P.rule P.stands_for P.preallocated) ring.now self.old }
        requires goes_on { self.old.over ≡ false }
        ensures keeps { Keeps (seeing S.seen K.seen P.rule P.stands_for P.preallocated) ring.now self.old self.new }
    {
        // It runs nothing: the proof cites it.
        run_laws::<S, K, P>();
        let gave = self.done;
        match ring.visit(&mut self.seat, gave, self.word) {
            Visited::Busy { holder: _ } => Turn::Busy,
            Visited::Given(news) => {
                self.written = news.written;
                if self.word.ended.is_some() {
                    self.over = true;
                    return Turn::Ended;
                }
                let HandWork { work, empty } = work_in_hand(
                    &mut self.seat,
                    &mut self.part,
                    &news,
                    gate,
                );
                self.done = work.done;
                self.word = work.word;
                turn_of(gave, empty, &work.word)
            }
        }
    }

    /// A turn, unless the stage has ended: then it returns `Ended`, and nothing is done.
    pub(crate) fn step<G: Gate>(&mut self, ring: &Ring, gate: &G) -> Turn
        requires ready { IsReady (seeing S.seen K.seen P.rule P.stands_for P.preallocated) ring.now self.old }
        ensures keeps { Keeps (seeing S.seen K.seen P.rule P.stands_for P.preallocated) ring.now self.old self.new }
    {
        if self.over {
            return Turn::Ended;
        }
        self.turn(ring, gate)
    }

    /// A turn, and where it worked another one, which gives on what was worked on: the stage after it finds it at its next
    /// turn. Returns `Ended` where the stage ended, else the result of the first one: who called it after work goes round once
    /// more before it rests, so that what was written then is told without further packets.
    #[tactic(auto, using(crate::proofs::Carries::kept_then, crate::proofs::Carries::one_still_ready))]
    pub(crate) fn serve<G: Gate>(&mut self, ring: &Ring, gate: &G) -> Turn
        requires ready { IsReady (seeing S.seen K.seen P.rule P.stands_for P.preallocated) ring.now self.old }
        ensures keeps { Keeps (seeing S.seen K.seen P.rule P.stands_for P.preallocated) ring.now self.old self.new }
    {
        match self.step(ring, gate) {
            Turn::Worked => match self.step(ring, gate) {
                Turn::Ended => Turn::Ended,
                Turn::Worked | Turn::Idle | Turn::Busy => Turn::Worked,
            },
            turn => turn,
        }
    }

    /// Gives a plugin's stage what it knows as written as its mark. It keeps its lines.
    pub(crate) fn mark(&mut self) -> Result<(), AllocError>
        requires plugin { MayMark (seeing S.seen K.seen P.rule P.stands_for P.preallocated) self.old }
        ensures same { IsSameBesidesPart self.old self.new }
        ensures serves { (begun : RunStart S K) (base : Bases) (table : TableId) (j : ℕ)
            → let see = seeing S.seen K.seen P.rule P.stands_for P.preallocated in
            IsPluginAt see begun base table j self.old → Serves see begun base table self.old
            → Serves see begun base table self.new }
        ensures marked { (begun : RunStart S K) (base : Bases) (table : TableId) (j : ℕ)
            → let see = seeing S.seen K.seen P.rule P.stands_for P.preallocated in
            IsPluginAt see begun base table j self.old → Serves see begun base table self.old
            → IfOk result (λ _. IsMarked see begun base table self.new) }
    {
        // It runs nothing: the proof cites it.
        run_laws::<S, K, P>();
        self.part.note(self.written)
    }

    /// Takes away the lines of a plugin's stage, up to its mark.
    pub(crate) fn take_lines(&mut self, alloc: Global) -> Vec<Line>
        requires plugin { MayTake (seeing S.seen K.seen P.rule P.stands_for P.preallocated) self.old }
        ensures same { IsSameBesidesPart self.old self.new }
        ensures gave { (begun : RunStart S K) (base : Bases) (table : TableId) (j : ℕ)
            → let see = seeing S.seen K.seen P.rule P.stands_for P.preallocated in
            IsPluginAt see begun base table j self.old → IsMarked see begun base table self.old
            → GaveLines see begun base table j self.new result.items × ServesTaken see begun base table j self.new }
    {
        // It runs nothing: the proof cites it.
        run_laws::<S, K, P>();
        self.part.take_lines(alloc)
    }
}
