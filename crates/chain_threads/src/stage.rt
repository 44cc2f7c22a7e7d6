//! A stage with its seat, and its turns.

ghost use Rattle.std.specs.Prelude.{◌≡◌, ◌+◌, ◌≤◌, ◌==◌, length};
ghost use Rattle.chain_model.specs.declared.positions.TheConstants.{POSITION_LIMIT};
ghost use Rattle.stage_run.specs.Seeing.{seeing};
ghost use Rattle.stage_run.specs.PartStands.{PartStands, MayWorkOnSome};
ghost use Rattle.chain_threads.specs.Turning.{HandWorks};

use crate::Turn;
use crate::laws::run_laws;
use chain_core::{News, StageWord};
use plugin_trait::Plugin;
use stage_run::{StagePart, Work};
use ts_outside::{Gate, Sink, Source};
use window_ring::{Ring, StageSeat, Visited};

/// A stage of a chain with its seat in the ring.
///
/// It may go to another thread. Its next visit gives the first `done` of the cells in hand, and reports the word.
pub struct Stage<S, K, P> {
    pub(crate) seat: StageSeat,
    pub(crate) part: StagePart<S, K, P>,
    pub(crate) done: usize,
    pub(crate) word: StageWord,
    pub(crate) over: bool,
}

/// What a part did with the cells in hand, and whether there were none.
struct HandWork {
    work: Work,
    empty: bool,
}

/// A part works in place on the cells in the seat's hands, up to the end of the block.
fn work_in_hand<S: Source, K: Sink, P: Plugin, G: Gate>(
    seat: &mut StageSeat,
    part: &mut StagePart<S, K, P>,
    news: &News,
    gate: &G,
) -> HandWork
    requires stands { MayWorkOnSome (PartStands (seeing S.seen K.seen P.rule P.stands_for P.preallocated)
        part.old) seat.old.hand.at news.now.written }
    requires written { news.now.written ≤ seat.old.hand.at }
    requires in_hand { seat.old.hand.at + length seat.old.hand.cells ≤ news.now.taken }
    requires in_range { news.now.taken ≤ POSITION_LIMIT }
    requires fits { length seat.old.hand.cells ≤ seat.old.hand.land.count }
    ensures works { HandWorks (seeing S.seen K.seen P.rule P.stands_for P.preallocated) part.old part.new
        seat.old.hand seat.new.hand news.now result.work }
    ensures empty { result.empty ≡ (length seat.new.hand.cells == 0) }
    ensures seat { seat.new.seat ≡ seat.old.seat }
    ensures stage { seat.new.stage ≡ seat.old.stage }
{
    let stage = seat.stage();
    let at = seat.position();
    match seat.lift_front() {
        None => HandWork {
            work: part.work_on_none(at, news),
            empty: true,
        },
        Some(window) => {
            let (work, window) = part.work(stage, at, window, news, gate);
            seat.put_front(window);
            HandWork { work, empty: false }
        }
    }
}

impl<S, K, P> Stage<S, K, P> {
    ghost use Rattle.std.specs.Prelude.{◌≡◌};

    /// Returns the part and the seat.
    pub fn into_parts(self) -> (StagePart<S, K, P>, StageSeat)
        ensures part { result.0 ≡ self.part }
        ensures seat { result.1 ≡ self.seat }
    {
        let Stage {
            seat,
            part,
            done: _,
            word: _,
            over: _,
        } = self;
        (part, seat)
    }
}

impl<S: Source, K: Sink, P: Plugin> Stage<S, K, P> {
    ghost use Rattle.std.specs.Prelude.{◌≡◌, false};
    ghost use Rattle.cell_land.specs.declared.cell_window.Bases.{Bases};
    ghost use Rattle.atomic_table.specs.Seated.{TableId};
    ghost use Rattle.stage_run.specs.Seeing.{seeing};
    ghost use Rattle.chain_run.specs.Runs.{RunStart, nothing_told};
    ghost use Rattle.window_ring.specs.Seats.{key_of, table_of};
    ghost use Rattle.chain_threads.specs.Standing.{key_at};
    ghost use Rattle.chain_threads.specs.Turning.{IsNewStage, Stands, Behind};
    ghost use Rattle.chain_threads.specs.Driving.{IsReady, Keeps, is_ended};

    /// The part and the seat of one stage, of which nothing was done.
    pub fn of(part: StagePart<S, K, P>, seat: StageSeat) -> Self
        ensures part { result.part ≡ part }
        ensures seat { result.seat ≡ seat }
        ensures done { result.done ≡ 0 }
        ensures word { result.word ≡ nothing_told }
        ensures over { result.over ≡ false }
        ensures stands { (begun : RunStart S K) (base : Bases) (table : TableId)
            → let see = seeing S.seen K.seen P.rule P.stands_for P.preallocated in
            IsNewStage see begun base table part seat → Stands see begun base table result }
    {
        // It runs nothing: the proof cites it.
        run_laws::<S, K, P>();
        Stage {
            seat,
            part,
            done: 0,
            word: StageWord {
                agreed: None,
                ended: None,
            },
            over: false,
        }
    }

    /// One visit, which reports the work before it, and then work on the cells in hand.
    ///
    /// The stage has not ended. Nothing is allocated but what a plugin takes.
    pub fn turn<G: Gate>(&mut self, ring: &Ring, gate: &G) -> Turn
        requires { (begun : RunStart S K) × (base : Bases) × (key_of ring.now ≡ key_at begun base)
            × Stands (seeing S.seen K.seen P.rule P.stands_for P.preallocated) begun base (table_of ring.now) self.old }
        ensures behind { (begun : RunStart S K) (base : Bases) → key_of ring.now ≡ key_at begun base
            → let see = seeing S.seen K.seen P.rule P.stands_for P.preallocated in
            Stands see begun base (table_of ring.now) self.old
            → Behind see begun base (table_of ring.now) result self.old self.new }
        ensures over { self.new.over ≡ self.old.over }
        ensures stage { self.new.seat.stage ≡ self.old.seat.stage }
    {
        // It runs nothing: the proof cites it.
        run_laws::<S, K, P>();
        match ring.visit(&mut self.seat, self.done, self.word) {
            Visited::Busy { holder: _ } => Turn::Busy,
            Visited::Given(news) => {
                if self.word.ended.is_some() {
                    return Turn::Ended;
                }
                let HandWork { work, empty } = work_in_hand(
                    &mut self.seat,
                    &mut self.part,
                    &news,
                    gate,
                );
                self.done = work.done;
                self.word = work.word;
                Turn::of(empty, &work.word)
            }
        }
    }

    /// A turn, unless the stage has ended: then it returns `Ended`, and nothing is done.
    pub(crate) fn step<G: Gate>(&mut self, ring: &Ring, gate: &G) -> Turn
        requires { IsReady (seeing S.seen K.seen P.rule P.stands_for P.preallocated) ring.now self.old }
        ensures keeps { Keeps (seeing S.seen K.seen P.rule P.stands_for P.preallocated) ring.now self.old self.new }
        ensures over { self.new.over ≡ is_ended result }
    {
        if self.over {
            return Turn::Ended;
        }
        let turn = self.turn(ring, gate);
        self.over = turn.ends();
        turn
    }

    /// A turn, and where it worked another one, which gives on what was worked on: the stage after it finds it at its next
    /// turn. Returns the result of the last one.
    #[tactic(auto, using(crate::proofs::Carries::kept_then))]
    pub(crate) fn serve<G: Gate>(&mut self, ring: &Ring, gate: &G) -> Turn
        requires { IsReady (seeing S.seen K.seen P.rule P.stands_for P.preallocated) ring.now self.old }
        ensures keeps { Keeps (seeing S.seen K.seen P.rule P.stands_for P.preallocated) ring.now self.old self.new }
        ensures over { self.new.over ≡ is_ended result }
    {
        match self.step(ring, gate) {
            Turn::Worked => self.step(ring, gate),
            turn => turn,
        }
    }
}
