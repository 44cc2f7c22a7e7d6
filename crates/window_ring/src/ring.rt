//! The ring that all stages share, and one visit of it.

ghost use Rattle.std.specs.Prelude.{◌≡◌, ◌+◌, [], ◌∷◌, length};
ghost use Rattle.window_ring.specs.Seats.{key_of, table_of, IsAt, HasVisited};

use crate::bell::Bell;
use crate::rule::{Leaving, RingRule, Taking};
use crate::stage_seat::StageSeat;
use crate::state::State;
use crate::view::{Key, View};
use crate::visited::Visited;
use atomic_table::Table;
use chain_core::{News, StageWord, one_visit};
use std::alloc::Global;
use std::sync::Wait;

/// The ring, which the threads of all stages share.
pub struct Ring {
    pub(crate) table: Table<State, View, Key, RingRule, Global>,
    // One for each stage.
    pub(crate) bells: Vec<Bell>,
}

impl Ring {
    /// One visit of the seat's stage: it gives on the first `done` of the cells in its hands, reports the
    /// word, takes of the cells that wait for it, and receives the news. Where another stage has the turn,
    /// nothing changes.
    ///
    /// It makes one compare, and neither waits nor allocates.
    pub fn visit(&self, seat: &mut StageSeat, done: usize, word: StageWord) -> Visited
        requires { IsAt (key_of self.now) (table_of self.now) seat.old done word }
        ensures visited { HasVisited (key_of self.now) seat.old seat.new done word result }
        ensures same_stage { seat.new.stage ≡ seat.old.stage }
        ensures of_table { seat.new.seat.table_id ≡ seat.old.seat.table_id }
    {
        one_visit();
        let found = self
            .table
            .shared
            .compare_exchange::<Taking>(&mut seat.seat, 0, 0, seat.stage as u64 + 1);
        if found != 0 {
            return Visited::Busy {
                holder: (found - 1) as usize,
            };
        }
        let news = seat
            .seat
            .slot_mut(&self.table.shared, 0)
            .visit(&mut seat.hand, seat.stage, done, word);
        self.table.shared.store::<Leaving>(&mut seat.seat, 0, 0);
        self.call(seat.stage, done, word, &news);
        Visited::Given(news)
    }

    /// Waits until there may be news for this stage since so many rings were counted, or returns at once. It changes
    /// no list.
    ///
    /// Nothing is missed where the rings were counted before the stage made its visit. What may be news for a stage, as
    /// cells, free slots, an end of a neighbour or the limit, the visit of another stage makes within its turn, and it rings
    /// after that turn. So either the stage's own visit came later and found the news, or the ring comes after the
    /// count, and this returns.
    pub fn wait_news<R: Wait>(&self, rt: &R, stage: usize, heard: u64) {
        if let Some(bell) = self.bells.get(stage) {
            bell.wait(rt, heard);
        }
    }

    /// How often the bell of a stage rang.
    pub fn heard(&self, stage: usize) -> u64 {
        match self.bells.get(stage) {
            Some(bell) => bell.heard(),
            None => 0,
        }
    }

    // Rings for those to whom a visit may be news: the next stage for cells, the input for free slots, both
    // neighbours for an end, and all where an agreement may have made the limit known.
    fn call(&self, stage: usize, done: usize, word: StageWord, news: &News) {
        if word.agreed.is_some() && news.limit.is_some() {
            for bell in &self.bells {
                bell.ring();
            }
            return;
        }
        let ended = word.ended.is_some();
        if done > 0 || ended {
            self.ring_at(self.next_of(stage));
        }
        if ended && stage > 0 {
            self.ring_at(stage - 1);
        }
    }

    // The stage after this one; after the last one comes the input, which takes the free slots.
    fn next_of(&self, stage: usize) -> usize {
        let next = stage.saturating_add(1);
        if next < self.bells.len() { next } else { 0 }
    }

    fn ring_at(&self, stage: usize) {
        if let Some(bell) = self.bells.get(stage) {
            bell.ring();
        }
    }
}
