//! The close of a ring.

ghost use Rattle.std.specs.Prelude.{◌≡◌, ◌+◌, ◌≤◌, ◌<◌, ℕ, suc, List, [], length, slice_index_or};
ghost use Rattle.chain_core.specs.Machine.{Visit, progress_of_stages};
ghost use Rattle.chain_core.specs.ChainRun.{ChainRun, state_after};
ghost use Rattle.chain_core.specs.Close.{closed_of};
ghost use Rattle.window_ring.specs.declared.view.Holding.{Holding};
ghost use Rattle.window_ring.specs.declared.stage_seat.StageSeat.{StageSeat};
ghost use Rattle.window_ring.specs.Views.{root_view};
ghost use Rattle.window_ring.specs.Seats.{key_of, table_of};
ghost use Rattle.window_ring.specs.Closing.{CoversAll, Opened, Covering, Gathered, IsWhole, ClosedOf};

use crate::hand::Hand;
use crate::ring::Ring;
use crate::stage_seat::StageSeat;
use crate::state::State;
use crate::view::View;
use atomic_table::Seat;
use chain_core::{Closed, news_promises, one_visit};

/// What is left when all hands are joined.
pub(crate) struct Left {
    pub(crate) links: Vec<Hand>,
    pub(crate) all: Hand,
    pub(crate) closed: Closed,
}

impl Ring {
    // The value, once all seats are in the root.
    fn value(self, root: Seat<State, View>) -> State
        requires of_table { root.table_id ≡ table_of self }
        requires slots { (table_of self).slots ≡ 1 }
        ensures { (made : ℕ) (held : List Holding) → root.me ≡ (root_view (key_of self) made held, [])
            → CoversAll (key_of self) held → Opened (key_of self) held result }
    {
        let Ring { table, bells: _ } = self;
        let mut closed = table.close_with(root);
        let value = closed.take(0);
        closed.free();
        value
    }

    // Joins the seats of the first stages into the root, and their hands with the cells after them.
    fn gather(self, mut root: Seat<State, View>, mut seats: Vec<StageSeat>) -> Left
        requires of_table { root.table_id ≡ table_of self }
        requires words { 0 < (table_of self).words }
        requires slots { (table_of self).slots ≡ 1 }
        requires covering { (made : ℕ) × (held : List Holding)
            × (root.me ≡ (root_view (key_of self) made held, []))
            × Covering (key_of self) (table_of self) held seats.items }
        ensures { (made : ℕ) (held : List Holding) → root.me ≡ (root_view (key_of self) made held, [])
            → Covering (key_of self) (table_of self) held seats.items
            → Gathered (key_of self) held seats.items result }
    {
        one_visit();
        news_promises();
        let Some(last) = seats.pop() else {
            seats.destroy_empty();
            let value = self.value(root);
            let State {
                core,
                mut links,
                last: _,
            } = value;
            let closed = core.close();
            let all = links.remove(0);
            return Left { links, all, closed };
        };
        let StageSeat {
            seat,
            stage: _,
            hand,
        } = last;
        self.take_back(&mut root, seat);
        let Left {
            mut links,
            all,
            closed,
        } = self.gather(root, seats);
        let all = links.remove(0).with(hand.with(all));
        Left { links, all, closed }
    }

    /// All stages have ended: the ring is dropped, and its memory is freed. The cut and its cause are the
    /// machine's.
    pub fn close(self, mut root: Seat<State, View>, mut seats: Vec<StageSeat>) -> Closed
        requires of_table { root.table_id ≡ table_of self }
        requires words { 0 < (table_of self).words }
        requires slots { (table_of self).slots ≡ 1 }
        requires root { (made : ℕ) × (root.me ≡ (root_view (key_of self) made [], [])) }
        requires whole { IsWhole (key_of self) (table_of self) seats.items }
        ensures { ClosedOf (key_of self) seats.items result }
    {
        one_visit();
        news_promises();
        let Some(last) = seats.pop() else {
            seats.destroy_empty();
            unreachable!();
        };
        let StageSeat {
            seat,
            stage: _,
            hand,
        } = last;
        self.take_back(&mut root, seat);
        let Left { links, all, closed } = self.gather(root, seats);
        links.destroy_empty();
        hand.with(all).close();
        closed
    }
}
