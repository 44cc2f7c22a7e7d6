//! The seats of a new ring, split from its root and joined into it again.
//!
//! The root is beside the ring: inside it, it would have to be reached through a shared reference.

ghost use Rattle.std.specs.Prelude.{IfOk, IfErr, ◌≡◌, ◌+◌, ◌<◌, ℕ, List, [], ◌∷◌};
ghost use Rattle.chain_core.specs.Machine.{Visit};
ghost use Rattle.window_ring.specs.declared.view.Holding.{Holding};
ghost use Rattle.window_ring.specs.declared.state.State.{State};
ghost use Rattle.window_ring.specs.Views.{at_rest, root_view, holding, first_view};
ghost use Rattle.window_ring.specs.Stands.{Stands};
ghost use Rattle.window_ring.specs.Seats.{key_of, table_of};

use crate::bell::Bell;
use crate::ring::Ring;
use crate::rule::{Returning, Seating};
use crate::state::State;
use crate::view::{Key, View};
use atomic_table::{Refused, Seat, Table};
use std::alloc::Global;

impl Ring {
    /// A ring, whose value is in the one slot.
    pub(crate) fn open(
        alloc: Global,
        about: &Key,
        slots: Vec<State>,
        bells: Vec<Bell>,
    ) -> Result<(Ring, Seat<State, View>), Refused<State, Global>>
        requires { (value : State) × (slots.items ≡ value ∷ []) × Stands about.now value [] }
        ensures ok { IfOk result (λ t.
            (key_of t.0 ≡ about.now) × ((table_of t.0).words ≡ 1) × ((table_of t.0).slots ≡ 1)
            × (t.1.table_id ≡ table_of t.0) × (t.1.me ≡ (first_view about.now, []))) }
        ensures err { IfErr result (λ r. r.slots.items ≡ slots.items) }
    {
        let (table, seat) = Table::new(alloc, &[0], slots, about)?;
        Ok((Ring { table, bells }, seat))
    }

    /// The seat of the next stage.
    pub(crate) fn next_seat(&self, root: &mut Seat<State, View>) -> Seat<State, View>
        requires of_table { root.old.table_id ≡ table_of self.now }
        requires words { 0 < (table_of self.now).words }
        requires root { (made : ℕ) × (held : List Holding)
            × (root.old.me ≡ (root_view (key_of self.now) made held, [])) }
        ensures of_table { (root.new.table_id ≡ table_of self.now) × (result.table_id ≡ table_of self.now) }
        ensures seats { (made : ℕ) (held : List Holding)
            → root.old.me ≡ (root_view (key_of self.now) made held, [])
            → (root.new.me ≡ (root_view (key_of self.now) (made + 1) held, []))
            × (result.me ≡ (at_rest (key_of self.now) made [] [], [])) }
    {
        self.table.shared.split_seat::<Seating>(root)
    }

    /// Joins the seat of a stage into the root.
    pub(crate) fn take_back(&self, root: &mut Seat<State, View>, seat: Seat<State, View>)
        requires of_table { (root.old.table_id ≡ table_of self.now) × (seat.table_id ≡ table_of self.now) }
        requires words { 0 < (table_of self.now).words }
        requires root { (made : ℕ) × (held : List Holding)
            × (root.old.me ≡ (root_view (key_of self.now) made held, [])) }
        requires rests { (k : ℕ) × (seen : List Visit) × (busy : List ℕ)
            × (seat.me ≡ (at_rest (key_of self.now) k seen busy, [])) }
        ensures of_table { root.new.table_id ≡ table_of self.now }
        ensures joined { (made : ℕ) (held : List Holding) (k : ℕ) (seen : List Visit) (busy : List ℕ)
            → root.old.me ≡ (root_view (key_of self.now) made held, [])
            → seat.me ≡ (at_rest (key_of self.now) k seen busy, [])
            → root.new.me ≡ (root_view (key_of self.now) made (holding k seen ∷ held), []) }
    {
        self.table.shared.join_seat::<Returning>(root, seat)
    }
}
