//! The making of a ring: all its memory, its seats and its bells.

ghost use Rattle.std.specs.Prelude.{IfOk, ◌≡◌, ◌+◌, ◌≤◌, ◌<◌, ℕ, suc, List, [], ◌∷◌, ◌++◌, length, replicate, slice_index_or, vec_len, vec_capacity};
ghost use Rattle.chain_core.specs.CoreNumbers.{IsValidPlan};
ghost use Rattle.chain_core.specs.declared.core_plan.CorePlan.{CorePlan};
ghost use Rattle.window_ring.specs.declared.view.Key.{Key};
ghost use Rattle.cell_land.specs.Cells.{CellLand as Land};
ghost use Rattle.window_ring.specs.declared.stage_seat.StageSeat.{StageSeat};
ghost use Rattle.window_ring.specs.Hands.{Row, row_of, land_at};
ghost use Rattle.window_ring.specs.Views.{root_view, land_of};
ghost use Rattle.window_ring.specs.Seats.{key_of, table_of};
ghost use Rattle.window_ring.specs.Opening.{AreFresh, IsReady, IsNew};

use crate::bell::Bell;
use crate::hand::Hand;
use crate::ring::Ring;
use crate::stage_seat::StageSeat;
use crate::state::{Last, State};
use crate::view::{Key, View};
use atomic_table::{Refused, Seat};
use cell_land::{Bases, cell_land};
use chain_core::{Core, CorePlan, StageWord};
use std::alloc::{AllocError, Global};

/// A new ring, in which nothing was given or taken.
pub struct NewRing {
    /// What the stages share.
    pub ring: Ring,
    /// What `Ring::close` joins the seats into.
    pub root: Seat<State, View>,
    /// The seat of each stage: the input, the plugins in their order, the output.
    pub seats: Vec<StageSeat>,
}

// What the turn guards at the start, the room for the seats, and the bells.
struct Ready {
    key: Key,
    slots: Vec<State>,
    seats: Vec<StageSeat>,
    bells: Vec<Bell>,
}

// A bell for each stage.
fn bells_of(alloc: Global, stages: usize) -> Result<Vec<Bell>, AllocError> {
    let mut bells = Vec::new(alloc);
    for _ in 0..stages {
        bells.push(Bell::new())?;
    }
    Ok(bells)
}

// Appends empty hands to those that are there.
fn fill_links(links: &mut Vec<Hand>, base: Bases, count: usize, len: usize)
    requires some { 0 < count }
    requires room { len ≤ vec_capacity links.old }
    requires less { vec_len links.old ≤ len }
    ensures { (n : ℕ)
        × (links.new.items ≡ links.old.items ++ replicate n (row_of 0 (land_at base count) []))
        × (vec_len links.new ≡ len) }
{
    if links.len() >= len {
        return;
    }
    links.push_reserved(Hand::none(base, count));
    fill_links(links, base, count, len);
}

// The seats of the stages after those that have one.
fn fill_seats(
    ring: &Ring,
    root: &mut Seat<State, View>,
    seats: &mut Vec<StageSeat>,
    base: Bases,
    count: usize,
    stages: usize,
)
    requires of_table { root.old.table_id ≡ (table_of ring.now) }
    requires words { 0 < (table_of ring.now).words }
    requires room { stages ≤ vec_capacity seats.old }
    requires less { vec_len seats.old ≤ stages }
    requires some { 0 < count }
    requires land { land_of (key_of ring.now) ≡ land_at base count }
    requires root { root.old.me ≡ (root_view (key_of ring.now) (vec_len seats.old) [], []) }
    requires fresh { AreFresh (key_of ring.now) (table_of ring.now) seats.old.items }
    ensures of_table { root.new.table_id ≡ (table_of ring.now) }
    ensures root { root.new.me ≡ (root_view (key_of ring.now) stages [], []) }
    ensures fresh { AreFresh (key_of ring.now) (table_of ring.now) seats.new.items }
    ensures len { vec_len seats.new ≡ stages }
{
    if seats.len() >= stages {
        return;
    }
    let seat = ring.next_seat(root);
    let stage = seats.len();
    seats.push_reserved(StageSeat {
        seat,
        stage,
        hand: Hand::none(base, count),
    });
    fill_seats(ring, root, seats, base, count, stages);
}

// All memory of a ring but that of its table.
fn set_up(alloc: Global, plan: &CorePlan) -> Result<Ready, AllocError>
    requires { IsValidPlan plan.now }
    ensures { IfOk result (λ r. IsReady plan.now r.key r.slots.items
        × (vec_len r.seats ≡ 0) × (plan.now.plugins + 2 ≤ vec_capacity r.seats)) }
{
    let stages = plan.plugins + 2;
    let bells = bells_of(alloc, stages)?;
    let core = Core::new(alloc, plan)?;
    let mut links = Vec::with_capacity(alloc, stages)?;
    let Ok(seats) = Vec::with_capacity(alloc, stages) else {
        links.destroy_empty();
        return Err(AllocError);
    };
    let Ok(mut slots) = Vec::with_capacity(alloc, 1) else {
        links.destroy_empty();
        seats.destroy_empty();
        return Err(AllocError);
    };
    let Ok(window) = cell_land(alloc, plan.buffer) else {
        links.destroy_empty();
        seats.destroy_empty();
        slots.destroy_empty();
        return Err(AllocError);
    };
    let base = window.bases();
    links.push_reserved(Hand::whole(window));
    fill_links(&mut links, base, plan.buffer, stages);
    let last = Last {
        stage: 0,
        done: 0,
        word: StageWord {
            agreed: None,
            ended: None,
        },
    };
    slots.push_reserved(State { core, links, last });
    Ok(Ready {
        key: Key { plan: *plan, base },
        slots,
        seats,
        bells,
    })
}

// Drops hands that have no cells.
fn end_all(mut links: Vec<Hand>)
    requires { (i : ℕ) (d : Row) → i < length links.items → (slice_index_or links.items i d).cells ≡ [] }
{
    match links.pop() {
        None => links.destroy_empty(),
        Some(hand) => {
            hand.end();
            end_all(links);
        }
    }
}

// Frees what the turn was to guard.
fn discard(mut slots: Vec<State>)
    requires { (plan : CorePlan) × (key : Key) × IsReady plan key slots.items }
{
    let Some(value) = slots.pop() else {
        slots.destroy_empty();
        unreachable!();
    };
    slots.destroy_empty();
    let State {
        core: _,
        mut links,
        last: _,
    } = value;
    links.remove(0).close();
    end_all(links);
}

/// A ring of this plan, or `AllocError` where there is no memory for it. Later calls allocate nothing.
pub fn new_ring(alloc: Global, plan: &CorePlan) -> Result<NewRing, AllocError>
    requires { IsValidPlan plan.now }
    ensures { IfOk result (λ r. IsNew plan.now r) }
{
    let Ready {
        key,
        slots,
        mut seats,
        bells,
    } = set_up(alloc, plan)?;
    match Ring::open(alloc, &key, slots, bells) {
        Ok((ring, mut root)) => {
            fill_seats(
                &ring,
                &mut root,
                &mut seats,
                key.base,
                plan.buffer,
                plan.plugins + 2,
            );
            Ok(NewRing { ring, root, seats })
        }
        Err(Refused { slots }) => {
            seats.destroy_empty();
            discard(slots);
            Err(AllocError)
        }
    }
}
