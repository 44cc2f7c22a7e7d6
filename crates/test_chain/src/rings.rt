//! Tests of a ring from its making to its close, and of cells in hand that wrap at the block's end.

ghost use Rattle.std.specs.Prelude.{◌≡◌, ◌≤◌, ℕ, suc, [], length, IsTrue, IfSome, Some};
ghost use Rattle.chain_core.specs.CoreNumbers.{IsValidPlan};
ghost use Rattle.chain_core.specs.Stages.{stages_of};
ghost use Rattle.window_ring.specs.Opening.{IsFresh};
ghost use Rattle.window_ring.specs.Closing.{IsDone};
ghost use Rattle.window_ring.specs.Seats.{key_of, table_of};
ghost use Rattle.test_chain.specs.Going.{GoesOn};

use crate::compared::same;
use chain_core::{CorePlan, StageEnd, StageSet, StageWord, news_promises, one_visit};
use std::process::Abort;
use window_ring::{NewRing, Ring, StageSeat, Visited, new_ring, seat_laws};

/// A law; it runs nothing. A seat of a new ring goes on.
fn begins(ring: &Ring, seat: &StageSeat)
    requires table { ((table_of ring.now).words ≡ 1) × ((table_of ring.now).slots ≡ 1) }
    requires valid { IsValidPlan (key_of ring.now).plan }
    requires no_users { stages_of (key_of ring.now).plan.users ≡ [] }
    requires stage { seat.now.stage ≤ suc (key_of ring.now).plan.plugins }
    requires fresh { IsFresh (key_of ring.now) (table_of ring.now) seat.now.stage seat.now }
    ensures { GoesOn (key_of ring.now) (table_of ring.now) seat.now }
{
    // A law, which runs nothing.
    seat_laws();
    let _ring = ring;
    let _seat = seat;
}

/// The cells in hand up to the block's end.
#[derive(Clone, Copy)]
struct FrontCells {
    start: usize,
    len: usize,
    next: u64,
}

/// Where the cells in hand up to the block's end begin, how many they are, and the position after them.
fn front(ring: &Ring, seat: &mut StageSeat) -> FrontCells
    requires goes { GoesOn (key_of ring.now) (table_of ring.now) seat.old }
    ensures goes { GoesOn (key_of ring.now) (table_of ring.now) seat.new }
    ensures within { result.len ≤ length seat.new.hand.cells }
    ensures stage { seat.new.stage ≡ seat.old.stage }
{
    // A law, which runs nothing.
    news_promises();
    let _ring = ring;
    match seat.lift_front() {
        None => FrontCells {
            start: 0,
            len: 0,
            next: seat.position(),
        },
        Some(window) => {
            let front = FrontCells {
                start: window.start(),
                len: window.len(),
                next: seat.position(),
            };
            seat.put_front(window);
            front
        }
    }
}

/// A visit that gives the first `done` cells in hand, without a word; returns whether it was made.
fn gives(ring: &Ring, seat: &mut StageSeat, done: usize) -> bool
    requires { GoesOn (key_of ring.now) (table_of ring.now) seat.old }
    ensures goes { IsTrue result → GoesOn (key_of ring.now) (table_of ring.now) seat.new }
    ensures stage { seat.new.stage ≡ seat.old.stage }
{
    // Laws, which run nothing.
    one_visit();
    seat_laws();
    let front = front(ring, seat);
    if done > front.len {
        return false;
    }
    let word = StageWord {
        agreed: None,
        ended: None,
    };
    match ring.visit(seat, done, word) {
        Visited::Given(_) => true,
        Visited::Busy { holder: _ } => false,
    }
}

/// A visit by which the stage ends; returns whether it was made.
fn ends(ring: &Ring, seat: &mut StageSeat) -> bool
    requires { GoesOn (key_of ring.now) (table_of ring.now) seat.old }
    ensures { IsTrue result → IsDone (key_of ring.now) (table_of ring.now) seat.old.stage seat.new }
{
    // Laws, which run nothing.
    one_visit();
    seat_laws();
    let word = StageWord {
        agreed: None,
        ended: Some(StageEnd::NoMemory),
    };
    match ring.visit(seat, 0, word) {
        Visited::Given(_) => true,
        Visited::Busy { holder: _ } => false,
    }
}

/// A visit that takes cells, and one that gives `done` of them; returns whether they were made.
fn takes_and_gives(ring: &Ring, seat: &mut StageSeat, done: usize) -> bool
    requires { GoesOn (key_of ring.now) (table_of ring.now) seat.old }
    ensures goes { IsTrue result → GoesOn (key_of ring.now) (table_of ring.now) seat.new }
    ensures stage { seat.new.stage ≡ seat.old.stage }
{
    if !gives(ring, seat, 0) {
        return false;
    }
    gives(ring, seat, done)
}

/// The same, and a visit by which the stage ends.
fn gives_and_ends(ring: &Ring, seat: &mut StageSeat, done: usize) -> bool
    requires { GoesOn (key_of ring.now) (table_of ring.now) seat.old }
    ensures { IsTrue result → IsDone (key_of ring.now) (table_of ring.now) seat.old.stage seat.new }
{
    if !takes_and_gives(ring, seat, done) {
        return false;
    }
    ends(ring, seat)
}

/// A visit that takes cells, what is in hand up to the block's end then, and a visit by which the stage ends.
fn takes_and_ends(ring: &Ring, seat: &mut StageSeat) -> Option<FrontCells>
    requires { GoesOn (key_of ring.now) (table_of ring.now) seat.old }
    ensures { IfSome result (λ _. IsDone (key_of ring.now) (table_of ring.now) seat.old.stage seat.new) }
{
    if !gives(ring, seat, 0) {
        return None;
    }
    let front = front(ring, seat);
    if !ends(ring, seat) {
        return None;
    }
    Some(front)
}

/// Aborts unless a visit was made.
fn was_made(rt: &impl Abort, made: bool)
    ensures { IsTrue made }
{
    assert!(rt; made, "another stage has the turn");
}

/// The cells in hand of visits that were made; aborts where they were not.
fn made(rt: &impl Abort, front: Option<FrontCells>) -> FrontCells
    ensures { front ≡ Some result }
{
    match front {
        Some(front) => front,
        None => panic!(rt; "another stage has the turn"),
    }
}

#[test]
fn wraps(rt: HostRuntime) {
    let plan = CorePlan {
        plugins: 0,
        buffer: 7,
        most: 7,
        users: StageSet::none(),
    };
    let NewRing {
        ring,
        root,
        mut seats,
    } = new_ring(rt.alloc(), &plan).expect(&rt, "memory");
    begins(&ring, &seats[0]);
    begins(&ring, &seats[1]);
    // Positions 0 to 6 in seven slots: five cells are given, and the first two of them are free again, as 7 and 8.
    was_made(&rt, takes_and_gives(&ring, &mut seats[0], 5));
    was_made(&rt, gives_and_ends(&ring, &mut seats[1], 2));
    let front = made(&rt, takes_and_ends(&ring, &mut seats[0]));
    same(&rt, (front.start, front.len, front.next), (5, 2, 7));
    let closed = ring.close(root, seats);
    same(&rt, closed.cut, 2);
}

// Requires that a ring can be shared by threads.
fn shared<T: Sync>(_ring: &T) {}

// Requires that a seat can be sent to a thread.
fn sent<T: Send>(_seat: &T) {}

#[test]
fn opens_and_closes(rt: HostRuntime) {
    let plan = CorePlan {
        plugins: 0,
        buffer: 2,
        most: 5,
        users: StageSet::none(),
    };
    let NewRing {
        ring,
        root,
        mut seats,
    } = new_ring(rt.alloc(), &plan).expect(&rt, "memory");
    shared(&ring);
    sent(&seats[0]);
    begins(&ring, &seats[0]);
    begins(&ring, &seats[1]);
    let heard = ring.heard(1);
    was_made(&rt, ends(&ring, &mut seats[0]));
    // The end of the input has woken the output: this returns.
    ring.wait_news(&rt, 1, heard);
    was_made(&rt, ends(&ring, &mut seats[1]));
    let closed = ring.close(root, seats);
    same(&rt, closed.cut, 0);
}
