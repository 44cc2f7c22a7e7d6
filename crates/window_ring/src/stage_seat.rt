//! The seat of a stage.
//!
//! Cells are lifted out of it by value (`lift_front`, `put_front`), up to the block's end. A lent slice would have to
//! write back through two types that have invariants.

ghost use Rattle.std.specs.Prelude.{◌≡◌, ◌+◌, ◌<◌, ◌^◌, ◌++◌, ℕ, [], length, IfNone, IfSome};
ghost use Rattle.window_ring.specs.Hands.{IsFront, LiftsFront, row_of};

use crate::hand::Hand;
use crate::state::State;
use crate::view::View;
use atomic_table::Seat;
use cell_land::CellWindow;

/// The seat of a stage: its place in the ring, and the cells in its hands, which it has taken and not given.
///
/// It may go to another thread. It ends in `Ring::close`.
pub struct StageSeat {
    pub(crate) seat: Seat<State, View>,
    pub(crate) stage: usize,
    pub(crate) hand: Hand,
}

impl StageSeat {
    /// The stage's number: 0 is the input, the last one the output.
    pub fn stage(&self) -> usize
        ensures { result ≡ self.now.stage }
    {
        self.stage
    }

    /// The position of the first cell in hand, counted from the input's first cell.
    pub fn position(&self) -> u64
        ensures { result ≡ self.now.hand.at }
    {
        self.hand.position()
    }

    /// The first cells in hand, up to the block's end, to be changed where they are; none where the hands
    /// are empty. They are to be put back by `put_front` before the next visit.
    pub fn lift_front(&mut self) -> Option<CellWindow>
        requires low { self.old.hand.at + length self.old.hand.cells < 2 ^ 63 }
        ensures none { IfNone result ((self.old.hand.cells ≡ []) × (self.new.hand ≡ self.old.hand)) }
        ensures some { IfSome result (λ w. LiftsFront self.old.hand self.new.hand w) }
        ensures seat { self.new.seat ≡ self.old.seat }
        ensures stage { self.new.stage ≡ self.old.stage }
    {
        self.hand.lift_front()
    }

    /// Puts back what was lifted, changed or not. No other cells may be put back.
    pub fn put_front(&mut self, window: CellWindow)
        requires { (at : ℕ) × IsFront at self.old.hand window }
        ensures hand { (at : ℕ) → IsFront at self.old.hand window
            → self.new.hand ≡ row_of at self.old.hand.land (window.cells ++ self.old.hand.cells) }
        ensures seat { self.new.seat ≡ self.old.seat }
        ensures stage { self.new.stage ≡ self.old.stage }
    {
        self.hand.put_front(window);
    }
}
