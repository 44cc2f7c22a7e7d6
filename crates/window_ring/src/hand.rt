//! The cells in the hands of a stage, in at most two windows of the block.

ghost use Rattle.std.specs.Prelude.{if◌then◌else◌, ◌≡◌, ◌+◌, ◌^◌, ◌≤◌, ◌<◌, length, take, drop, ◌++◌, ℕ, [], IsTrue, IfNone, IfSome};
ghost use Rattle.std.specs.Prelude.{None, Some};
ghost use Rattle.window_ring.specs.Hands.{row_of, land_at, pieces, IsHand, IsFront, LiftsFront};

use cell_land::{Bases, CellWindow};
use std::marker::Model;
use std::mem;

/// Cells at successive positions, in at most two windows of the block, since they wrap around at most once.
pub struct Hand {
    at: u64,
    base: Bases,
    count: usize,
    // Neither is empty, and there is no second one without the first.
    first: Option<CellWindow>,
    second: Option<CellWindow>,
}

impl Model for Hand {
    ghost use Rattle.window_ring.specs.Hands.{Row, row_code, row_of, land_at, pieces, IsHand};

    ghost Value = { Row };

    ghost coded = { row_code };

    ghost view = { λ h. row_of h.at (land_at h.base h.count) (pieces h.first h.second) };

    ghost invariant = { λ h. IsHand h.at h.base h.count h.first h.second };
}

unsafe impl Send for Hand {}

impl Hand {
    // A hand of these windows.
    fn of(
        at: u64,
        base: Bases,
        count: usize,
        first: Option<CellWindow>,
        second: Option<CellWindow>,
    ) -> Hand
        requires { IsHand at base count first second }
        ensures { result ≡ row_of at (land_at base count) (pieces first second) }
    {
        Hand {
            at,
            base,
            count,
            first,
            second,
        }
    }

    /// Splits off the first `n` cells: these, and the others.
    pub(crate) fn cut(self, n: usize) -> (Hand, Hand)
        requires within { n ≤ length self.cells }
        requires low { self.at + length self.cells < 2 ^ 63 }
        ensures front { result.0 ≡ row_of self.at self.land (take n self.cells) }
        ensures rest { result.1 ≡ row_of (self.at + n) self.land (drop n self.cells) }
    {
        let Hand {
            at,
            base,
            count,
            first,
            second,
        } = self;
        let Some(first) = first else {
            return (
                Hand::of(at, base, count, None, second),
                Hand::of(at, base, count, None, None),
            );
        };
        let len = first.len();
        if n == 0 {
            return (
                Hand::of(at, base, count, None, None),
                Hand::of(at, base, count, Some(first), second),
            );
        }
        if n > len {
            return cut_after(at, base, count, first, second, n);
        }
        let next = at + n as u64;
        if n == len {
            return (
                Hand::of(at, base, count, Some(first), None),
                Hand::of(next, base, count, second, None),
            );
        }
        let (front, rest) = first.split(n);
        (
            Hand::of(at, base, count, Some(front), None),
            Hand::of(next, base, count, Some(rest), second),
        )
    }

    /// The cells, with those of another hand after them.
    pub(crate) fn with(self, other: Hand) -> Hand
        requires behind { other.at ≡ self.at + length self.cells }
        requires same { other.land ≡ self.land }
        requires fits { length self.cells + length other.cells ≤ self.land.count }
        ensures { result ≡ row_of self.at self.land (self.cells ++ other.cells) }
    {
        let Hand {
            at,
            base,
            count,
            first,
            second,
        } = self;
        let Hand {
            at: _,
            base: _,
            count: _,
            first: theirs,
            second: more,
        } = other;
        let Some(first) = first else {
            nothing(second);
            return Hand::of(at, base, count, theirs, more);
        };
        let Some(theirs) = theirs else {
            nothing(more);
            return Hand::of(at, base, count, Some(first), second);
        };
        if let Some(second) = second {
            nothing(more);
            let both = second.join(theirs);
            return Hand::of(at, base, count, Some(first), Some(both));
        }
        if theirs.start() == 0 {
            nothing(more);
            return Hand::of(at, base, count, Some(first), Some(theirs));
        }
        Hand::of(at, base, count, Some(first.join(theirs)), more)
    }

    /// Drops a hand that has no cells.
    pub(crate) fn end(self)
        requires { self.cells ≡ [] }
    {
        let Hand {
            at: _,
            base: _,
            count: _,
            first,
            second,
        } = self;
        nothing(first);
        nothing(second);
    }

    /// Takes all cells out.
    pub(crate) fn lift(&mut self) -> Hand
        ensures all { result ≡ self.old }
        ensures none { self.new ≡ row_of self.old.at self.old.land [] }
    {
        let empty = Hand::of(self.at, self.base, self.count, None, None);
        mem::replace(self, empty)
    }

    /// Puts cells where there are none.
    pub(crate) fn set_down(&mut self, hand: Hand)
        requires { self.old.cells ≡ [] }
        ensures { self.new ≡ hand }
    {
        mem::replace(self, hand).end();
    }

    /// Gives its first `n` cells to another hand, after that one's own; where `lap` is set they go one lap
    /// later. Where `n` is 0, both hands stay as they are.
    #[inline]
    pub(crate) fn pass(&mut self, n: usize, other: &mut Hand, lap: bool)
        requires within { n ≤ length self.old.cells }
        requires low { self.old.at + length self.old.cells < 2 ^ 63 }
        requires later { IsTrue lap → self.old.at + self.old.land.count < 2 ^ 63 }
        requires behind { (if lap then self.old.at + self.old.land.count else self.old.at)
            ≡ other.old.at + length other.old.cells }
        requires same { self.old.land ≡ other.old.land }
        requires fits { length other.old.cells + n ≤ other.old.land.count }
        ensures rest { self.new ≡ row_of (self.old.at + n) self.old.land (drop n self.old.cells) }
        ensures got { other.new
            ≡ row_of other.old.at other.old.land (other.old.cells ++ take n self.old.cells) }
    {
        if n > 0 {
            self.hand_on(n, other, lap);
        }
    }

    // The same, where `n` is at least 1.
    fn hand_on(&mut self, n: usize, other: &mut Hand, lap: bool)
        requires within { n ≤ length self.old.cells }
        requires low { self.old.at + length self.old.cells < 2 ^ 63 }
        requires later { IsTrue lap → self.old.at + self.old.land.count < 2 ^ 63 }
        requires behind { (if lap then self.old.at + self.old.land.count else self.old.at)
            ≡ other.old.at + length other.old.cells }
        requires same { self.old.land ≡ other.old.land }
        requires fits { length other.old.cells + n ≤ other.old.land.count }
        ensures rest { self.new ≡ row_of (self.old.at + n) self.old.land (drop n self.old.cells) }
        ensures got { other.new
            ≡ row_of other.old.at other.old.land (other.old.cells ++ take n self.old.cells) }
    {
        let (front, rest) = self.lift().cut(n);
        self.set_down(rest);
        let all = other.lift().with(front.shifted(lap));
        other.set_down(all);
    }

    /// The same cells, where `lap` is set one lap later.
    pub(crate) fn shifted(self, lap: bool) -> Hand
        requires { IsTrue lap → self.at + self.land.count < 2 ^ 63 }
        ensures { result ≡ row_of (if lap then self.at + self.land.count else self.at) self.land self.cells }
    {
        if lap { self.lapped() } else { self }
    }

    /// The same slots, one lap later.
    pub(crate) fn lapped(self) -> Hand
        requires { self.at + self.land.count < 2 ^ 63 }
        ensures { result ≡ row_of (self.at + self.land.count) self.land self.cells }
    {
        let Hand {
            at,
            base,
            count,
            first,
            second,
        } = self;
        Hand::of(at + count as u64, base, count, first, second)
    }

    /// No cells.
    pub(crate) fn none(base: Bases, count: usize) -> Hand
        requires { 0 < count }
        ensures { result ≡ row_of 0 (land_at base count) [] }
    {
        Hand::of(0, base, count, None, None)
    }

    /// All cells of a block.
    pub(crate) fn whole(window: CellWindow) -> Hand
        requires { (window.start ≡ 0) × (length window.cells ≡ window.land.count) × (0 < window.land.count) }
        ensures { result ≡ row_of 0 window.land window.cells }
    {
        let base = window.bases();
        let count = window.len();
        Hand::of(0, base, count, Some(window), None)
    }

    /// Frees the block of a hand that has all its cells.
    pub(crate) fn close(self)
        requires { length self.cells ≡ self.land.count }
    {
        let Hand {
            at: _,
            base: _,
            count: _,
            first,
            second,
        } = self;
        let Some(first) = first else {
            nothing(second);
            unreachable!();
        };
        match second {
            None => first.close(),
            Some(second) => second.join(first).close(),
        }
    }

    /// Takes the cells up to the block's end out.
    pub(crate) fn lift_front(&mut self) -> Option<CellWindow>
        requires low { self.old.at + length self.old.cells < 2 ^ 63 }
        ensures none { IfNone result ((self.old.cells ≡ []) × (self.new ≡ self.old)) }
        ensures some { IfSome result (λ w. LiftsFront self.old self.new w) }
    {
        let Hand {
            at,
            base,
            count,
            first,
            second,
        } = self.lift();
        match first {
            None => {
                self.set_down(Hand::of(at, base, count, None, second));
                None
            }
            Some(window) => {
                let next = at + window.len() as u64;
                self.set_down(Hand::of(next, base, count, second, None));
                Some(window)
            }
        }
    }

    /// Puts them back, before the others.
    pub(crate) fn put_front(&mut self, window: CellWindow)
        requires { (at : ℕ) × IsFront at self.old window }
        ensures { (at : ℕ) → IsFront at self.old window
            → self.new ≡ row_of at self.old.land (window.cells ++ self.old.cells) }
    {
        let Hand {
            at,
            base,
            count,
            first,
            second,
        } = self.lift();
        nothing(second);
        let before = at - window.len() as u64;
        self.set_down(Hand::of(before, base, count, Some(window), first));
    }

    /// The position of the first cell.
    pub(crate) fn position(&self) -> u64
        ensures { result ≡ self.now.at }
    {
        self.at
    }
}

// A cut after the first window.
fn cut_after(
    at: u64,
    base: Bases,
    count: usize,
    first: CellWindow,
    second: Option<CellWindow>,
    n: usize,
) -> (Hand, Hand)
    requires hand { IsHand at base count (Some first) second }
    requires within { n ≤ length (pieces (Some first) second) }
    requires past { length first.cells < n }
    requires low { at + n < 2 ^ 63 }
    ensures front { result.0 ≡ row_of at (land_at base count) (take n (pieces (Some first) second)) }
    ensures rest { result.1 ≡ row_of (at + n) (land_at base count) (drop n (pieces (Some first) second)) }
{
    let more = n - first.len();
    let next = at + n as u64;
    let Some(second) = second else {
        unreachable!();
    };
    if more == second.len() {
        return (
            Hand::of(at, base, count, Some(first), Some(second)),
            Hand::of(next, base, count, None, None),
        );
    }
    let (front, rest) = second.split(more);
    (
        Hand::of(at, base, count, Some(first), Some(front)),
        Hand::of(next, base, count, Some(rest), None),
    )
}

// Drops no window.
fn nothing(window: Option<CellWindow>)
    requires { window ≡ None }
{
    match window {
        None => {}
        Some(_) => unreachable!(),
    }
}
