//! The value that the turn guards.

ghost use Rattle.std.specs.Prelude.{slice_set, if◌then◌else◌, ◌==◌, ◌≡◌, ◌+◌, ◌^◌, ◌≤◌, ◌<◌, ℕ, suc, List, length, take, drop, ◌++◌};
ghost use Rattle.chain_core.specs.Machine.{Visit};
ghost use Rattle.window_ring.specs.Hands.{row_of};
ghost use Rattle.window_ring.specs.Stands.{on_link};

use crate::hand::Hand;
use chain_core::{Core, News, StageWord, news_promises, one_visit};

/// The last visit.
#[derive(Clone, Copy)]
pub struct Last {
    /// The stage that made it.
    pub stage: usize,
    /// How many cells it gave.
    pub done: usize,
    /// What it reported.
    pub word: StageWord,
}

/// What the turn guards: the chain's numbers, the cells between the stages, and the last visit.
pub struct State {
    /// How much each stage gave and took, what it agreed to and how it ended.
    pub core: Core,
    /// Before each stage the cells that wait for it; those that wait for the input are the free ones.
    pub links: Vec<Hand>,
    /// The last visit: the cells that it gave are the last ones on the link after its stage.
    pub last: Last,
}

impl State {
    ghost use Rattle.window_ring.specs.Visits.{MayGive, Handed};
    ghost use Rattle.window_ring.specs.declared.view.Key.{Key};

    /// One visit of a stage, with the cells in its hands: cells are handed on and none is copied.
    pub(crate) fn visit(
        &mut self,
        hand: &mut Hand,
        stage: usize,
        done: usize,
        word: StageWord,
    ) -> News
        requires { (key : Key) × (history : List Visit)
            × MayGive key self.old history hand.old stage done word }
        ensures { (key : Key) (history : List Visit) → MayGive key self.old history hand.old stage done word
            → Handed key self.new history hand.old hand.new stage done word result }
    {
        one_visit();
        news_promises();
        self.last = Last { stage, done, word };
        let before = self.core.progress(stage).taken;
        let news = self.core.visit(stage, done, word);
        let next = next_of(stage, self.links.len() - 1);
        give(hand, done, &mut self.links, next);
        let more = (news.taken - before) as usize;
        take_from(&mut self.links, stage, more, hand);
        news
    }
}

// The link after a stage. The free cells are on the link after the last one.
fn next_of(stage: usize, last: usize) -> usize
    requires { stage ≤ last }
    ensures { result ≡ (if stage == last then 0 else suc stage) }
{
    if stage == last { 0 } else { stage + 1 }
}

// Puts the first `done` cells of a hand after those of a link. The free cells come one lap later.
fn give(hand: &mut Hand, done: usize, links: &mut Vec<Hand>, next: usize)
    requires there { next < length links.old.items }
    requires within { done ≤ length hand.old.cells }
    requires low { hand.old.at + length hand.old.cells < 2 ^ 63 }
    requires later { hand.old.at + hand.old.land.count < 2 ^ 63 }
    requires behind { (if next == 0 then hand.old.at + hand.old.land.count else hand.old.at)
        ≡ (on_link links.old.items next).at + length (on_link links.old.items next).cells }
    requires same { hand.old.land ≡ (on_link links.old.items next).land }
    requires fits { length (on_link links.old.items next).cells + done
        ≤ (on_link links.old.items next).land.count }
    ensures rest { hand.new ≡ row_of (hand.old.at + done) hand.old.land (drop done hand.old.cells) }
    ensures link { links.new.items ≡ slice_set links.old.items next
        (row_of (on_link links.old.items next).at (on_link links.old.items next).land
        ((on_link links.old.items next).cells ++ take done hand.old.cells)) }
{
    hand.pass(done, &mut links[next], next == 0);
}

// Puts the first `n` cells of a link after those of a hand.
fn take_from(links: &mut Vec<Hand>, stage: usize, n: usize, hand: &mut Hand)
    requires there { stage < length links.old.items }
    requires within { n ≤ length (on_link links.old.items stage).cells }
    requires low { (on_link links.old.items stage).at
        + length (on_link links.old.items stage).cells < 2 ^ 63 }
    requires behind { (on_link links.old.items stage).at ≡ hand.old.at + length hand.old.cells }
    requires same { (on_link links.old.items stage).land ≡ hand.old.land }
    requires fits { length hand.old.cells + n ≤ hand.old.land.count }
    ensures rest { links.new.items ≡ slice_set links.old.items stage
        (row_of ((on_link links.old.items stage).at + n) (on_link links.old.items stage).land
        (drop n (on_link links.old.items stage).cells)) }
    ensures got { hand.new ≡ row_of hand.old.at hand.old.land
        (hand.old.cells ++ take n (on_link links.old.items stage).cells) }
{
    links[stage].pass(n, hand, false);
}
