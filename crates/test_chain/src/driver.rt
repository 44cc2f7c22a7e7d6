//! A core that is driven visit by visit; each visit is checked before it is made.

ghost use Rattle.std.specs.Prelude.{◌≡◌, ◌≢◌, ◌⊎◌, ◌≤◌, ◌<◌, ◌+◌, ℕ, suc, Some, IsTrue, IsSome, IfOk};
ghost use Rattle.chain_core.specs.declared.stage_end.StageEnd.TheVariants.{Followed};
ghost use Rattle.chain_core.specs.Numbers.{IsAgreement, MayVisit, MayFollow, is_before_over, is_after_over};
ghost use Rattle.chain_core.specs.ChainRun.{AllEnded};
ghost use Rattle.chain_core.specs.Close.{closed_of};
ghost use Rattle.chain_core.specs.CoreNumbers.{IsValidPlan, progress_of_core};

use chain_core::{Closed, Core, CorePlan, News, Progress, StageEnd, StageWord, one_visit};
use std::alloc::{AllocError, Global};
use std::marker::Model;

/// A visit: how many cells are given, and a word to the core.
#[derive(Clone, Copy)]
pub(crate) struct Step {
    /// The stage that makes the visit; 0 is the input.
    pub(crate) stage: usize,
    /// How many cells it gives.
    pub(crate) done: usize,
    /// What it says to the core.
    pub(crate) word: StageWord,
}

/// A core, its plan, the limit that its output received last, and the limit of the last news.
#[derive(Drop)]
pub(crate) struct Driver {
    core: Core,
    plan: CorePlan,
    told: Option<u64>,
    limit: Option<u64>,
}

impl Model for Driver {
    ghost use Rattle.std.specs.Prelude.{◌≡◌, ◌≤◌, Some, ℕ};
    ghost use Rattle.chain_core.specs.Numbers.{limit_of};
    ghost use Rattle.chain_core.specs.CoreNumbers.{CoreNumbers, progress_of_core};

    ghost Value = { CoreNumbers };

    ghost view = { λ d. d.core };

    ghost invariant = { λ d. (d.plan.plugins ≤ 62) × (d.core.plan ≡ d.plan) × (d.core.told ≡ d.told)
        × ((n : ℕ) → d.limit ≡ Some n → limit_of d.plan (progress_of_core d.core) ≡ Some n) };
}

impl Driver {
    /// A core in which no cell was given or taken.
    pub(crate) fn new(alloc: Global, plan: &CorePlan) -> Result<Driver, AllocError>
        requires { IsValidPlan plan.now }
        ensures { IfOk result (λ d. d.plan ≡ plan.now) }
    {
        Ok(Driver {
            core: Core::new(alloc, plan)?,
            plan: *plan,
            told: None,
            limit: None,
        })
    }

    /// Whether the core allows the visit.
    pub(crate) fn allows(&self, step: Step) -> bool
        ensures { IsTrue result → MayVisit self.now.plan (progress_of_core self.now) self.now.told step.stage step.done step.word }
    {
        let output = self.plan.plugins + 1;
        if step.stage > output {
            return false;
        }
        let progress = self.core.progress(step.stage);
        if progress.ended.is_some() || !holds(progress, step.done) {
            return false;
        }
        let now = progress.given + step.done as u64;
        is_agreement(step.word.agreed, progress.given, now)
            && is_below(step.stage == output, self.told, step.done, now)
            && self.may_follow(step.stage, step.word.ended, now)
    }

    /// Whether a stage that has given `now` cells may end in this way.
    fn may_follow(&self, stage: usize, ended: Option<StageEnd>, now: u64) -> bool
        requires { stage ≤ suc self.now.plan.plugins }
        ensures { IsTrue result → ended ≡ Some Followed
            → MayFollow self.now.plan (progress_of_core self.now) stage now }
    {
        match ended {
            Some(StageEnd::Followed) => {
                self.is_before_over(stage) || self.is_after_over(stage) || reaches(self.limit, now)
            }
            _ => true,
        }
    }

    /// Whether the stage before has ended, and this one has passed on all its cells.
    fn is_before_over(&self, stage: usize) -> bool
        requires { stage ≤ suc self.now.plan.plugins }
        ensures { result ≡ is_before_over (progress_of_core self.now) stage }
    {
        if stage == 0 {
            return false;
        }
        let before = self.core.progress(stage - 1);
        before.ended.is_some() && self.core.progress(stage).given == before.given
    }

    /// Whether the stage after has ended.
    fn is_after_over(&self, stage: usize) -> bool
        requires { stage ≤ suc self.now.plan.plugins }
        ensures { result ≡ is_after_over self.now.plan (progress_of_core self.now) stage }
    {
        stage <= self.plan.plugins && self.core.progress(stage + 1).ended.is_some()
    }

    /// Makes the visit, and returns its news.
    pub(crate) fn visit(&mut self, step: Step) -> News
        requires { MayVisit self.old.plan (progress_of_core self.old) self.old.told step.stage step.done step.word }
        ensures { self.new.plan ≡ self.old.plan }
    {
        // A law, which runs nothing.
        one_visit();
        let news = self.core.visit(step.stage, step.done, step.word);
        self.told = told_by(step.stage, self.plan.plugins + 1, news.limit, self.told);
        self.limit = news.limit;
        news
    }

    /// Whether every stage has ended.
    pub(crate) fn all_ended(&self) -> bool
        ensures { IsTrue result → AllEnded self.now.plan (progress_of_core self.now) }
    {
        for stage in 0..self.plan.plugins + 2 {
            if self.core.progress(stage).ended.is_none() {
                return false;
            }
        }
        true
    }

    /// Where and why the chain was cut.
    pub(crate) fn close(self) -> Closed
        requires { AllEnded self.plan (progress_of_core self) }
        ensures { result ≡ closed_of self.plan (progress_of_core self) }
    {
        self.core.close()
    }
}

/// The limit that the output received last: that of a visit of its own, else the one before.
fn told_by(stage: usize, output: usize, limit: Option<u64>, before: Option<u64>) -> Option<u64>
    ensures output { stage ≡ output → result ≡ limit }
    ensures other { stage ≢ output → result ≡ before }
{
    if stage == output { limit } else { before }
}

fn holds(progress: Progress, done: usize) -> bool
    ensures { IsTrue result → progress.given + done ≤ progress.taken }
{
    progress.given <= progress.taken && done as u64 <= progress.taken - progress.given
}

fn is_agreement(agreed: Option<u64>, before: u64, now: u64) -> bool
    ensures { IsTrue result → (n : ℕ) → agreed ≡ Some n → IsAgreement before now n }
{
    match agreed {
        Some(n) => (before < n && n <= now) || n == now,
        None => true,
    }
}

fn is_below(is_output: bool, told: Option<u64>, done: usize, now: u64) -> bool
    ensures { IsTrue result → IsTrue is_output → (limit : ℕ) → told ≡ Some limit → 0 < done → now ≤ limit }
{
    match told {
        Some(limit) => !is_output || done == 0 || now <= limit,
        None => true,
    }
}

fn reaches(limit: Option<u64>, now: u64) -> bool
    ensures { IsTrue result → (n : ℕ) × (limit ≡ Some n) × (n ≤ now) }
{
    match limit {
        Some(n) => n <= now,
        None => false,
    }
}
