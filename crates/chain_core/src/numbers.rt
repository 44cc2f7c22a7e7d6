//! The core of a chain: the progress of all stages, and one visit.

use crate::ending::{cause_at, least_end};
use crate::limit::{limit_of, within_limit};
use crate::{Closed, CorePlan, News, Progress, StageWord};
use chain_model::POSITION_LIMIT;
use std::alloc::{AllocError, Global};
use std::marker::Model;

/// The chain's core: how much each stage has given and taken, what it agreed to and how it ended.
/// It stands for the machine's state with the same numbers, whatever the cells are.
#[derive(Drop)]
pub struct Core {
    plan: CorePlan,
    progress: Vec<Progress>,
    told: Option<u64>,
}

impl Model for Core {
    ghost use Rattle.std.specs.Prelude.{◌≡◌, ◌+◌, length};
    ghost use Rattle.chain_core.specs.CoreNumbers.{CoreNumbers};

    ghost Value = { CoreNumbers };

    ghost view = { λ c. record { plan = c.plan; progress = c.progress.items; told = c.told } };

    ghost invariant = { λ c. length c.progress.items ≡ c.plan.plugins + 2 };
}

impl Core {
    ghost use Rattle.std.specs.Prelude.{◌≡◌, ◌≤◌, ◌+◌, ℕ, suc, List, length, IfOk, slice_set};
    ghost use Rattle.ts_packet.specs.declared.cell.Cell.{Cell};
    ghost use Rattle.chain_core.specs.Stages.{has_stage};
    ghost use Rattle.chain_core.specs.Numbers.{MayVisit, news_of, limit_of as limit_of_marks};
    ghost use Rattle.chain_core.specs.Machine.{ChainState, visit_of, start, visited, progress_of_stages, Allowed, news_after};
    ghost use Rattle.chain_core.specs.ChainRun.{AllEnded};
    ghost use Rattle.chain_core.specs.Close.{closed_of};
    ghost use Rattle.chain_core.specs.CoreNumbers.{CoreNumbers, IsValidPlan, StandsFor, progress_of_core, noted_numbers, served_numbers};

    /// A core of a chain in which nothing was given or taken. `AllocError` where there is no memory for it.
    pub fn new(alloc: Global, plan: &CorePlan) -> Result<Core, AllocError>
        requires { IsValidPlan plan.now }
        ensures plan { IfOk result (λ core. core.plan ≡ plan.now) }
        ensures stands { IfOk result (λ core. StandsFor core start) }
    {
        let progress = vec![in alloc; Progress::fresh(); plan.plugins + 2]?;
        Ok(Core {
            plan: *plan,
            progress,
            told: None,
        })
    }

    /// What the core knows of a stage.
    pub fn progress(&self, stage: usize) -> Progress
        requires { stage ≤ suc self.now.plan.plugins }
        ensures { result ≡ progress_of_core self.now stage }
    {
        self.progress[stage]
    }

    /// One visit of a stage, which gives `done` of the cells in its hands and reports the word. It is
    /// the machine's visit, whatever the cells are, and it returns the machine's news. It
    /// allocates nothing.
    pub fn visit(&mut self, stage: usize, done: usize, word: StageWord) -> News
        requires { MayVisit self.old.plan (progress_of_core self.old) self.old.told stage done word }
        ensures plan { self.new.plan ≡ self.old.plan }
        ensures allowed { (state : ChainState) (cells : List Cell)
            → length cells ≡ done → StandsFor self.old state
            → Allowed self.old.plan state (visit_of stage cells word) }
        ensures visited { (state : ChainState) (cells : List Cell)
            → length cells ≡ done → StandsFor self.old state
            → StandsFor self.new (visited self.old.plan state (visit_of stage cells word)) }
        ensures news { (state : ChainState) (cells : List Cell)
            → length cells ≡ done → StandsFor self.old state
            → result ≡ news_after self.old.plan state (visit_of stage cells word) }
        ensures numbers { result ≡ news_of self.old.plan (progress_of_core self.new) stage }
    {
        self.note(stage, done, word);
        let limit = limit_of(self.plan.users, &self.progress);
        self.serve(stage, limit);
        self.news(stage, limit)
    }

    // The cells and the word are noted.
    fn note(&mut self, stage: usize, done: usize, word: StageWord)
        requires is_stage { stage ≤ suc self.old.plan.plugins }
        requires held { (progress_of_core self.old stage).given + done ≤ (progress_of_core self.old stage).taken }
        ensures { self.new ≡ noted_numbers self.old stage done word }
    {
        let is_user = self.plan.users.has(stage);
        self.progress[stage] = self.progress[stage].noted(is_user, done, word);
    }

    // The stage takes of the cells that wait, and the output is given the limit.
    fn serve(&mut self, stage: usize, limit: Option<u64>)
        requires is_stage { stage ≤ suc self.old.plan.plugins }
        requires limit { limit ≡ limit_of_marks self.old.plan (progress_of_core self.old) }
        ensures { self.new ≡ served_numbers self.old stage }
    {
        let output = self.plan.plugins + 1;
        let reach = if stage == 0 {
            let ahead = self.progress[output]
                .given
                .saturating_add(self.plan.buffer as u64);
            ahead.min(POSITION_LIMIT)
        } else {
            self.progress[stage - 1].given
        };
        self.progress[stage] = self.progress[stage].taking(reach, self.plan.most);
        if stage == output {
            self.told = limit;
        }
    }

    // The news of the stage.
    fn news(&self, stage: usize, limit: Option<u64>) -> News
        requires is_stage { stage ≤ suc self.now.plan.plugins }
        requires limit { limit ≡ limit_of_marks self.now.plan (progress_of_core self.now) }
        ensures { result ≡ news_of self.now.plan (progress_of_core self.now) stage }
    {
        let output = self.plan.plugins + 1;
        let progress = self.progress[stage];
        News {
            taken: progress.taken,
            limit,
            written: within_limit(self.progress[output].given, limit),
            before_over: stage > 0
                && self.progress[stage - 1].ended.is_some()
                && progress.given == self.progress[stage - 1].given,
            after_over: stage < output && self.progress[stage + 1].ended.is_some(),
        }
    }

    /// Where the chain was cut and why, once every stage has ended.
    pub fn close(self) -> Closed
        requires { AllEnded self.plan (progress_of_core self) }
        ensures machine { (state : ChainState) → StandsFor self state → result ≡ closed_of self.plan (progress_of_stages state) }
        ensures numbers { result ≡ closed_of self.plan (progress_of_core self) }
    {
        let limit = limit_of(self.plan.users, &self.progress);
        let cut = least_end(&self.progress, limit).unwrap_or(0);
        Closed {
            cut,
            cause: cause_at(&self.progress, limit, cut),
        }
    }
}
