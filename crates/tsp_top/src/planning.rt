//! The stuffing and the numbers of the core that a plan gives a run.
ghost use Rattle.std.specs.Prelude.{◌≡◌, ◌≤◌, ◌<◌, ◌+◌, ◌++◌, suc, length, All};
ghost use Rattle.chain_args.specs.ValidPlan.{IsValidGeneral};
ghost use Rattle.chain_args.specs.ValidPlan as args;
ghost use Rattle.chain_core.specs.Stages.{stages_of};
ghost use Rattle.stage_run.specs.InputStands as stage;
ghost use Rattle.tsp_top.specs.PlannedChain.{stuffing_of, user_at, users_from, users_of};
ghost use Rattle.tsp_top.specs.Sizes.{default_buffer, default_batch, IsSize, lesser_batch};
ghost use Rattle.tsp_top.specs.PlannedCore.{IsPlannedCore};

use crate::driver::Driver;
use chain_args::{GeneralConf, Plan};
use chain_core::{CorePlan, StageSet};
use plugin_settings::PluginItem;
use stage_run::Stuffing;

/// The stuffing of the general options.
pub(crate) fn planned_stuffing(general: &GeneralConf) -> Stuffing
    requires { IsValidGeneral general.now }
    ensures stuffing { stage.stuffing_of result ≡ stuffing_of general.now }
    ensures every { 1 ≤ result.every }
{
    let (null, every) = general.add_input_stuffing;
    Stuffing {
        start: general.add_start_stuffing,
        stop: general.add_stop_stuffing,
        null: null as u32,
        every: every as u32,
    }
}

/// How many packets a stage takes at a time by an option that is not given where the other one is.
const DEFAULT_BATCH: u64 = 10_000;

/// How many packets the buffer has.
fn planned_buffer(general: &GeneralConf, driver: Driver) -> u64
    requires { IsValidGeneral general.now }
    ensures size { IsSize general.now.buffer_packets default_buffer result }
    ensures some { 1 ≤ result }
    ensures bound { result ≤ 1000000 }
{
    match general.buffer_packets {
        Some(given) => given,
        None => driver.buffer(),
    }
}

/// How many packets a stage takes at a time: no more than either option allows.
fn planned_batch(general: &GeneralConf, driver: Driver) -> u64
    requires { IsValidGeneral general.now }
    ensures size { IsSize (lesser_batch general.now.max_input_packets general.now.max_flushed_packets)
        default_batch result }
    ensures some { 1 ≤ result }
    ensures bound { result ≤ 1000000 }
{
    match (general.max_input_packets, general.max_flushed_packets) {
        (None, None) => driver.batch(),
        (Some(input), None) => input.min(DEFAULT_BATCH),
        (None, Some(flushed)) => DEFAULT_BATCH.min(flushed),
        (Some(input), Some(flushed)) => input.min(flushed),
    }
}

/// The set with this stage too, if its plugin uses joint termination.
fn with_user(users: StageSet, stage: usize, item: &PluginItem) -> StageSet
    requires number { stage < 64 }
    requires above { All (λ k. k < stage) (stages_of users) }
    ensures { stages_of result ≡ stages_of users ++ user_at stage item.now }
{
    if item.conf.uses_joint_termination() {
        users.with(stage)
    } else {
        users
    }
}

/// The set with the stages of these plugins too that use joint termination. The first plugin has the number `first`.
fn with_users(users: StageSet, first: usize, items: &[PluginItem]) -> StageSet
    requires numbers { first + length items.now ≤ 64 }
    requires above { All (λ k. k < first) (stages_of users) }
    ensures { stages_of result ≡ stages_of users ++ users_from first items.now }
{
    let Some((item, rest)) = items.split_first() else {
        return users;
    };
    with_users(with_user(users, first, item), first + 1, rest)
}

/// The stages that use joint termination.
fn planned_users(plan: &Plan) -> StageSet
    requires { length plan.now.plugins ≤ 62 }
    ensures { stages_of result ≡ users_of plan.now }
{
    let none = StageSet::none();
    if plan.general.ignore_joint_termination {
        none
    } else {
        with_users(none, 1, plan.plugins.as_slice())
    }
}

/// The numbers of the chain's core: each size is the one that the words give, or the driver's where they give none.
pub(crate) fn planned_core(plan: &Plan, driver: Driver) -> CorePlan
    requires { args.IsValidPlan plan.now }
    ensures { IsPlannedCore plan.now result }
{
    CorePlan {
        plugins: plan.plugins.as_slice().len(),
        buffer: planned_buffer(&plan.general, driver) as usize,
        most: planned_batch(&plan.general, driver) as usize,
        users: planned_users(plan),
    }
}
