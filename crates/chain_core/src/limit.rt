//! The limit: where joint termination cuts the chain.

ghost use Rattle.std.specs.Prelude.{◌≡◌, Option, map, IsTrue, min, max, ◌≤◌};
ghost use Rattle.chain_model.specs.Cut.{lesser_end};
ghost use Rattle.chain_model.specs.Joint.{greatest_if_all};
ghost use Rattle.chain_core.specs.Stages.{stages_of};
ghost use Rattle.chain_core.specs.Close.{lesser_if};
ghost use Rattle.chain_core.specs.CoreNumbers.{progress_in, greatest_more};

use crate::{Progress, StageSet};

/// The greatest agreement of the users, once each of them has one.
pub(crate) fn limit_of(users: StageSet, progress: &[Progress]) -> Option<u64>
    ensures { result ≡ greatest_if_all (map (λ k. (progress_in progress.now k).agreed) (stages_of users)) }
{
    let mut asked = false;
    let mut limit = None;
    let mut from = 0;
    while let Some(stage) = users.next_from(from) {
        limit = joined(asked, limit, agreed_at(progress, stage));
        asked = true;
        from = stage + 1;
    }
    limit
}

// The agreement that is known of a stage.
fn agreed_at(progress: &[Progress], stage: usize) -> Option<u64>
    ensures { result ≡ (progress_in progress.now stage).agreed }
{
    match progress.get(stage) {
        Some(progress) => progress.agreed,
        None => None,
    }
}

// The greatest of those so far and one more, if all of them are known.
fn joined(asked: bool, so_far: Option<u64>, agreed: Option<u64>) -> Option<u64>
    ensures { result ≡ greatest_more asked so_far agreed }
{
    if !asked {
        return agreed;
    }
    match (so_far, agreed) {
        (Some(m), Some(n)) => Some(m.max(n)),
        _ => None,
    }
}

/// The lesser of a number and the limit, where there is one.
pub(crate) fn within_limit(n: u64, limit: Option<u64>) -> u64
    ensures { result ≡ lesser_end n limit }
{
    match limit {
        Some(limit) => n.min(limit),
        None => n,
    }
}

/// The lesser of a number, if it is known, and another number.
pub(crate) fn lesser(least: Option<u64>, n: u64) -> u64
    ensures { result ≡ lesser_if least n }
{
    match least {
        Some(m) => m.min(n),
        None => n,
    }
}
