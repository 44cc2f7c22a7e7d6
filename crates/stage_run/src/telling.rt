//! What the news let a stage report.
ghost use Rattle.std.specs.Prelude.{◌≡◌, ◌≤◌};
ghost use Rattle.stage_run.specs.Telling.{is_reached, may_follow, followed, below_limit};

use chain_core::{News, StageEnd};

/// Whether the limit is known and is no more than this.
fn is_reached(limit: Option<u64>, now: u64) -> bool
    ensures { result ≡ is_reached limit now }
{
    match limit {
        Some(limit) => limit <= now,
        None => false,
    }
}

/// Whether a stage that has given `now` cells may end by following.
pub(crate) fn may_follow(news: &News, now: u64) -> bool
    ensures { result ≡ may_follow news.now now }
{
    news.before_over || news.after_over || is_reached(news.limit, now)
}

/// How a stage ends that meets no end of its own.
pub(crate) fn followed(news: &News, now: u64) -> Option<StageEnd>
    ensures { result ≡ followed news.now now }
{
    if may_follow(news, now) {
        Some(StageEnd::Followed)
    } else {
        None
    }
}

/// How many of the cells after `at` are below the limit.
pub(crate) fn below_limit(limit: Option<u64>, at: u64, len: usize) -> usize
    ensures below { result ≡ below_limit limit at len }
    ensures within { result ≤ len }
{
    match limit {
        Some(limit) if limit <= at => 0,
        Some(limit) => len.min((limit - at) as usize),
        None => len,
    }
}
