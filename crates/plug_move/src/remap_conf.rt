//! The settings of `remap`.

ghost use Rattle.std.specs.Prelude.{◌≡◌};
ghost use Rattle.plug_move.specs.RemapSettings.{is_source, is_target, pairs_agree, sources_differ, targets_differ};

use plugin_options::{MOST_PAIRS, PairList};
use ts_packet::NULL_PID;

/// Settings of `remap`, which gives packets other PIDs.
///
/// The sources differ and none is 8191. Unless `unchecked` is set the targets differ too.
#[derive(Drop)]
pub struct RemapConf {
    /// 1 to 1,000 pairs of a source and its target.
    pub operand: PairList,
    /// Tables are left as they are. Otherwise the PIDs in PAT, CAT and PMTs are mapped too.
    pub no_psi: bool,
    /// Targets may be equal, and packets may come in on them.
    pub unchecked: bool,
}

impl RemapConf {
    /// Whether there are at most 1,000 pairs, whose sources differ and are not 8191, and whose
    /// targets differ unless they are unchecked.
    pub fn has_agreeing_pairs(&self) -> bool
        ensures { result ≡ pairs_agree self.now }
    {
        let pairs = self.operand.as_slice();
        pairs.len() <= MOST_PAIRS
            && has_distinct_sources(pairs)
            && !has_source(pairs, u64::from(NULL_PID))
            && (self.unchecked || has_distinct_targets(pairs))
    }
}

fn has_source(pairs: &[(u64, u64)], pid: u64) -> bool
    ensures { result ≡ is_source pid pairs.now }
{
    pairs.iter().any(|pair| pair.0 == pid)
}

fn has_target(pairs: &[(u64, u64)], pid: u64) -> bool
    ensures { result ≡ is_target pid pairs.now }
{
    pairs.iter().any(|pair| pair.1 == pid)
}

fn has_distinct_sources(pairs: &[(u64, u64)]) -> bool
    ensures { result ≡ sources_differ pairs.now }
{
    match pairs {
        [] => true,
        [first, rest @ ..] => !has_source(rest, first.0) && has_distinct_sources(rest),
    }
}

fn has_distinct_targets(pairs: &[(u64, u64)]) -> bool
    ensures { result ≡ targets_differ pairs.now }
{
    match pairs {
        [] => true,
        [first, rest @ ..] => !has_target(rest, first.1) && has_distinct_targets(rest),
    }
}
