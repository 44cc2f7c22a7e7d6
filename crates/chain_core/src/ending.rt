//! The cut and the cause from the progress of all stages.

ghost use Rattle.std.specs.Prelude.{◌≡◌, Option, length, find, option_to_list};
ghost use Rattle.chain_model.specs.Cut.{is_at, is_until, cause_among};
ghost use Rattle.chain_core.specs.Close.{least_among, ending_with};
ghost use Rattle.chain_core.specs.CoreNumbers.{progress_in, endings_before};

use crate::Progress;
use crate::limit::lesser;
use chain_model::Cause;

/// The least of the limit and of the numbers of cells that the stages gave that ended by themselves.
pub(crate) fn least_end(progress: &[Progress], limit: Option<u64>) -> Option<u64>
    ensures { result ≡ least_among limit (endings_before (progress_in progress.now) (length progress.now)) }
{
    let mut least = limit;
    for (stage, one) in progress.iter().enumerate() {
        least = lesser_with(least, one.given, one.own_cause(stage));
    }
    least
}

// The lesser of a number, if it is known, and the place of an ending, where there is a cause.
fn lesser_with(least: Option<u64>, at: u64, own: Option<Cause>) -> Option<u64>
    ensures { result ≡ least_among least (ending_with at own) }
{
    match own {
        Some(_) => Some(lesser(least, at)),
        None => least,
    }
}

/// Why the chain ends at the cut: joint termination, else the first last packet, else the end of
/// the greatest stage.
pub(crate) fn cause_at(progress: &[Progress], limit: Option<u64>, cut: u64) -> Cause
    ensures { result ≡ cause_among cut limit (endings_before (progress_in progress.now) (length progress.now)) }
{
    let mut until = None;
    let mut last = None;
    for (stage, one) in progress.iter().enumerate() {
        let here = one.cause_at(stage, cut);
        until = until.or(last_packet(here));
        last = here.or(last);
    }
    if is_limit(limit, cut) {
        Cause::Joint
    } else {
        until.or(last).unwrap_or(Cause::Joint)
    }
}

// The cause, where it is that of a last packet.
fn last_packet(cause: Option<Cause>) -> Option<Cause>
    ensures { result ≡ find is_until (option_to_list cause) }
{
    match cause {
        Some(Cause::Until(stage)) => Some(Cause::Until(stage)),
        _ => None,
    }
}

fn is_limit(limit: Option<u64>, cut: u64) -> bool
    ensures { result ≡ is_at limit cut }
{
    match limit {
        Some(limit) => limit == cut,
        None => false,
    }
}
