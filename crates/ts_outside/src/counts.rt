//! Counts of faults.
ghost use Rattle.std.specs.Prelude.{◌≡◌};
ghost use Rattle.ts_outside.specs.Count.{raised};

/// The count after one more fault; it saturates at `u64::MAX`.
pub fn one_more(count: u64) -> u64
    ensures { result ≡ raised count }
{
    if count < u64::MAX { count + 1 } else { count }
}
