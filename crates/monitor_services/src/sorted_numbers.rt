//! Numbers in order.
ghost use Rattle.std.specs.Prelude.{◌≡◌, ◌<◌, ℕ, filter};
ghost use Rattle.std.specs.List.{All};
ghost use Rattle.plugin_notes.specs.PidPackets.{numbers_below};
ghost use Rattle.monitor_rows.specs.KeyRows.{has_number};

/// Puts numbers in order, each once: they are those below a bound that are among them.
pub(crate) fn sort_numbers(numbers: &mut Vec<u32>)
    ensures { (bound : ℕ) → All (λ n. n < bound) numbers.old.items
        → numbers.new.items ≡ filter (has_number numbers.old.items) (numbers_below bound) }
{
    numbers.sort_unstable();
    numbers.dedup();
}
