//! Laws of the jitter. They run nothing.

ghost use Rattle.std.specs.Prelude.{◌≡◌, ◌≤◌, ◌+◌, ◌%◌, ◌⊎◌, ℕ};
ghost use Rattle.plug_clock.specs.ClockUnits.{clock_at, units_taken};
ghost use Rattle.plug_pcr.specs.ClockJitter.{jitter_of};
ghost use Rattle.plug_clock.specs.declared.limits.TheConstants.{CLOCK_PERIOD};

/// A law; it runs nothing. The jitter is the least number of units by which the PCR or the expected one has to be
/// increased for both to be the same value of the clock, which wraps at its period.
pub fn jitter_is_the_least_change()
    ensures moves { (bitrate packets before clock : ℕ)
        → (((before + units_taken bitrate packets) + jitter_of bitrate packets before clock) % CLOCK_PERIOD ≡ clock % CLOCK_PERIOD)
        ⊎ ((clock + jitter_of bitrate packets before clock) % CLOCK_PERIOD ≡ (before + units_taken bitrate packets) % CLOCK_PERIOD) }
    ensures least_on { (bitrate packets before clock units : ℕ)
        → ((before + units_taken bitrate packets) + units) % CLOCK_PERIOD ≡ clock % CLOCK_PERIOD
        → jitter_of bitrate packets before clock ≤ units }
    ensures least_back { (bitrate packets before clock units : ℕ)
        → (clock + units) % CLOCK_PERIOD ≡ (before + units_taken bitrate packets) % CLOCK_PERIOD
        → jitter_of bitrate packets before clock ≤ units }
{}

/// A law; it runs nothing. PCRs at a constant bit rate, each computed with the whole units that all packets before it
/// take, are at most one unit from those expected at that rate, wherever the clock wraps.
pub fn constant_rate_is_exact_to_a_unit()
    ensures { (bitrate start before packets : ℕ) → 1 ≤ bitrate
        → jitter_of bitrate packets (clock_at bitrate start before) (clock_at bitrate start (before + packets)) ≤ 1 }
{
    // A law, which runs nothing.
    jitter_is_the_least_change();
}
