//! Laws of a stream's clock. They run nothing.
ghost use Rattle.std.specs.Prelude.{◌≡◌, ◌<◌, ◌≤◌, ◌+◌, ◌-◌, ◌*◌, ◌++◌, ◌∷◌, [], ℕ, List, Option, Some, IfSome, true, length};
ghost use Rattle.ts_packet.specs.declared.cell.Cell.{Cell as MetCell};
ghost use Rattle.ts_packet.specs.Cells.{Dropped};
ghost use Rattle.ts_packet.specs.Header.{pid_of};
ghost use Rattle.ts_packet.specs.MetRows.{Met};
ghost use Rattle.plug_clock.specs.ClockUnits.{clock_at, units_taken};
ghost use Rattle.plug_clock.specs.ConstantRate.{AllKeepRate};
ghost use Rattle.plug_clock.specs.StreamClock.{clock_after, clock_start, clock_through, mean_units, step_time, stepped, time_in, up_to_most};
ghost use Rattle.plug_clock.specs.declared.stream_clock.StreamClock.{StreamClock as Clock};

/// A law; it runs nothing. The step clock never goes back, whatever cells are met further.
pub fn the_step_clock_never_goes_back()
    ensures { (pid : Option ℕ) (cells more : List MetCell) → step_time pid cells ≤ step_time pid (cells ++ more) }
{}

/// A law; it runs nothing. A cell whose packet was dropped leaves the clock as it is.
pub fn dropped_cells_have_no_time()
    ensures { (pid : Option ℕ) (history : List MetCell) → clock_after pid (history ++ Dropped ∷ []) ≡ clock_after pid history }
{}

/// A law; it runs nothing. A joint leaves the sums of all steps as they are, and the time goes on by the units that its
/// positions take at their mean, rounded down.
pub fn a_joint_is_bridged_at_the_mean()
    ensures bridged { (clock : Clock) (step count : ℕ)
        → (stepped clock true step count).time ≡ up_to_most (clock.time + mean_units clock count) }
    ensures same_units { (clock : Clock) (step count : ℕ) → (stepped clock true step count).units ≡ clock.units }
    ensures same_positions { (clock : Clock) (step count : ℕ) → (stepped clock true step count).positions ≡ clock.positions }
    ensures least { (clock : Clock) (count : ℕ) → 0 < clock.positions
        → mean_units clock count * clock.positions ≤ count * clock.units }
    ensures most { (clock : Clock) (count : ℕ) → 0 < clock.positions
        → count * clock.units < (mean_units clock count + 1) * clock.positions }
{}

/// A law; it runs nothing. In a stream of a constant bit rate, with PCRs at most a second from one another, the clock has at
/// each PCR the time that the positions since the first one take at this rate, to a unit.
pub fn constant_rate_has_the_time_of_its_positions()
    ensures least { (bitrate start : ℕ) (asked : Option ℕ) (first : Met) (rows : List Met) → 1 ≤ bitrate
        → time_in first.packet ≡ Some (clock_at bitrate start first.at)
        → IfSome asked (λ pid. pid ≡ pid_of first.packet)
        → AllKeepRate bitrate start (pid_of first.packet) first.at rows
        → IfSome (clock_through (clock_start asked) (first ∷ rows)).last (λ last.
        up_to_most (units_taken bitrate (last.at - first.at)) ≤ (clock_through (clock_start asked) (first ∷ rows)).time) }
    ensures most { (bitrate start : ℕ) (asked : Option ℕ) (first : Met) (rows : List Met) → 1 ≤ bitrate
        → time_in first.packet ≡ Some (clock_at bitrate start first.at)
        → IfSome asked (λ pid. pid ≡ pid_of first.packet)
        → AllKeepRate bitrate start (pid_of first.packet) first.at rows
        → IfSome (clock_through (clock_start asked) (first ∷ rows)).last (λ last.
        (clock_through (clock_start asked) (first ∷ rows)).time ≤ up_to_most (units_taken bitrate (last.at - first.at) + 1)) }
{}
