//! How many errors there were below the mark.
ghost use Rattle.std.specs.Prelude.{◌≡◌, ◌<◌};
ghost use Rattle.plug_monitor.specs.Counting.{rank_of};

use monitor_lines::{Indicator, MonitorError};

/// How many indicators there are.
pub(crate) const INDICATOR_COUNT: usize = 16;

/// How many errors there were, of each indicator and in all.
#[derive(Clone, Copy)]
pub(crate) struct Counts {
    /// Of each indicator, in the order of their numbers.
    each: [u128; INDICATOR_COUNT],
    /// In all.
    all: u128,
}

impl Counts {
    ghost use Rattle.std.specs.Prelude.{◌≡◌, ◌<◌, ◌^◌, ◌++◌, ◌∷◌, [], List, length};
    ghost use Rattle.std.specs.List.{slice_index_or};
    ghost use Rattle.monitor_lines.specs.declared.monitor_error.MonitorError.{MonitorError as GivenError};
    ghost use Rattle.plug_monitor.specs.Counting.{HasRoom, HasRoomFor, IsCounted, IsEach, rank_of};

    /// No error yet.
    pub(crate) fn none() -> Counts
        ensures { IsCounted result [] }
    {
        Counts {
            each: [0; INDICATOR_COUNT],
            all: 0,
        }
    }

    /// Counts these errors.
    pub(crate) fn add_all(&mut self, errors: &[MonitorError])
        requires { HasRoomFor self.old }
        ensures counted { (before : List GivenError) → IsCounted self.old before → IsCounted self.new (before ++ errors.now) }
        ensures range { length errors.now < 2 ^ 64 }
    {
        let count = errors.len();
        for error in errors {
            self.add(error);
        }
        self.all += count as u128;
    }

    // Counts one error among those of its indicator.
    fn add(&mut self, error: &MonitorError)
        requires { HasRoom self.old }
        ensures each { (before : List GivenError) → IsEach self.old.each before → IsEach self.new.each (before ++ error.now ∷ []) }
        ensures all { self.new.all ≡ self.old.all }
    {
        self.each[rank(error.indicator)] += 1;
    }

    /// How many errors of an indicator there were.
    pub(crate) fn of(&self, indicator: Indicator) -> u128
        ensures { result ≡ slice_index_or self.now.each (rank_of indicator) 0 }
    {
        self.each[rank(indicator)]
    }

    /// How many errors there were in all.
    pub(crate) fn all(&self) -> u128
        ensures { result ≡ self.now.all }
    {
        self.all
    }
}

// The place of an indicator in the order of their numbers.
fn rank(indicator: Indicator) -> usize
    ensures is { result ≡ rank_of indicator }
    ensures range { result < 16 }
{
    match indicator {
        Indicator::Pat => 0,
        Indicator::Counter => 1,
        Indicator::Pmt => 2,
        Indicator::Pid => 3,
        Indicator::Transport => 4,
        Indicator::Crc => 5,
        Indicator::Pcr => 6,
        Indicator::Accuracy => 7,
        Indicator::Pts => 8,
        Indicator::Cat => 9,
        Indicator::Nit => 10,
        Indicator::Unreferenced => 11,
        Indicator::Sdt => 12,
        Indicator::Eit => 13,
        Indicator::Rst => 14,
        Indicator::Tdt => 15,
    }
}
