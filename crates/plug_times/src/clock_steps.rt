//! What is kept of the PCRs of a PID.
ghost use Rattle.std.specs.Prelude.{◌≡◌, ◌≤◌, option_to_list};
ghost use Rattle.std.specs.List.{fold};
ghost use Rattle.plug_times.specs.ClockSteps.{above, greater, step_between};

use crate::limits::{DVB_INTERVAL, LONGEST_INTERVAL};
use plug_clock::units_after;

/// How many PCRs a PID had, and the steps between them.
#[derive(Clone, Copy, PartialEq, Eq)]
pub struct ClockSteps {
    /// How many PCRs there were.
    pub count: u64,
    /// The last of them, in units of the 27 MHz clock.
    pub last: Option<u64>,
    /// The greatest step, in those units; 0 where there was none.
    pub longest: u64,
    /// How many steps were above 40 ms.
    pub over40: u64,
    /// How many steps were above 100 ms.
    pub over100: u64,
}

impl ClockSteps {
    ghost use Rattle.std.specs.Prelude.{◌≡◌, ◌++◌, ◌∷◌, [], List, Some};
    ghost use Rattle.plug_times.specs.ClockSteps.{HasStepRoom, IsSteps, no_steps};
    ghost use Rattle.plug_times.specs.declared.stamp.Stamp.{Stamp as GivenStamp};

    /// No PCR yet.
    pub fn none() -> ClockSteps
        ensures { result ≡ no_steps }
    {
        ClockSteps {
            count: 0,
            last: None,
            longest: 0,
            over40: 0,
            over100: 0,
        }
    }

    /// With one more PCR, whose packet has this discontinuity_indicator.
    pub fn with(self, clock: u64, jumps: bool) -> ClockSteps
        requires { HasStepRoom self }
        ensures { (clocks : List GivenStamp) (stamp : GivenStamp) → stamp.clock ≡ Some clock → stamp.jumps ≡ jumps
            → IsSteps self clocks → IsSteps result (clocks ++ stamp ∷ []) }
    {
        let step = step_between(self.last, clock, jumps);
        ClockSteps {
            count: self.count + 1,
            last: Some(clock),
            longest: greatest(self.longest, step),
            over40: self.over40 + above(DVB_INTERVAL, step),
            over100: self.over100 + above(LONGEST_INTERVAL, step),
        }
    }
}

// The step to a value of the clock from the one before.
fn step_between(before: Option<u64>, clock: u64, jumps: bool) -> Option<u64>
    ensures { option_to_list result ≡ step_between before clock jumps }
{
    let before = before?;
    if jumps {
        return None;
    }
    Some(units_after(before, clock))
}

// The greatest of the steps, with one more.
fn greatest(longest: u64, step: Option<u64>) -> u64
    ensures { result ≡ fold greater longest (option_to_list step) }
{
    match step {
        Some(step) if longest < step => step,
        _ => longest,
    }
}

// How many steps above a limit one more is.
fn above(limit: u64, step: Option<u64>) -> u64
    ensures is { result ≡ above limit (option_to_list step) }
    ensures one { result ≤ 1 }
{
    match step {
        Some(step) if limit < step => 1,
        _ => 0,
    }
}
