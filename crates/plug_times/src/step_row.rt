//! What is kept of the PCRs of each PID.

use crate::clock_steps::ClockSteps;
use crate::stamp::Stamp;
use std::alloc::{AllocError, Global};
use ts_packet::{PID_COUNT, PidRow};

/// The steps of the PCRs of each PID.
#[derive(Drop)]
pub struct StepRow {
    steps: PidRow<ClockSteps>,
}

impl StepRow {
    ghost use Rattle.std.specs.Prelude.{◌≡◌, ◌<◌, ◌++◌, ◌∷◌, [], ℕ, List, IfOk};
    ghost use Rattle.std.specs.List.{slice_index_or};
    ghost use Rattle.plug_times.specs.ClockSteps.{HasRowRoom, IsStepped, no_steps};
    ghost use Rattle.plug_times.specs.declared.stamp.Stamp.{Stamp as GivenStamp};

    /// No PCR yet on any PID. Allocates 384 KiB.
    pub fn new(alloc: Global) -> Result<StepRow, AllocError>
        ensures { IfOk result (λ row. IsStepped row []) }
    {
        Ok(StepRow {
            steps: PidRow::filled(alloc, ClockSteps::none())?,
        })
    }

    /// With what one more packet told: its PCR, if it has one, is the next one of its PID.
    pub fn add(&mut self, stamp: &Stamp)
        requires on_pid { stamp.now.pid < PID_COUNT }
        requires room { HasRowRoom self.old }
        ensures { (stamps : List GivenStamp) → IsStepped self.old stamps → IsStepped self.new (stamps ++ stamp.now ∷ []) }
    {
        let Some(clock) = stamp.clock else {
            return;
        };
        let steps = self.steps.get(stamp.pid).with(clock, stamp.jumps);
        self.steps.set(stamp.pid, steps);
    }

    /// What is kept of a PID.
    pub fn on(&self, pid: u16) -> ClockSteps
        requires { pid < PID_COUNT }
        ensures { result ≡ slice_index_or self.now.steps pid no_steps }
    {
        self.steps.get(pid)
    }
}
