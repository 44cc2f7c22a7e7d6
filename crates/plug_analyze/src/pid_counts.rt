//! The numbers of the packets on a PID, by kind, and their line.
ghost use Rattle.std.specs.Prelude.{◌≡◌, IfOk};
ghost use Rattle.plug_analyze.specs.AnalyzeRule.{pid_text};

use plugin_trait::LineText;
use std::alloc::{AllocError, Global};

/// How many packets on a PID are of each kind.
#[derive(Clone, Copy, PartialEq, Eq)]
pub struct PidCounts {
    /// All of them.
    pub packets: u64,
    /// Those with a payload.
    pub payload: u64,
    /// Those that are scrambled.
    pub scrambled: u64,
    /// Those whose continuity counter is a fault.
    pub faults: u64,
    /// Those with a PCR.
    pub pcr: u64,
}

impl PidCounts {
    /// The text of the line on the PID.
    pub fn text(&self, alloc: Global, pid: u16) -> Result<LineText, AllocError>
        ensures { IfOk result (λ text. text ≡ pid_text pid self.now) }
    {
        let text = format!(in alloc;
            "pid {} packets {} payload {} scrambled {} faults {} pcr {}",
            pid, self.packets, self.payload, self.scrambled, self.faults, self.pcr
        )?;
        Ok(LineText::of(text))
    }
}
