//! A service and the number of its components, and their line.
ghost use Rattle.std.specs.Prelude.{◌≡◌, IfOk};
ghost use Rattle.plug_analyze.specs.AnalyzeRule.{service_text};

use plugin_trait::LineText;
use std::alloc::{AllocError, Global};

/// A service of the PAT in force.
#[derive(Clone, Copy, PartialEq, Eq)]
pub struct ServiceCount {
    /// Its number.
    pub id: u16,
    /// The PID that its entry has for its PMT.
    pub pid: u16,
    /// How many components its PMT in force has; 0 where none is in force.
    pub components: u64,
}

impl ServiceCount {
    /// The text of the line on the service.
    pub fn text(&self, alloc: Global) -> Result<LineText, AllocError>
        ensures { IfOk result (λ text. text ≡ service_text self.now) }
    {
        let text = format!(in alloc;
            "service {} pmt {} components {}",
            self.id, self.pid, self.components
        )?;
        Ok(LineText::of(text))
    }
}
