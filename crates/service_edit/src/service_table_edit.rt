//! An edit that each PID gets a copy of.

use plug_psi::TableEdit;
use std::alloc::{AllocError, Global};

/// An edit of tables that can be copied: each PID on which the service has its PMT gets one.
pub trait ServiceTableEdit: TableEdit + Drop {
    ghost use Rattle.std.specs.Prelude.{◌≡◌, IfOk};

    /// An edit that makes the same of tables.
    fn copy(&self, alloc: Global) -> Result<Self, AllocError>
        ensures { IfOk result (λ edit. Self.change edit ≡ Self.change self.now) };
}
