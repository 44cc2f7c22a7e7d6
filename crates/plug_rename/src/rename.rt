//! The plugin `svrename`.

ghost use Rattle.std.specs.Prelude.{◌≡◌, [], None, IfOk};
ghost use Rattle.plug_rename.specs.RenameRule.{rename_rule};
ghost use Rattle.plug_rename.specs.RenameSettings.{IsValidRename};

use crate::rename_conf::RenameConf;
use crate::rename_steps::RenameSteps;
use plugin_trait::{Plugin, Silent};
use std::alloc::{AllocError, Global};

/// Gives a service of a transport stream another number, or other texts.
///
/// With another number, PID 0 carries the PAT with this number in the service's entries, the PID of its first entry its PMTs with
/// it, PID 16 the NIT of the actual network and PID 17 the BATs with it in the service's items of the transport stream of the PAT
/// in force, and PID 18 the service's EIT sections with it. PID 17 carries the SDT of the actual transport stream with number and
/// texts. All other packets pass. PID 0 is refused where the PAT in force has the number for another service.
pub type Rename = Silent<RenameSteps>;

/// A new `svrename`, which has processed no packet. Its steps allocate memory. If a step runs out of memory, every later one
/// does too.
pub fn new_rename(alloc: Global, conf: &RenameConf, _buffer: usize) -> Result<Rename, AllocError>
    requires { IsValidRename conf.now }
    ensures rule { IfOk result (λ plugin. ⟦<Rename as Plugin>⟧.rule plugin ≡ rename_rule conf.now) }
    ensures fresh { IfOk result (λ plugin. ⟦<Rename as Plugin>⟧.stands_for plugin [] 0) }
    ensures preallocated { IfOk result (λ plugin. ⟦<Rename as Plugin>⟧.preallocated plugin ≡ None) }
{
    let steps = RenameSteps::new(alloc, conf)?;
    Ok(Silent { steps })
}
