//! The plugin `zap`.

ghost use Rattle.std.specs.Prelude.{◌≡◌, [], None, IfOk};
ghost use Rattle.plug_service.specs.ServiceRule.{zap_rule};
ghost use Rattle.plug_service.specs.ServiceSettings.{IsValidService};

use crate::service_steps::ServiceSteps;
use crate::way::Way;
use crate::zap_conf::ZapConf;
use plugin_trait::{Plugin, Silent};
use std::alloc::{AllocError, Global};

/// Keeps some services of a transport stream, and removes all others.
///
/// PID 0 carries the PAT with only the network entry and the entries of these services. PID 17 carries the SDT of the actual
/// transport stream with only these services, and no other table but BATs where they are kept. PID 16 passes where NITs are
/// kept, PID 20 where TDTs and TOTs are, and where EITs are kept, PID 18 carries the EIT sections of these services as they
/// pass. The PIDs of the services' first entries carry their current PMTs, and no other table; services on one PID have
/// their PMTs there together. Packets on the PIDs of their PMTs in force pass: those of components, the PCR_PID and the
/// CA_PIDs. All other packets are dropped, or become null packets.
pub type Zap = Silent<ServiceSteps>;

/// A new `zap`, which has processed no packet. Its steps allocate memory. If a step runs out of memory, every later one does
/// too.
pub fn new_zap(alloc: Global, conf: &ZapConf, _buffer: usize) -> Result<Zap, AllocError>
    requires { IsValidService conf.now.service }
    ensures rule { IfOk result (λ plugin. ⟦<Zap as Plugin>⟧.rule plugin ≡ zap_rule conf.now) }
    ensures fresh { IfOk result (λ plugin. ⟦<Zap as Plugin>⟧.stands_for plugin [] 0) }
    ensures preallocated { IfOk result (λ plugin. ⟦<Zap as Plugin>⟧.preallocated plugin ≡ None) }
{
    Ok(Silent {
        steps: ServiceSteps::new(
            alloc,
            Way::Keep(conf.kept),
            &conf.service.services,
            conf.service.stuffing,
        )?,
    })
}
