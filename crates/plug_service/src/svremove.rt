//! The plugin `svremove`.

ghost use Rattle.std.specs.Prelude.{◌≡◌, [], None, IfOk};
ghost use Rattle.plug_service.specs.ServiceRule.{svremove_rule};
ghost use Rattle.plug_service.specs.ServiceSettings.{IsValidService};

use crate::service_steps::ServiceSteps;
use crate::svremove_conf::SvremoveConf;
use crate::way::Way;
use plugin_trait::{Plugin, Silent};
use std::alloc::{AllocError, Global};

/// Removes some services of a transport stream.
///
/// PID 0 carries the PAT without the entries of these services, and PID 17 the SDT of the actual transport stream without
/// the services; other tables there stay. Packets on the PIDs of the services' first entries are dropped, or become null
/// packets, unless another entry has that PID, one that is the first of none of them. The same holds for packets on those
/// PIDs above 31 of their PMTs in force that no PMT in force of another service of the PAT has. With `everywhere` PID 16
/// carries the NIT of the actual network, and PID 17 the BATs, without the services' items in the transport stream of the PAT in
/// force, and PID 18 all EIT sections but theirs. All other packets pass.
pub type Svremove = Silent<ServiceSteps>;

/// A new `svremove`, which has processed no packet. Its steps allocate memory. If a step runs out of memory, every later one
/// does too.
pub fn new_svremove(
    alloc: Global,
    conf: &SvremoveConf,
    _buffer: usize,
) -> Result<Svremove, AllocError>
    requires { IsValidService conf.now.service }
    ensures rule { IfOk result (λ plugin. ⟦<Svremove as Plugin>⟧.rule plugin ≡ svremove_rule conf.now) }
    ensures fresh { IfOk result (λ plugin. ⟦<Svremove as Plugin>⟧.stands_for plugin [] 0) }
    ensures preallocated { IfOk result (λ plugin. ⟦<Svremove as Plugin>⟧.preallocated plugin ≡ None) }
{
    let way = Way::Remove {
        everywhere: conf.everywhere,
    };
    Ok(Silent {
        steps: ServiceSteps::new(alloc, way, &conf.service.services, conf.service.stuffing)?,
    })
}
