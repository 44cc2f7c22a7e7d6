//! The edit of a PAT (ISO/IEC 13818-1, 2.4.4.3).

ghost use Rattle.std.specs.Prelude.{◌≡◌, ◌<◌, IfOk, IfSome, OnOk, length, map};
ghost use Rattle.std.specs.List.{All, position};
ghost use Rattle.ts_packet.specs.declared.numbers.TheConstants.{PID_COUNT};
ghost use Rattle.ts_psi.specs.PatTables.{pat_held, service_item};
ghost use Rattle.plug_edit.specs.PatEdit.{edited_pat, is_service, with_service, with_services, without_services};
ghost use Rattle.plug_edit.specs.PatSettings.{IsAddedService, IsValidPat};

use crate::numbers::{number_or, pid_or_held};
use crate::pat_conf::EditPatConf;
use crate::put_first::put_first;
use crate::versions::version_after;
use plugin_options::NumberSet;
use std::alloc::AllocError;
use ts_psi::{Pat, PatService, PatServiceList};

/// A PAT after the edit of `pat`. Services are removed, and then others are added, each in place of the first entry with
/// its number, or last. Then transport_stream_id, network PID and version are set. After `AllocError` nothing of the PAT
/// is left.
pub fn edit_pat(conf: &EditPatConf, pat: Pat) -> Result<Pat, AllocError>
    requires { IsValidPat conf.now }
    ensures { IfOk result (λ edited. pat_held edited ≡ edited_pat conf.now (pat_held pat)) }
{
    let Pat {
        version,
        current,
        stream_id,
        network_pid,
        services,
    } = pat;
    let mut services = services.into_vec();
    remove_services(&mut services, &conf.remove_service);
    add_services(&mut services, conf.add_service.as_slice())?;
    Ok(Pat {
        version: version_after(conf.new_version, conf.increment_version, version),
        current,
        stream_id: number_or(conf.ts_id, stream_id),
        network_pid: pid_or_held(conf.nit, network_pid),
        services: PatServiceList::of(services),
    })
}

/// Removes the services that are listed.
fn remove_services(services: &mut Vec<PatService>, listed: &NumberSet)
    ensures { map service_item services.new.items
        ≡ without_services listed.now (map service_item services.old.items) }
{
    services.retain(|service| !listed.has(u64::from(service.service_id)));
}

/// Adds services, one after another.
fn add_services(services: &mut Vec<PatService>, added: &[(u64, u64)]) -> Result<(), AllocError>
    requires { All IsAddedService added.now }
    ensures { OnOk result (map service_item services.new.items
        ≡ with_services (map service_item services.old.items) added.now) }
{
    for pair in added {
        add_service(services, pair.0 as u16, pair.1 as u16)?;
    }
    Ok(())
}

/// Adds a service, in place of the first entry with its number, or last.
fn add_service(services: &mut Vec<PatService>, service_id: u16, pid: u16) -> Result<(), AllocError>
    requires named { 0 < service_id }
    requires in_range { pid < PID_COUNT }
    ensures { OnOk result (map service_item services.new.items
        ≡ with_service (map service_item services.old.items) (service_id, pid)) }
{
    let place = place_of(services, service_id);
    put_first(services, place, PatService { service_id, pid })?;
    Ok(())
}

/// The index of the first entry of a service.
fn place_of(services: &[PatService], service_id: u16) -> Option<usize>
    ensures place { result ≡ position (is_service service_id) services.now }
    ensures in_range { IfSome result (λ i. i < length services.now) }
{
    services
        .iter()
        .position(|service| service.service_id == service_id)
}
