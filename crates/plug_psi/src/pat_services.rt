//! The services of a PAT (ISO/IEC 13818-1, 2.4.4.3).

ghost use Rattle.std.specs.Prelude.{◌≡◌, ◌<◌, ◌==◌, Some, map, option_map};
ghost use Rattle.std.specs.List.{filter_map};
ghost use Rattle.std.specs.Map.{lookup};
ghost use Rattle.std.specs.Option.{option_copied};
ghost use Rattle.ts_psi.specs.PatTables.{pat_held, service_item};
ghost use Rattle.plug_psi.specs.InForce.{pid_for, service_in};

use ts_packet::PID_COUNT;
use ts_psi::{Pat, PatService};

/// The number and the PID of a service.
pub fn number_and_pid(service: &PatService) -> (u16, u16)
    ensures pair { service_in (service_item service.now) ≡ Some (result.0, result.1) }
    ensures in_range { result.1 < PID_COUNT }
{
    (service.service_id, service.pid)
}

/// The PID of the first entry of a service in a PAT, if there is one.
pub fn pid_of_service(pat: Option<&Pat>, service: u16) -> Option<u16>
    ensures { result ≡ pid_for (option_map pat_held (option_copied pat.entry)) service }
{
    match pat {
        Some(pat) => pid_among(pat.services.as_slice(), service),
        None => None,
    }
}

/// The PID of the first of some services with this number.
pub(crate) fn pid_among(services: &[PatService], id: u16) -> Option<u16>
    ensures { result ≡ lookup (λ n. n == id) (filter_map service_in (map service_item services.now)) }
{
    for service in services {
        let (its, pid) = number_and_pid(service);
        if its == id {
            return Some(pid);
        }
    }
    None
}
