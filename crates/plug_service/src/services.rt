//! The services of a PAT (ISO/IEC 13818-1, 2.4.4.3).

ghost use Rattle.std.specs.Prelude.{◌≡◌, ◌==◌, IfOk, count_by, filter, map, option_map};
ghost use Rattle.std.specs.List.{filter_map};
ghost use Rattle.std.specs.Option.{option_copied};
ghost use Rattle.ts_psi.specs.PatTables.{pat_held, service_item};
ghost use Rattle.plug_psi.specs.InForce.{service_in};
ghost use Rattle.plug_service.specs.Actions;
ghost use Rattle.plug_service.specs.Actions.{more_entries};
ghost use Rattle.plug_service.specs.ServiceEdits;

use crate::way::Way;
use named_services::ServiceList;
use plug_psi::{number_and_pid, pid_of_service};
use std::alloc::{AllocError, Global};
use ts_psi::{Pat, PatService};

/// The PIDs of the PMTs of services: of each service that a PAT has, that of its first entry.
pub(crate) fn pmt_pids(
    alloc: Global,
    pat: Option<&Pat>,
    services: &[u16],
) -> Result<Vec<u16>, AllocError>
    ensures { IfOk result (λ pids. pids.items ≡ Actions.pmt_pids services.now (option_map pat_held (option_copied pat.entry))) }
{
    let mut pids = Vec::new(alloc);
    for service in services {
        if let Some(pid) = pid_of_service(pat, *service) {
            pids.push(pid)?;
        }
    }
    Ok(pids)
}

/// Those of some services' PIDs that further entries of a PAT have.
pub(crate) fn shared_pids(
    alloc: Global,
    pat: Option<&Pat>,
    firsts: &[u16],
) -> Result<Vec<u16>, AllocError>
    ensures { IfOk result (λ pids. pids.items
        ≡ filter (more_entries firsts.now (option_map pat_held (option_copied pat.entry))) firsts.now) }
{
    let mut pids = Vec::new(alloc);
    for pid in firsts {
        if has_more_entries(firsts, pat, *pid) {
            pids.push(*pid)?;
        }
    }
    Ok(pids)
}

/// Whether more entries of a PAT than some services' first ones have a PID.
fn has_more_entries(firsts: &[u16], pat: Option<&Pat>, pid: u16) -> bool
    ensures { result ≡ more_entries firsts.now (option_map pat_held (option_copied pat.entry)) pid }
{
    match pat {
        Some(pat) => count_of(firsts, pid) < entries_on(pat.services.as_slice(), pid),
        None => false,
    }
}

/// How often a PID is among others.
fn count_of(pids: &[u16], at: u16) -> usize
    ensures { result ≡ count_by (λ pid. pid == at) pids.now }
{
    pids.iter().filter(|pid| **pid == at).count()
}

/// How many services have this PID.
fn entries_on(services: &[PatService], at: u16) -> usize
    ensures { result ≡ count_by (λ entry. entry.1 == at) (filter_map service_in (map service_item services.now)) }
{
    let mut count = 0;
    for service in services {
        let (_, pid) = number_and_pid(service);
        count += usize::from(pid == at);
    }
    count
}

/// Whether the entries with a number stay.
pub(crate) fn stays(way: Way, services: &ServiceList, id: u16) -> bool
    ensures { result ≡ ServiceEdits.stays way services.now id }
{
    match way {
        Way::Keep(_) => services.has(id),
        Way::Remove { .. } => !services.has(id),
    }
}
