//! The PIDs that the tables in force name.

ghost use Rattle.std.specs.Prelude.{◌≡◌, ℕ, ◌++◌, List, IfOk, OnOk, map, option_map};
ghost use Rattle.std.specs.List.{filter_map, flat_map};
ghost use Rattle.std.specs.Option.{option_copied};
ghost use Rattle.ts_psi.specs.CatTables.{cat_held};
ghost use Rattle.ts_psi.specs.PatTables.{network_items, pat_held, service_item};
ghost use Rattle.plug_psi.specs.InForce.{pat_of, pmt_of, service_in};
ghost use Rattle.plug_psi.specs.ForceStands.{StandsFor as Forced};
ghost use Rattle.plug_psi.specs.Referred.{cat_pids, entry_pid, entry_pids, named_pids, pids_by, service_pids};

use crate::in_force::InForce;
use crate::pat_services::number_and_pid;
use crate::pids_of_pmt::{add_ca_pids, add_pids};
use std::alloc::{AllocError, Global};
use ts_psi::{Cat, Pat, PatService};

/// The PIDs that the PAT, the PMTs and the CAT in force name, each as often as it is named.
pub(crate) fn named_pids(
    alloc: Global,
    force: &InForce,
    cat: Option<&Cat>,
) -> Result<Vec<u16>, AllocError>
    ensures { IfOk result (λ pids. (fed : List (List ℕ)) → Forced force.now fed
        → pids.items ≡ named_pids (pat_of fed) (λ service. pmt_of service fed) (option_map cat_held (option_copied cat.entry))) }
{
    let mut pids = Vec::new(alloc);
    add_entry_pids(&mut pids, force.pat())?;
    add_service_pids(alloc, &mut pids, force)?;
    add_cat_pids(alloc, &mut pids, cat)?;
    Ok(pids)
}

/// Adds the PIDs of the entries of a PAT, if there is one.
fn add_entry_pids(pids: &mut Vec<u16>, pat: Option<&Pat>) -> Result<(), AllocError>
    ensures { OnOk result (pids.new.items ≡ pids.old.items ++ entry_pids (option_map pat_held (option_copied pat.entry))) }
{
    let Some(pat) = pat else {
        return Ok(());
    };
    add_network_pid(pids, pat.network_pid)?;
    add_pids_of_entries(pids, pat.services.as_slice())?;
    Ok(())
}

/// Adds the network PID, if there is one.
fn add_network_pid(pids: &mut Vec<u16>, pid: Option<u16>) -> Result<(), AllocError>
    ensures { OnOk result (pids.new.items ≡ pids.old.items ++ map entry_pid (network_items pid)) }
{
    match pid {
        Some(pid) => {
            pids.push(pid)?;
            Ok(())
        }
        None => Ok(()),
    }
}

/// Adds the PIDs of the entries of services.
fn add_pids_of_entries(pids: &mut Vec<u16>, services: &[PatService]) -> Result<(), AllocError>
    ensures { OnOk result (pids.new.items ≡ pids.old.items ++ map entry_pid (map service_item services.now)) }
{
    for service in services {
        pids.push(service.pid)?;
    }
    Ok(())
}

/// Adds the PIDs of the PMTs in force of the services of the PAT in force.
fn add_service_pids(alloc: Global, pids: &mut Vec<u16>, force: &InForce) -> Result<(), AllocError>
    ensures { OnOk result ((fed : List (List ℕ)) → Forced force.now fed
        → pids.new.items ≡ pids.old.items ++ service_pids (pat_of fed) (λ service. pmt_of service fed)) }
{
    match force.pat() {
        Some(pat) => add_pids_of(alloc, pids, force, pat.services.as_slice()),
        None => Ok(()),
    }
}

/// Adds the PIDs of the PMTs in force of some services.
fn add_pids_of(
    alloc: Global,
    pids: &mut Vec<u16>,
    force: &InForce,
    services: &[PatService],
) -> Result<(), AllocError>
    ensures { OnOk result ((fed : List (List ℕ)) → Forced force.now fed
        → pids.new.items ≡ pids.old.items ++ flat_map (pids_by (λ service. pmt_of service fed)) (filter_map service_in (map service_item services.now))) }
{
    for entry in services {
        let (id, _) = number_and_pid(entry);
        add_pids_by(alloc, pids, force, id)?;
    }
    Ok(())
}

/// Adds the PIDs of the PMT in force of a service, if there is one.
fn add_pids_by(
    alloc: Global,
    pids: &mut Vec<u16>,
    force: &InForce,
    id: u16,
) -> Result<(), AllocError>
    ensures { OnOk result ((fed : List (List ℕ)) (pid : ℕ) → Forced force.now fed
        → pids.new.items ≡ pids.old.items ++ pids_by (λ service. pmt_of service fed) (id, pid)) }
{
    match force.pmt(id) {
        Some(pmt) => add_pids(alloc, pids, pmt),
        None => Ok(()),
    }
}

/// Adds the CA_PIDs of a CAT, if there is one.
fn add_cat_pids(alloc: Global, pids: &mut Vec<u16>, cat: Option<&Cat>) -> Result<(), AllocError>
    ensures { OnOk result (pids.new.items ≡ pids.old.items ++ cat_pids (option_map cat_held (option_copied cat.entry))) }
{
    match cat {
        Some(cat) => add_ca_pids(alloc, pids, cat.descriptors.as_slice()),
        None => Ok(()),
    }
}
