//! The action of the packets on each PID, by tables in force.

ghost use Rattle.std.specs.Prelude.{◌≡◌, ℕ, ◌<◌, ◌++◌, ◌&&◌, not, false, List, [], Option, IfOk, OnOk, map, slice_index_or};
ghost use Rattle.std.specs.List.{filter_map, flat_map};
ghost use Rattle.ts_psi.specs.PatTables.{service_item};
ghost use Rattle.plug_psi.specs.InForce.{pat_of, pmt_of, service_in};
ghost use Rattle.plug_psi.specs.ForceStands.{StandsFor as Forced};
ghost use Rattle.plug_psi.specs.PidFlags.{AreFlags};
ghost use Rattle.plug_psi.specs.ServicePids.{has_pid, pids_of};
ghost use Rattle.plug_service.specs.Actions;
ghost use Rattle.plug_service.specs.Actions.{IsEditable, action_by, other_pids, pids_besides};
ghost use Rattle.plug_service.specs.ActionsState.{AreActions, protected_pids};
ghost use Rattle.plug_service.specs.declared.action.Action.TheVariants.{EditPmt, Drop as Dropped};

use crate::action::Action;
use crate::kept::Kept;
use crate::limits::{EIT_PID, LAST_FIXED_PID, NIT_PID, PAT_PID, SDT_PID, TIME_PID};
use crate::present::Present;
use crate::services::{pmt_pids, shared_pids};
use crate::way::Way;
use named_services::ServiceList;
use plug_psi::{InForce, add_pids, number_and_pid, tell};
use std::alloc::{AllocError, Global};
use ts_packet::{NULL_PID, PID_COUNT, PidRow};
use ts_psi::PatService;

/// The action of the packets on each PID by the tables in force.
pub(crate) fn action_row(
    alloc: Global,
    present: &Present,
    force: &InForce,
) -> Result<PidRow<Action>, AllocError>
    ensures editable { IfOk result (λ row. (pid : ℕ) → pid < PID_COUNT → slice_index_or row pid Dropped ≡ EditPmt → pid < NULL_PID) }
    ensures stands { IfOk result (λ row. (fed : List (List ℕ)) → Forced force.now fed
        → AreActions present.now.way present.now.services row (pat_of fed) (λ other. pmt_of other fed)) }
{
    let way = present.way;
    let services = &present.services;
    let own = own_pids(alloc, force, services.as_slice())?;
    let others = pids_to_spare(alloc, way, force, services)?;
    let firsts = pmt_pids(alloc, force.pat(), services.as_slice())?;
    let shared = shared_pids(alloc, force.pat(), &firsts)?;
    let flags = flags_of(alloc, &own, &others)?;
    let of_pmts = flags_of(alloc, &firsts, &[])?;
    let shared = flags_of(alloc, &shared, &[])?;
    let row = PidRow::of(
        alloc,
        |pid: u16| action_by(way, &of_pmts, &shared, &flags, pid),
    )?;
    Ok(row)
}

/// The flags of some PIDs, others left out.
fn flags_of(alloc: Global, pids: &[u16], others: &[u16]) -> Result<PidRow<bool>, AllocError>
    ensures { IfOk result (λ flags. AreFlags flags (λ pid. has_pid pids.now pid && not (has_pid others.now pid))) }
{
    let mut flags = PidRow::filled(alloc, false)?;
    tell(&mut flags, pids, others);
    Ok(flags)
}

/// The action of the packets on a PID by three flags of it: whether the services have PMTs on it, whether another entry of
/// the PAT has the same, and whether the services' PMTs have it; if the services are removed, and no other's.
fn action_by(
    way: Way,
    of_pmts: &PidRow<bool>,
    shared: &PidRow<bool>,
    flags: &PidRow<bool>,
    pid: u16,
) -> Action
    ensures tells { pid < PID_COUNT → result ≡ action_by way (slice_index_or of_pmts.now pid false)
        (slice_index_or shared.now pid false) (slice_index_or flags.now pid false) pid }
    ensures editable { IsEditable result pid }
{
    let of_pmt = of_pmts.get_or(pid, false);
    let flag = flags.get_or(pid, false);
    match way {
        Way::Keep(kept) => edited_first(pid, kept_first(kept, pid, kept_action(of_pmt, flag, pid))),
        Way::Remove { everywhere } => {
            let is_shared = shared.get_or(pid, false);
            let other = removed_action(of_pmt, is_shared, flag, pid);
            edited_first(pid, removed_first(everywhere, pid, other))
        }
    }
}

/// The action of packets on PID 0 or PID 17; on any other PID it is `other`.
#[inline]
fn edited_first(pid: u16, other: Action) -> Action
    ensures { result ≡ Actions.edited_first pid other }
{
    if pid == PAT_PID {
        Action::EditPat
    } else if pid == SDT_PID {
        Action::EditSdt
    } else {
        other
    }
}

/// The action of packets on a PID of other tables that are kept; on any other PID it is `other`.
#[inline]
fn kept_first(kept: Kept, pid: u16, other: Action) -> Action
    requires editable { IsEditable other pid }
    ensures tells { result ≡ Actions.kept_first kept pid other }
    ensures editable { IsEditable result pid }
{
    if kept.nit && pid == NIT_PID {
        Action::Pass
    } else if kept.time && pid == TIME_PID {
        Action::Pass
    } else if kept.eit && pid == EIT_PID {
        Action::EditEit
    } else {
        other
    }
}

/// The action of packets on a PID whose tables are edited too if services are removed everywhere; on any other PID it is
/// `other`.
#[inline]
fn removed_first(everywhere: bool, pid: u16, other: Action) -> Action
    requires editable { IsEditable other pid }
    ensures tells { result ≡ Actions.removed_first everywhere pid other }
    ensures editable { IsEditable result pid }
{
    if everywhere && pid == NIT_PID {
        Action::EditNit
    } else if everywhere && pid == EIT_PID {
        Action::EditEit
    } else {
        other
    }
}

/// The action of packets on other PIDs, if the services are kept.
#[inline]
fn kept_action(is_of_pmt: bool, is_in_pmt: bool, pid: u16) -> Action
    ensures tells { pid < PID_COUNT → result ≡ Actions.kept_action is_of_pmt is_in_pmt pid }
    ensures editable { IsEditable result pid }
{
    if is_of_pmt {
        if pid < NULL_PID {
            Action::EditPmt
        } else {
            Action::Drop
        }
    } else if is_in_pmt {
        Action::Pass
    } else {
        Action::Drop
    }
}

/// The action of packets on other PIDs, if the services are removed.
#[inline]
fn removed_action(is_of_pmt: bool, is_shared: bool, is_in_pmt_alone: bool, pid: u16) -> Action
    ensures tells { result ≡ Actions.removed_action is_of_pmt is_shared is_in_pmt_alone pid }
    ensures editable { IsEditable result pid }
{
    if is_of_pmt {
        if is_shared {
            Action::Pass
        } else {
            Action::Drop
        }
    } else if pid > LAST_FIXED_PID && is_in_pmt_alone {
        Action::Drop
    } else {
        Action::Pass
    }
}

/// The PIDs that the PMTs in force of services have.
fn own_pids(alloc: Global, force: &InForce, services: &[u16]) -> Result<Vec<u16>, AllocError>
    ensures { IfOk result (λ pids. (fed : List (List ℕ)) → Forced force.now fed
        → pids.items ≡ Actions.own_pids services.now (λ other. pmt_of other fed)) }
{
    let mut pids = Vec::new(alloc);
    for service in services {
        add_own(alloc, &mut pids, force, *service)?;
    }
    Ok(pids)
}

/// Adds the PIDs of the PMT in force of a service, if there is one.
fn add_own(
    alloc: Global,
    pids: &mut Vec<u16>,
    force: &InForce,
    service: u16,
) -> Result<(), AllocError>
    ensures { OnOk result ((fed : List (List ℕ)) → Forced force.now fed
        → pids.new.items ≡ pids.old.items ++ pids_of (pmt_of service fed)) }
{
    match force.pmt(service) {
        Some(pmt) => add_pids(alloc, pids, pmt),
        None => Ok(()),
    }
}

/// The PIDs whose flags are not set even if the services' PMTs have them: if the services are removed, those of the PMTs in
/// force of other services; if they are kept, none.
fn pids_to_spare(
    alloc: Global,
    way: Way,
    force: &InForce,
    services: &ServiceList,
) -> Result<Vec<u16>, AllocError>
    ensures { IfOk result (λ pids. (fed : List (List ℕ)) → Forced force.now fed
        → pids.items ≡ protected_pids way services.now (pat_of fed) (λ other. pmt_of other fed)) }
{
    match way {
        Way::Keep(_) => Ok(Vec::new(alloc)),
        Way::Remove { .. } => other_pids(alloc, force, services),
    }
}

/// The PIDs of the PMTs in force of the other services of the PAT in force.
fn other_pids(
    alloc: Global,
    force: &InForce,
    services: &ServiceList,
) -> Result<Vec<u16>, AllocError>
    ensures { IfOk result (λ pids. (fed : List (List ℕ)) → Forced force.now fed
        → pids.items ≡ other_pids services.now (pat_of fed) (λ other. pmt_of other fed)) }
{
    match force.pat() {
        Some(pat) => pids_of_others(alloc, force, services, pat.services.as_slice()),
        None => Ok(Vec::new(alloc)),
    }
}

/// The PIDs of the PMTs in force of the entries of a PAT, except those of some services.
fn pids_of_others(
    alloc: Global,
    force: &InForce,
    services: &ServiceList,
    entries: &[PatService],
) -> Result<Vec<u16>, AllocError>
    ensures { IfOk result (λ pids. (fed : List (List ℕ)) → Forced force.now fed
        → pids.items ≡ flat_map (pids_besides services.now (λ other. pmt_of other fed)) (filter_map service_in (map service_item entries.now))) }
{
    let mut pids = Vec::new(alloc);
    for entry in entries {
        let (id, _) = number_and_pid(entry);
        add_besides(alloc, &mut pids, force, services, id)?;
    }
    Ok(pids)
}

/// Adds the PIDs of the PMT in force of the service `id`, unless this is one of `services`.
fn add_besides(
    alloc: Global,
    pids: &mut Vec<u16>,
    force: &InForce,
    services: &ServiceList,
    id: u16,
) -> Result<(), AllocError>
    ensures { OnOk result ((fed : List (List ℕ)) (pid : ℕ) → Forced force.now fed
        → pids.new.items ≡ pids.old.items ++ pids_besides services.now (λ other. pmt_of other fed) (id, pid)) }
{
    if services.has(id) {
        return Ok(());
    }
    add_own(alloc, pids, force, id)
}
