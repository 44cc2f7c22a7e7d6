//! The PIDs that the PMTs in force name.
ghost use Rattle.std.specs.Prelude.{◌≡◌, ◌<◌, ◌++◌, ℕ, List, IfOk, OnOk, filter, map, option_map};
ghost use Rattle.std.specs.List.{All, filter_map, flat_map};
ghost use Rattle.std.specs.Option.{option_copied};
ghost use Rattle.ts_psi.specs.PatTables.{service_item};
ghost use Rattle.ts_psi.specs.PsiTables.{pmt_held};
ghost use Rattle.plugin_notes.specs.PidPackets.{numbers_below};
ghost use Rattle.plug_psi.specs.ForceStands.{StandsFor as Forced};
ghost use Rattle.plug_psi.specs.InForce.{service_in};
ghost use Rattle.plug_psi.specs.ServicePids.{pcr_pids};
ghost use Rattle.monitor_rows.specs.KeyRows.{has_number};
ghost use Rattle.monitor_services.specs.PidErrors.{pids_by, pids_in, pids_named, pids_of};
ghost use Rattle.monitor_services.specs.declared.limits.TheConstants.{PID_NUMBERS};

use crate::component_pids::add_sounding;
use crate::pid_kind::PidKind;
use crate::sorted_numbers::sort_numbers;
use plug_psi::{InForce, number_and_pid};
use std::alloc::{AllocError, Global};
use ts_packet::NULL_PID;
use ts_psi::{PatService, Pmt};

/// The PIDs that the PMTs in force of the services of the PAT in force name, ascending.
pub(crate) fn pids_in_order(
    alloc: Global,
    kind: PidKind,
    force: &InForce,
) -> Result<Vec<u32>, AllocError>
    ensures { IfOk result (λ numbers. (fed : List (List ℕ)) → Forced force.now fed
        → numbers.items ≡ filter (has_number (pids_named kind fed)) (numbers_below PID_NUMBERS)) }
{
    let mut numbers = Vec::new(alloc);
    if let Some(pat) = force.pat() {
        add_services(alloc, &mut numbers, kind, force, pat.services.as_slice())?;
    }
    sort_numbers(&mut numbers);
    Ok(numbers)
}

// Adds those of some services.
fn add_services(
    alloc: Global,
    numbers: &mut Vec<u32>,
    kind: PidKind,
    force: &InForce,
    services: &[PatService],
) -> Result<(), AllocError>
    ensures added { OnOk result ((fed : List (List ℕ)) → Forced force.now fed
        → numbers.new.items ≡ numbers.old.items ++ flat_map (pids_by kind fed) (filter_map service_in (map service_item services.now))) }
    ensures below { OnOk result (All (λ n. n < PID_NUMBERS) numbers.old.items → All (λ n. n < PID_NUMBERS) numbers.new.items) }
{
    for service in services {
        let (id, _) = number_and_pid(service);
        add_pmt(alloc, numbers, kind, force.pmt(id))?;
    }
    Ok(())
}

// Adds those of a PMT, if there is one.
fn add_pmt(
    alloc: Global,
    numbers: &mut Vec<u32>,
    kind: PidKind,
    pmt: Option<&Pmt>,
) -> Result<(), AllocError>
    ensures added { OnOk result (numbers.new.items ≡ numbers.old.items ++ pids_of kind (option_map pmt_held (option_copied pmt.entry))) }
    ensures below { OnOk result (All (λ n. n < PID_NUMBERS) numbers.old.items → All (λ n. n < PID_NUMBERS) numbers.new.items) }
{
    let Some(pmt) = pmt else {
        return Ok(());
    };
    match kind {
        PidKind::Component => add_sounding(alloc, numbers, pmt.components.as_slice()),
        PidKind::Clock => add_clock(numbers, pmt.pcr_pid),
    }
}

// Adds a PCR_PID, if there is a PCR.
fn add_clock(numbers: &mut Vec<u32>, pid: u16) -> Result<(), AllocError>
    ensures added { OnOk result (numbers.new.items ≡ numbers.old.items ++ pcr_pids pid) }
    ensures below { OnOk result (All (λ n. n < PID_NUMBERS) numbers.old.items → All (λ n. n < PID_NUMBERS) numbers.new.items) }
{
    if pid == NULL_PID {
        return Ok(());
    }
    numbers.push(u32::from(pid))?;
    Ok(())
}
