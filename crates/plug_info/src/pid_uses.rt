//! What PIDs are used for that are not a component's.
ghost use Rattle.std.specs.Prelude.{◌≡◌, ◌++◌, ℕ, List, IfOk, OnOk, map, option_map, option_to_list};
ghost use Rattle.std.specs.List.{filter_map, flat_map};
ghost use Rattle.std.specs.Option.{option_copied};
ghost use Rattle.ts_psi.specs.CatTables.{cat_held};
ghost use Rattle.ts_psi.specs.PatTables.{pat_held, service_item};
ghost use Rattle.ts_psi.specs.PsiTables.{component_item, pmt_held};
ghost use Rattle.plug_psi.specs.ForceStands.{StandsFor as Forced};
ghost use Rattle.plug_psi.specs.InForce.{pmt_of, service_in};
ghost use Rattle.plug_psi.specs.ServicePids.{has_pid};
ghost use Rattle.plug_info.specs.CaSystems.{cat_systems, ecm_systems, pmt_systems, systems_of};
ghost use Rattle.plug_info.specs.PidUses.{is_of_one, is_pid, network_pid_in, pcr_pids};
ghost use Rattle.plug_info.specs.PmtFields.{pcr_pid_in};

use crate::ca_system::{CaSystem, add_systems};
use crate::users::services_of;
use plug_info_texts::pid_name;
use plug_psi::{InForce, number_and_pid};
use std::alloc::{AllocError, Global};
use ts_psi::{Cat, Component, Pat, PatService, Pmt};

/// The PIDs that the PMTs and the CAT in force name for other things than components.
#[derive(Drop)]
pub struct PidUses {
    /// The PCR_PIDs.
    pcr: Vec<u16>,
    /// The conditional access systems of PMTs.
    ecm: Vec<CaSystem>,
    /// Those of the CAT.
    emm: Vec<CaSystem>,
}

impl PidUses {
    ghost use Rattle.std.specs.Prelude.{◌≡◌, ℕ, List, IfOk, option_map};
    ghost use Rattle.std.specs.Option.{option_copied};
    ghost use Rattle.ts_psi.specs.CatTables.{cat_held};
    ghost use Rattle.plug_psi.specs.CatInForce.{cat_of};
    ghost use Rattle.plug_psi.specs.ForceStands.{StandsFor as Forced};
    ghost use Rattle.plug_info.specs.PidUses.{named_use, use_of};
    ghost use Rattle.plug_info.specs.UsesOf.{AreUses};

    /// Those of the tables in force.
    pub fn of(alloc: Global, force: &InForce, cat: Option<&Cat>) -> Result<PidUses, AllocError>
        ensures { IfOk result (λ uses. (fed : List (List ℕ)) → Forced force.now fed
            → option_map cat_held (option_copied cat.entry) ≡ cat_of fed → AreUses uses fed) }
    {
        let pcr = pcr_pids(alloc, force)?;
        let ecm = ecm_systems(alloc, force)?;
        let emm = emm_systems(alloc, cat)?;
        Ok(PidUses { pcr, ecm, emm })
    }

    /// The use of a PID that is not a component's.
    pub fn name(&self, force: &InForce, pid: u16) -> &'static str
        ensures { (fed : List (List ℕ)) → Forced force.now fed → AreUses self.now fed → result.now ≡ use_of fed pid }
    {
        match pid_name(pid) {
            Some(name) => name,
            None => self.named_use(force, pid),
        }
    }

    // Its use by the tables in force.
    fn named_use(&self, force: &InForce, pid: u16) -> &'static str
        ensures { (fed : List (List ℕ)) → Forced force.now fed → AreUses self.now fed → result.now ≡ named_use fed pid }
    {
        if force.names(pid) {
            return "PMT";
        }
        if is_network_pid(force.pat(), pid) {
            return "NIT";
        }
        if has_pid(&self.pcr, pid) {
            return "PCR";
        }
        if is_of_one(&self.ecm, pid) {
            return "ECM";
        }
        if is_of_one(&self.emm, pid) {
            return "EMM";
        }
        "unnamed"
    }
}

// Whether a PID is the network PID of a PAT.
fn is_network_pid(pat: Option<&Pat>, pid: u16) -> bool
    ensures { result ≡ is_pid (network_pid_in (option_map pat_held (option_copied pat.entry))) pid }
{
    match pat {
        Some(pat) => is_number(pat.network_pid, pid),
        None => false,
    }
}

// Whether there is a number, and it is this one.
fn is_number(number: Option<u16>, pid: u16) -> bool
    ensures { result ≡ is_pid number pid }
{
    match number {
        Some(number) => number == pid,
        None => false,
    }
}

// Whether a PID is among others.
fn has_pid(pids: &[u16], pid: u16) -> bool
    ensures { result ≡ has_pid pids.now pid }
{
    for one in pids {
        if *one == pid {
            return true;
        }
    }
    false
}

// Whether one of some systems has a PID.
fn is_of_one(systems: &[CaSystem], pid: u16) -> bool
    ensures { result ≡ is_of_one systems.now pid }
{
    for system in systems {
        if system.pid == pid {
            return true;
        }
    }
    false
}

// The PCR_PIDs of the PMTs in force.
fn pcr_pids(alloc: Global, force: &InForce) -> Result<Vec<u16>, AllocError>
    ensures { IfOk result (λ pids. (fed : List (List ℕ)) → Forced force.now fed → pids.items ≡ pcr_pids fed) }
{
    let mut pids = Vec::new(alloc);
    add_pcr_pids(&mut pids, force, services_of(force))?;
    Ok(pids)
}

// Adds the PCR_PIDs of the PMTs in force of services.
fn add_pcr_pids(
    pids: &mut Vec<u16>,
    force: &InForce,
    services: &[PatService],
) -> Result<(), AllocError>
    ensures { OnOk result ((fed : List (List ℕ)) → Forced force.now fed
        → pids.new.items ≡ pids.old.items
        ++ flat_map (λ service. option_to_list (pcr_pid_in (pmt_of service.0 fed))) (filter_map service_in (map service_item services.now))) }
{
    for service in services {
        let (id, _) = number_and_pid(service);
        add_pcr_pid(pids, force.pmt(id))?;
    }
    Ok(())
}

// Adds the PCR_PID of a PMT, if there is one.
fn add_pcr_pid(pids: &mut Vec<u16>, pmt: Option<&Pmt>) -> Result<(), AllocError>
    ensures { OnOk result (pids.new.items ≡ pids.old.items
        ++ option_to_list (pcr_pid_in (option_map pmt_held (option_copied pmt.entry)))) }
{
    match pmt {
        Some(pmt) => {
            pids.push(pmt.pcr_pid)?;
            Ok(())
        }
        None => Ok(()),
    }
}

// The conditional access systems of the PMTs in force.
fn ecm_systems(alloc: Global, force: &InForce) -> Result<Vec<CaSystem>, AllocError>
    ensures { IfOk result (λ systems. (fed : List (List ℕ)) → Forced force.now fed → systems.items ≡ ecm_systems fed) }
{
    let mut systems = Vec::new(alloc);
    add_ecm_systems(alloc, &mut systems, force, services_of(force))?;
    Ok(systems)
}

// Adds those of the PMTs in force of services.
fn add_ecm_systems(
    alloc: Global,
    systems: &mut Vec<CaSystem>,
    force: &InForce,
    services: &[PatService],
) -> Result<(), AllocError>
    ensures { OnOk result ((fed : List (List ℕ)) → Forced force.now fed
        → systems.new.items ≡ systems.old.items
        ++ flat_map (λ service. pmt_systems (pmt_of service.0 fed)) (filter_map service_in (map service_item services.now))) }
{
    for service in services {
        let (id, _) = number_and_pid(service);
        add_of_pmt(alloc, systems, force.pmt(id))?;
    }
    Ok(())
}

// Adds those of a PMT.
fn add_of_pmt(
    alloc: Global,
    systems: &mut Vec<CaSystem>,
    pmt: Option<&Pmt>,
) -> Result<(), AllocError>
    ensures { OnOk result (systems.new.items ≡ systems.old.items
        ++ pmt_systems (option_map pmt_held (option_copied pmt.entry))) }
{
    let Some(pmt) = pmt else {
        return Ok(());
    };
    add_systems(alloc, systems, pmt.descriptors.as_slice())?;
    add_of_components(alloc, systems, pmt.components.as_slice())?;
    Ok(())
}

// Adds those of components.
fn add_of_components(
    alloc: Global,
    systems: &mut Vec<CaSystem>,
    components: &[Component],
) -> Result<(), AllocError>
    ensures { OnOk result (systems.new.items ≡ systems.old.items
        ++ flat_map (λ x. systems_of x.descriptors) (map component_item components.now)) }
{
    for component in components {
        add_systems(alloc, systems, component.descriptors.as_slice())?;
    }
    Ok(())
}

/// The conditional access systems of a CAT.
pub fn emm_systems(alloc: Global, cat: Option<&Cat>) -> Result<Vec<CaSystem>, AllocError>
    ensures { IfOk result (λ systems. systems.items ≡ cat_systems (option_map cat_held (option_copied cat.entry))) }
{
    let mut systems = Vec::new(alloc);
    if let Some(cat) = cat {
        add_systems(alloc, &mut systems, cat.descriptors.as_slice())?;
    }
    Ok(systems)
}
