//! The conditional access systems that descriptors name.
ghost use Rattle.std.specs.Prelude.{◌≡◌, ◌==◌, ◌++◌, IfOk, OnOk, option_to_list};
ghost use Rattle.std.specs.List.{list_any};
ghost use Rattle.plug_info.specs.CaSystems.{ids_of, system_ids, system_of, systems_of, with_id};

use std::alloc::{AllocError, Global};
use ts_bits::Descriptor;
use ts_descr_mpeg::MpegDescr;

/// A conditional access system, and the PID of its ECMs or EMMs (ISO/IEC 13818-1, 2.6.16).
#[derive(Clone, Copy, PartialEq, Eq)]
pub struct CaSystem {
    /// CA_system_id.
    pub id: u16,
    /// CA_PID.
    pub pid: u16,
}

/// Adds the systems of descriptors, in their order.
pub fn add_systems(
    alloc: Global,
    systems: &mut Vec<CaSystem>,
    descriptors: &[Descriptor],
) -> Result<(), AllocError>
    ensures { OnOk result (systems.new.items ≡ systems.old.items ++ systems_of descriptors.now) }
{
    for descriptor in descriptors {
        add_system(alloc, systems, descriptor)?;
    }
    Ok(())
}

// Adds the system of a descriptor, if it is a CA_descriptor.
fn add_system(
    alloc: Global,
    systems: &mut Vec<CaSystem>,
    descriptor: &Descriptor,
) -> Result<(), AllocError>
    ensures { OnOk result (systems.new.items ≡ systems.old.items ++ system_of descriptor.now) }
{
    match system_of(alloc, descriptor)? {
        Some(system) => {
            systems.push(system)?;
            Ok(())
        }
        None => Ok(()),
    }
}

// The system of a descriptor, if it is a CA_descriptor.
fn system_of(alloc: Global, descriptor: &Descriptor) -> Result<Option<CaSystem>, AllocError>
    ensures { IfOk result (λ system. option_to_list system ≡ system_of descriptor.now) }
{
    match MpegDescr::read(alloc, descriptor)? {
        Some(MpegDescr::Ca(ca)) => Ok(Some(CaSystem {
            id: ca.ca_system_id,
            pid: ca.ca_pid,
        })),
        _ => Ok(None),
    }
}

/// The CA_system_ids of descriptors, in their order; of equal ones the first.
pub fn system_ids(alloc: Global, descriptors: &[Descriptor]) -> Result<Vec<u16>, AllocError>
    ensures { IfOk result (λ ids. ids.items ≡ system_ids descriptors.now) }
{
    let mut systems = Vec::new(alloc);
    add_systems(alloc, &mut systems, descriptors)?;
    let ids = ids_of(alloc, &systems)?;
    Ok(ids)
}

// Those of systems.
fn ids_of(alloc: Global, systems: &[CaSystem]) -> Result<Vec<u16>, AllocError>
    ensures { IfOk result (λ ids. ids.items ≡ ids_of systems.now) }
{
    let mut ids = Vec::new(alloc);
    for system in systems {
        push_id(&mut ids, system.id)?;
    }
    Ok(ids)
}

// Appends an id, unless it is there.
fn push_id(ids: &mut Vec<u16>, id: u16) -> Result<(), AllocError>
    ensures { OnOk result (ids.new.items ≡ with_id ids.old.items id) }
{
    if has_id(ids, id) {
        return Ok(());
    }
    ids.push(id)?;
    Ok(())
}

// Whether an id is there.
fn has_id(ids: &[u16], id: u16) -> bool
    ensures { result ≡ list_any (λ held. held == id) ids.now }
{
    for held in ids {
        if *held == id {
            return true;
        }
    }
    false
}
