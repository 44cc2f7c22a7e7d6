//! The PIDs of a service, as its PMT names them (ISO/IEC 13818-1, 2.4.4.8 and 2.6.16).

ghost use Rattle.std.specs.Prelude.{◌≡◌, ◌++◌, ◌∷◌, [], IfOk, OnOk, map, option_to_list};
ghost use Rattle.std.specs.List.{flat_map};
ghost use Rattle.ts_descr.specs.Descriptors.{read_typed};
ghost use Rattle.ts_descr_mpeg.specs.MpegDescrs.{mpeg_pages};
ghost use Rattle.ts_psi.specs.PsiTables.{component_item, pmt_held};
ghost use Rattle.plug_psi.specs.ServicePids.{ca_pid_of, ca_pids, component_pids, pcr_pids, pids_in};

use std::alloc::{AllocError, Global};
use ts_bits::Descriptor;
use ts_descr_mpeg::MpegDescr;
use ts_packet::NULL_PID;
use ts_psi::{Component, Pmt};

/// Adds the PIDs of a PMT: its PCR_PID, unless that is 8191, the CA_PIDs of its CA descriptors, and of each component the
/// PID and the CA_PIDs.
pub fn add_pids(alloc: Global, pids: &mut Vec<u16>, pmt: &Pmt) -> Result<(), AllocError>
    ensures { OnOk result (pids.new.items ≡ pids.old.items ++ pids_in (pmt_held pmt.now)) }
{
    add_pcr_pid(pids, pmt.pcr_pid)?;
    add_ca_pids(alloc, pids, pmt.descriptors.as_slice())?;
    add_component_pids(alloc, pids, pmt.components.as_slice())
}

/// Adds the PCR_PID, if there is a PCR.
fn add_pcr_pid(pids: &mut Vec<u16>, pid: u16) -> Result<(), AllocError>
    ensures { OnOk result (pids.new.items ≡ pids.old.items ++ pcr_pids pid) }
{
    if pid == NULL_PID {
        return Ok(());
    }
    pids.push(pid)?;
    Ok(())
}

/// Adds the PIDs of components.
fn add_component_pids(
    alloc: Global,
    pids: &mut Vec<u16>,
    components: &[Component],
) -> Result<(), AllocError>
    ensures { OnOk result (pids.new.items ≡ pids.old.items ++ flat_map component_pids (map component_item components.now)) }
{
    for component in components {
        add_component_pid(alloc, pids, component)?;
    }
    Ok(())
}

/// Adds the PID of a component and the CA_PIDs of its descriptors.
fn add_component_pid(
    alloc: Global,
    pids: &mut Vec<u16>,
    component: &Component,
) -> Result<(), AllocError>
    ensures { OnOk result (pids.new.items ≡ pids.old.items ++ component_pids (component_item component.now)) }
{
    pids.push(component.pid)?;
    add_ca_pids(alloc, pids, component.descriptors.as_slice())
}

/// Adds the CA_PIDs of descriptors.
pub(crate) fn add_ca_pids(
    alloc: Global,
    pids: &mut Vec<u16>,
    descriptors: &[Descriptor],
) -> Result<(), AllocError>
    ensures { OnOk result (pids.new.items ≡ pids.old.items ++ ca_pids descriptors.now) }
{
    for descriptor in descriptors {
        add_ca_pid(alloc, pids, descriptor)?;
    }
    Ok(())
}

/// Adds the CA_PID of a descriptor, if it is a CA_descriptor.
fn add_ca_pid(alloc: Global, pids: &mut Vec<u16>, descriptor: &Descriptor) -> Result<(), AllocError>
    ensures { OnOk result (pids.new.items ≡ pids.old.items ++ ca_pid_of descriptor.now) }
{
    match ca_pid_of(alloc, descriptor)? {
        Some(pid) => {
            pids.push(pid)?;
            Ok(())
        }
        None => Ok(()),
    }
}

/// The CA_PID of a descriptor, if it is a CA_descriptor.
fn ca_pid_of(alloc: Global, descriptor: &Descriptor) -> Result<Option<u16>, AllocError>
    ensures { IfOk result (λ pid. option_to_list pid ≡ ca_pid_of descriptor.now) }
{
    match MpegDescr::read(alloc, descriptor)? {
        Some(MpegDescr::Ca(ca)) => Ok(Some(ca.ca_pid)),
        _ => Ok(None),
    }
}
