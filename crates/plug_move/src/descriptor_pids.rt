//! Descriptors whose CA_PIDs are mapped (ISO/IEC 13818-1, 2.6.16).

ghost use Rattle.std.specs.Prelude.{◌≡◌, IfOk};
ghost use Rattle.ts_descr_mpeg.specs.MpegFields.{ca_fields};
ghost use Rattle.ts_descr.specs.Descriptors.{fields_alone};
ghost use Rattle.plug_move.specs.MappedTables.{mapped_descriptor, mapped_descriptors, mapped_holding};

use crate::move_table::MoveTable;
use plug_psi::in_room;
use std::alloc::{AllocError, Global};
use ts_bits::{Descriptor, DescriptorList};
use ts_descr_mpeg::{Ca, MpegDescr};

/// The descriptors, with the CA_PIDs of CA descriptors mapped.
pub(crate) fn map_descriptors(
    alloc: Global,
    table: &MoveTable,
    descriptors: DescriptorList,
) -> Result<DescriptorList, AllocError>
    ensures { IfOk result (λ list. list ≡ mapped_descriptors table.now.0 descriptors) }
{
    let mut mapped = Vec::new(alloc);
    for descriptor in descriptors.into_vec() {
        mapped.push(map_descriptor(alloc, table, descriptor)?)?;
    }
    Ok(DescriptorList::of(mapped))
}

/// A descriptor, with its CA_PID mapped if it is a CA descriptor.
fn map_descriptor(
    alloc: Global,
    table: &MoveTable,
    descriptor: Descriptor,
) -> Result<Descriptor, AllocError>
    ensures { IfOk result (λ d. d ≡ mapped_descriptor table.now.0 descriptor) }
{
    match MpegDescr::read(alloc, &descriptor)? {
        Some(MpegDescr::Ca(ca)) => {
            let written = in_room(MpegDescr::Ca(map_ca(table, ca)).write(alloc))?;
            Ok(written.unwrap_or(descriptor))
        }
        _ => Ok(descriptor),
    }
}

/// The fields of a CA descriptor with its CA_PID mapped.
fn map_ca(table: &MoveTable, ca: Ca) -> Ca
    ensures { fields_alone (ca_fields result) ≡ mapped_holding table.now.0 (fields_alone (ca_fields ca)) }
{
    let Ca {
        ca_system_id,
        ca_pid,
        private_data,
    } = ca;
    Ca {
        ca_system_id,
        ca_pid: table.mapped(ca_pid),
        private_data,
    }
}
