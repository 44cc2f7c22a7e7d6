//! PMTs whose PIDs are mapped (ISO/IEC 13818-1, 2.4.4.8).

ghost use Rattle.std.specs.Prelude.{◌≡◌, IfOk, map};
ghost use Rattle.ts_psi.specs.PsiTables.{component_item, pmt_held};
ghost use Rattle.plug_move.specs.MappedTables.{change_pmt, mapped_item, mapped_items, mapped_pmt};

use crate::descriptor_pids::map_descriptors;
use crate::move_table::MoveTable;
use plug_psi::{Edited, read_current, sections_or_same};
use std::alloc::{AllocError, Global};
use ts_psi::{Component, ComponentList, Pmt};
use ts_section::TableRun;

/// Edits a run on the PID of a PMT: a current PMT that reads is replaced by the section of the mapped one.
pub(crate) fn edit_pmt(
    alloc: Global,
    table: &MoveTable,
    run: &TableRun,
) -> Result<Edited, AllocError>
    ensures { IfOk result (λ edited. edited ≡ change_pmt table.now.0 run.now) }
{
    let Some(pmt) = read_current::<Pmt>(alloc, run)? else {
        return Ok(Edited::same());
    };
    let mapped = map_pmt(alloc, table, pmt)?;
    sections_or_same(mapped.sections(alloc))
}

/// A PMT with its PIDs mapped.
fn map_pmt(alloc: Global, table: &MoveTable, pmt: Pmt) -> Result<Pmt, AllocError>
    ensures { IfOk result (λ mapped. pmt_held mapped ≡ mapped_pmt table.now.0 (pmt_held pmt)) }
{
    let Pmt {
        version,
        current,
        service_id,
        pcr_pid,
        descriptors,
        components,
    } = pmt;
    let pcr_pid = table.mapped(pcr_pid);
    let descriptors = map_descriptors(alloc, table, descriptors)?;
    let components = map_components(alloc, table, components.into_vec())?;
    Ok(Pmt {
        version,
        current,
        service_id,
        pcr_pid,
        descriptors,
        components: ComponentList::of(components),
    })
}

/// Components with their PIDs mapped.
fn map_components(
    alloc: Global,
    table: &MoveTable,
    components: Vec<Component>,
) -> Result<Vec<Component>, AllocError>
    ensures { IfOk result (λ v. map component_item v.items
        ≡ mapped_items table.now.0 (map component_item components.items)) }
{
    let mut mapped = Vec::new(alloc);
    for component in components {
        mapped.push(map_component(alloc, table, component)?)?;
    }
    Ok(mapped)
}

/// A component with its PID and its CA_PIDs mapped.
fn map_component(
    alloc: Global,
    table: &MoveTable,
    component: Component,
) -> Result<Component, AllocError>
    ensures { IfOk result (λ mapped. component_item mapped ≡ mapped_item table.now.0 (component_item component)) }
{
    let Component {
        stream_type,
        pid,
        descriptors,
    } = component;
    let pid = table.mapped(pid);
    let descriptors = map_descriptors(alloc, table, descriptors)?;
    Ok(Component {
        stream_type,
        pid,
        descriptors,
    })
}
