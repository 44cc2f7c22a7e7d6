//! PATs whose PIDs are mapped (ISO/IEC 13818-1, 2.4.4.3).

ghost use Rattle.std.specs.Prelude.{◌≡◌, ◌<◌, IfOk, map};
ghost use Rattle.std.specs.Option.{ForSome};
ghost use Rattle.ts_packet.specs.declared.numbers.TheConstants.{PID_COUNT};
ghost use Rattle.ts_psi.specs.PatTables.{network_items, pat_held, service_item};
ghost use Rattle.plug_move.specs.MappedTables.{change_pat, mapped_item, mapped_items, mapped_pat};

use crate::move_table::MoveTable;
use plug_psi::{Edited, read_current, sections_or_same};
use std::alloc::{AllocError, Global};
use ts_psi::{Pat, PatService, PatServiceList};
use ts_section::TableRun;

/// Edits a run on PID 0: a current PAT that reads is replaced by the sections of the mapped one.
pub(crate) fn edit_pat(
    alloc: Global,
    table: &MoveTable,
    run: &TableRun,
) -> Result<Edited, AllocError>
    ensures { IfOk result (λ edited. edited ≡ change_pat table.now.0 run.now) }
{
    let Some(pat) = read_current::<Pat>(alloc, run)? else {
        return Ok(Edited::same());
    };
    let mapped = map_pat(alloc, table, pat)?;
    sections_or_same(mapped.sections(alloc))
}

/// A PAT with its PIDs mapped, that of the network too.
fn map_pat(alloc: Global, table: &MoveTable, pat: Pat) -> Result<Pat, AllocError>
    ensures { IfOk result (λ mapped. pat_held mapped ≡ mapped_pat table.now.0 (pat_held pat)) }
{
    let Pat {
        version,
        current,
        stream_id,
        network_pid,
        services,
    } = pat;
    let network_pid = map_network(table, network_pid);
    let services = map_services(alloc, table, services.into_vec())?;
    Ok(Pat {
        version,
        current,
        stream_id,
        network_pid,
        services: PatServiceList::of(services),
    })
}

/// The network PID mapped, if there is one.
fn map_network(table: &MoveTable, network_pid: Option<u16>) -> Option<u16>
    requires { ForSome network_pid (λ pid. pid < PID_COUNT) }
    ensures held { network_items result ≡ mapped_items table.now.0 (network_items network_pid) }
    ensures in_range { ForSome result (λ pid. pid < PID_COUNT) }
{
    match network_pid {
        Some(pid) => Some(table.mapped(pid)),
        None => None,
    }
}

/// Services with the PIDs of their PMTs mapped.
fn map_services(
    alloc: Global,
    table: &MoveTable,
    services: Vec<PatService>,
) -> Result<Vec<PatService>, AllocError>
    ensures { IfOk result (λ v. map service_item v.items
        ≡ mapped_items table.now.0 (map service_item services.items)) }
{
    let mut mapped = Vec::new(alloc);
    for service in services {
        mapped.push(map_service(table, service))?;
    }
    Ok(mapped)
}

/// A service with the PID of its PMT mapped.
fn map_service(table: &MoveTable, service: PatService) -> PatService
    ensures { service_item result ≡ mapped_item table.now.0 (service_item service) }
{
    PatService {
        service_id: service.service_id,
        pid: table.mapped(service.pid),
    }
}
