//! CATs whose CA_PIDs are mapped (ISO/IEC 13818-1, 2.4.4.6).

ghost use Rattle.std.specs.Prelude.{◌≡◌, IfOk};
ghost use Rattle.ts_psi.specs.CatTables.{cat_held};
ghost use Rattle.plug_move.specs.MappedTables.{change_cat, mapped_cat};

use crate::descriptor_pids::map_descriptors;
use crate::move_table::MoveTable;
use plug_psi::{Edited, read_current, sections_or_same};
use std::alloc::{AllocError, Global};
use ts_psi::Cat;
use ts_section::TableRun;

/// Edits a run on PID 1: a current CAT that reads is replaced by the sections of the mapped one.
pub(crate) fn edit_cat(
    alloc: Global,
    table: &MoveTable,
    run: &TableRun,
) -> Result<Edited, AllocError>
    ensures { IfOk result (λ edited. edited ≡ change_cat table.now.0 run.now) }
{
    let Some(cat) = read_current::<Cat>(alloc, run)? else {
        return Ok(Edited::same());
    };
    let mapped = map_cat(alloc, table, cat)?;
    sections_or_same(mapped.sections(alloc))
}

/// A CAT with its CA_PIDs mapped.
fn map_cat(alloc: Global, table: &MoveTable, cat: Cat) -> Result<Cat, AllocError>
    ensures { IfOk result (λ mapped. cat_held mapped ≡ mapped_cat table.now.0 (cat_held cat)) }
{
    let Cat {
        version,
        current,
        descriptors,
    } = cat;
    let descriptors = map_descriptors(alloc, table, descriptors)?;
    Ok(Cat {
        version,
        current,
        descriptors,
    })
}
