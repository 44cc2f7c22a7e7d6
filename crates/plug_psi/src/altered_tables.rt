//! The tables that an edit alters: of which it makes other sections, or none.

ghost use Rattle.std.specs.Prelude.{◌≡◌, IfOk};
ghost use Rattle.plug_psi.specs.AlteredTables;
ghost use Rattle.plug_psi.specs.AlteredTables.{same_sections};

use crate::edit::{Carried, TableEdit};
use std::alloc::{AllocError, Global};
use ts_section::{Section, TableRun};

/// Whether an edit alters one of some tables.
pub(crate) fn alters_one<E: TableEdit>(
    alloc: Global,
    edit: &E,
    tables: &[TableRun],
) -> Result<bool, AllocError>
    ensures { IfOk result (λ one. one ≡ AlteredTables.alters_one (E.change edit.now) tables.now) }
{
    for table in tables {
        if alters(alloc, edit, table)? {
            return Ok(true);
        }
    }
    Ok(false)
}

/// Whether an edit alters a table.
fn alters<E: TableEdit>(alloc: Global, edit: &E, run: &TableRun) -> Result<bool, AllocError>
    ensures { IfOk result (λ other. other ≡ AlteredTables.alters (E.change edit.now) run.now) }
{
    match edit.edit(alloc, run)?.carried {
        Carried::Same => Ok(false),
        Carried::Instead(sections) => Ok(!are_same(sections.as_slice(), run.sections())),
        Carried::Away => Ok(!run.sections().is_empty()),
    }
}

/// Whether two lists have the same sections.
fn are_same(sections: &[Section], expected: &[Section]) -> bool
    ensures { result ≡ same_sections sections.now expected.now }
{
    let Some((first, after)) = sections.split_first() else {
        return expected.is_empty();
    };
    let Some((other, others)) = expected.split_first() else {
        return false;
    };
    if first.bytes() != other.bytes() {
        return false;
    }
    are_same(after, others)
}
