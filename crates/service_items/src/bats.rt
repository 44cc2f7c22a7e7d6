//! Which tables are BATs (ETSI EN 300 468, 5.2.2).

ghost use Rattle.std.specs.Prelude.{◌≡◌};
ghost use Rattle.service_items.specs.StreamTables;

use ts_section::TableRun;

/// Whether a table has the table_id of a BAT, whether it reads or not.
pub fn is_bat(run: &TableRun) -> bool
    ensures { result ≡ StreamTables.is_bat run.now }
{
    let Some(first) = run.sections().first() else {
        return false;
    };
    let Some(head) = first.head() else {
        return false;
    };
    head.table_id == 0x4A
}
