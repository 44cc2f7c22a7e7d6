//! The tables of service information that have to come again and again.
ghost use Rattle.std.specs.Prelude.{◌≡◌, true};

use crate::table_kind::TableKind;
use crate::table_row::TableRow;
use monitor_keys::KeyLimit;
use monitor_lines::{Indicator, Missing};
use monitor_tables::{NIT_LIMIT, SDT_LIMIT, TDT_LIMIT};
use std::alloc::{AllocError, Global};

/// The NIT of the actual network (ETSI EN 300 468, 5.1.3 and table 2).
const NIT: TableKind = TableKind {
    pid: 16,
    table_id: 64,
    indicator: Indicator::Nit,
    missing: Missing::Nit,
};

/// The SDT of the actual stream.
const SDT: TableKind = TableKind {
    pid: 17,
    table_id: 66,
    indicator: Indicator::Sdt,
    missing: Missing::Sdt,
};

/// The TDT.
const TDT: TableKind = TableKind {
    pid: 20,
    table_id: 112,
    indicator: Indicator::Tdt,
    missing: Missing::Tdt,
};

/// What is kept of NIT, SDT and TDT (ETSI TR 101 290, 5.2.3).
#[derive(Drop)]
pub(crate) struct ServiceTables {
    /// The NIT.
    pub(crate) nit: TableRow,
    /// The SDT.
    pub(crate) sdt: TableRow,
    /// The TDT.
    pub(crate) tdt: TableRow,
}

impl ServiceTables {
    ghost use Rattle.std.specs.Prelude.{[], ℕ, Option, IfOk};
    ghost use Rattle.monitor_priorities.specs.RowsStand.{HasTables};

    /// No cell was met.
    pub(crate) fn new(alloc: Global) -> Result<ServiceTables, AllocError>
        ensures { IfOk result (λ tables. (pcr_pid : Option ℕ) → HasTables pcr_pid tables []) }
    {
        Ok(ServiceTables {
            nit: TableRow::new(alloc, NIT, told_twice(NIT_LIMIT))?,
            sdt: TableRow::new(alloc, SDT, told_twice(SDT_LIMIT))?,
            tdt: TableRow::new(alloc, TDT, told_twice(TDT_LIMIT))?,
        })
    }
}

// A limit of so many units; a longer gap is told a second time, when it ends.
fn told_twice(units: u64) -> KeyLimit
    ensures { result ≡ record { units = units; tells_ends = true } }
{
    KeyLimit {
        units,
        tells_ends: true,
    }
}
