//! Why a run is not a table of a layout, and why a table has no sections.

ghost use Rattle.std.specs.Prelude.{◌≡◌};
ghost use Rattle.ts_table_rows.specs.declared.fault.TableFault.TheVariants.{NoMemory};
ghost use Rattle.ts_table_rows.specs.declared.fault.TableRefusal.TheVariants as refusals;
ghost use Rattle.ts_table_rows.specs.declared.fault.BodyStop.TheVariants as stops;
ghost use Rattle.ts_table_rows.specs.BodyReading.{IsStopOf};

use std::alloc::{AllocError, AllocFailed};
use ts_fields::NotRead;

/// A rule of a table.
#[derive(Debug, Clone, Copy, PartialEq, Eq)]
pub enum TableRule {
    /// The table_id is not one of the table, or the section is in the short form.
    WrongTable,
    /// The table has one section, and the run has more.
    Sections,
    /// The section_length is above the maximum of the table.
    TooLong,
    /// A field outside the items and descriptors passes the end of the body.
    Short,
    /// A loop passes its end, or its end cuts a descriptor or the fixed part of an item.
    Loop,
    /// A second item has 0 in its first field: in a PAT a second network entry.
    Network,
    /// The field that all sections have in common differs from that of the first section.
    Mixed,
    /// A start is neither a valid one nor all ones, or a duration is not valid.
    Time,
    /// Bytes follow the counted items.
    Trailing,
}

/// Why a run of sections is not a table of a layout.
#[derive(Debug, Clone, Copy, PartialEq, Eq)]
pub enum TableFault {
    /// The first broken rule, with the section of the run, from 0, and the byte of that section, from 0.
    Broken {
        section: usize,
        offset: usize,
        rule: TableRule,
    },
    /// Out of memory for the table.
    NoMemory,
}

/// Why a table has no sections.
#[derive(Debug, Clone, Copy, PartialEq, Eq)]
pub enum TableRefusal {
    /// A section would need this section_length, which is above the maximum of the table; 2^32 - 1 stands for any
    /// greater one.
    TooLarge { bytes: u32 },
    /// More than 256 sections would be needed.
    TooMany,
    /// Out of memory for the sections.
    NoMemory,
}

/// Why the body of a section was not read.
#[derive(Clone, Copy)]
pub enum BodyStop {
    /// The first broken rule, and the number of bits from the faulty field to the end of the body.
    At { rule: TableRule, left: usize },
    /// Out of memory.
    NoMemory,
}

/// Why a field was not read, as a stop with the rule that is broken there.
pub fn stop_at(stop: NotRead, rule: TableRule, left: usize) -> BodyStop
    ensures { IsStopOf stop rule left result }
{
    match stop {
        NotRead::Outside => BodyStop::At { rule, left },
        NotRead::NoMemory => BodyStop::NoMemory,
    }
}

impl From<AllocError> for BodyStop {
    ghost from_gives = { λ _ stop. stop ≡ stops.NoMemory };

    fn from(_error: AllocError) -> BodyStop {
        BodyStop::NoMemory
    }
}

impl<T: Drop> From<AllocFailed<T>> for BodyStop {
    ghost from_gives = { λ _ stop. stop ≡ stops.NoMemory };

    fn from(_error: AllocFailed<T>) -> BodyStop {
        BodyStop::NoMemory
    }
}

impl From<AllocError> for TableFault {
    ghost from_gives = { λ _ fault. fault ≡ NoMemory };

    fn from(_error: AllocError) -> TableFault {
        TableFault::NoMemory
    }
}

impl<T: Drop> From<AllocFailed<T>> for TableFault {
    ghost from_gives = { λ _ fault. fault ≡ NoMemory };

    fn from(_error: AllocFailed<T>) -> TableFault {
        TableFault::NoMemory
    }
}

impl From<AllocError> for TableRefusal {
    ghost from_gives = { λ _ refusal. refusal ≡ refusals.NoMemory };

    fn from(_error: AllocError) -> TableRefusal {
        TableRefusal::NoMemory
    }
}

impl<T: Drop> From<AllocFailed<T>> for TableRefusal {
    ghost from_gives = { λ _ refusal. refusal ≡ refusals.NoMemory };

    fn from(_error: AllocFailed<T>) -> TableRefusal {
        TableRefusal::NoMemory
    }
}
