//! Why a text has no sections, and why bytes are not sections of tables.

ghost use Rattle.std.specs.Prelude.{◌≡◌};
ghost use Rattle.tabcomp_core.specs.declared.fault.CompileFault.TheVariants.{NoMemory};
ghost use Rattle.tabcomp_core.specs.declared.fault.DecompileFault.TheVariants.{NoMemory as NoMemoryForSections};

use std::alloc::{AllocError, AllocFailed};
use ts_jtree::JsonFault;
use ts_section::SectionFault;
use ts_table_rows::TableRefusal;

/// Why a text was not compiled.
#[derive(Debug, Drop)]
pub enum CompileFault {
    /// The text is not UTF-8, or not JSON.
    NotJson,
    /// Its value is not the root of tables: the first fault.
    Json(JsonFault),
    /// The table with this number, from 0, is the first that has no sections.
    TooLarge { table: usize, refusal: TableRefusal },
    /// Out of memory.
    NoMemory,
}

impl From<AllocError> for CompileFault {
    ghost from_gives = { λ _ fault. fault ≡ NoMemory };

    fn from(_error: AllocError) -> CompileFault {
        CompileFault::NoMemory
    }
}

impl<T: Drop> From<AllocFailed<T>> for CompileFault {
    ghost from_gives = { λ _ fault. fault ≡ NoMemory };

    fn from(_error: AllocFailed<T>) -> CompileFault {
        CompileFault::NoMemory
    }
}

/// Why bytes were not decompiled.
#[derive(Debug, Clone, Copy, PartialEq, Eq)]
pub enum DecompileFault {
    /// The bytes at `offset` are the first that are not a section.
    Section { offset: usize, fault: SectionFault },
    /// The section at `offset`, or the end of the bytes, is the first at which no run of a table continues.
    Sequence { offset: usize },
    /// Out of memory.
    NoMemory,
}

impl From<AllocError> for DecompileFault {
    ghost from_gives = { λ _ fault. fault ≡ NoMemoryForSections };

    fn from(_error: AllocError) -> DecompileFault {
        DecompileFault::NoMemory
    }
}

impl<T: Drop> From<AllocFailed<T>> for DecompileFault {
    ghost from_gives = { λ _ fault. fault ≡ NoMemoryForSections };

    fn from(_error: AllocFailed<T>) -> DecompileFault {
        DecompileFault::NoMemory
    }
}
