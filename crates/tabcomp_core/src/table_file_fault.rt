//! Why a file has no sections of tables.
ghost use Rattle.std.specs.Prelude.{◌≡◌};
ghost use Rattle.tabcomp_core.specs.declared.table_file_fault.NoTables.TheVariants.{NoMemory};

use crate::{CompileFault, DecompileFault};
use std::alloc::{AllocError, AllocFailed};

/// Why a file has no sections of tables, whatever memory there is.
#[derive(Debug, Drop)]
pub enum TableFileFault {
    /// It has more than 16,777,216 bytes.
    TooMany,
    /// By its name it is a JSON text, and it is not compiled.
    Compile(CompileFault),
    /// Its bytes, or those that its text is compiled to, are not sections one after another.
    Sections(DecompileFault),
}

/// Why the sections of a file are not returned.
#[derive(Debug, Drop)]
pub enum NoTables {
    /// It has none, for this reason.
    Refused(TableFileFault),
    /// Out of memory.
    NoMemory,
}

impl From<AllocError> for NoTables {
    ghost from_gives = { λ _ fault. fault ≡ NoMemory };

    fn from(_error: AllocError) -> NoTables {
        NoTables::NoMemory
    }
}

impl<T: Drop> From<AllocFailed<T>> for NoTables {
    ghost from_gives = { λ _ fault. fault ≡ NoMemory };

    fn from(_error: AllocFailed<T>) -> NoTables {
        NoTables::NoMemory
    }
}
