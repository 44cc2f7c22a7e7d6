//! The faults of calls on the outside.
ghost use Rattle.std.specs.Prelude.{◌≡◌, Some, codes};
ghost use Rattle.ts_outside.specs.OpenFault.{open_fault_text};
ghost use Rattle.ts_outside.specs.FileFault.{file_fault_text};
ghost use Rattle.ts_outside.specs.declared.faults.OpenFault.TheVariants.{NoMemory};
ghost use Rattle.ts_outside.specs.declared.faults.FileFault.TheVariants.{NoMemory as NoMemoryForFile};

use std::alloc::{AllocError, AllocFailed};
use std::error::Error;
use std::fmt;

/// A call on the outside failed: a read, a write, a report or the closing of an output.
#[derive(Clone, Copy, Debug, PartialEq, Eq)]
pub struct Failed;

impl fmt::Display for Failed {
    ghost output = { λ _. Some (codes "the outside failed") };

    fn fmt<W: fmt::Write>(&self, f: &mut fmt::Formatter<W>) -> fmt::Result {
        f.write_str("the outside failed")
    }
}

impl Error for Failed {}

/// Why a source or a sink was not opened.
#[derive(Clone, Copy, Debug, PartialEq, Eq)]
pub enum OpenFault {
    /// The open failed.
    Failed,
    /// Out of memory.
    NoMemory,
}

impl fmt::Display for OpenFault {
    ghost output = { λ fault. Some (open_fault_text fault) };

    fn fmt<W: fmt::Write>(&self, f: &mut fmt::Formatter<W>) -> fmt::Result {
        match self {
            OpenFault::Failed => f.write_str("cannot open"),
            OpenFault::NoMemory => f.write_str("out of memory"),
        }
    }
}

impl Error for OpenFault {}

impl From<AllocError> for OpenFault {
    ghost from_gives = { λ _ e. e ≡ NoMemory };

    fn from(_e: AllocError) -> OpenFault {
        OpenFault::NoMemory
    }
}

impl<T: Drop> From<AllocFailed<T>> for OpenFault {
    ghost from_gives = { λ _ e. e ≡ NoMemory };

    fn from(_e: AllocFailed<T>) -> OpenFault {
        OpenFault::NoMemory
    }
}

/// Why a whole file was not read.
#[derive(Clone, Copy, Debug, PartialEq, Eq)]
pub enum FileFault {
    /// The open or a read failed.
    Failed,
    /// The file has more bytes than are allowed.
    TooMany,
    /// Out of memory.
    NoMemory,
}

impl fmt::Display for FileFault {
    ghost output = { λ fault. Some (file_fault_text fault) };

    fn fmt<W: fmt::Write>(&self, f: &mut fmt::Formatter<W>) -> fmt::Result {
        match self {
            FileFault::Failed => f.write_str("cannot read"),
            FileFault::TooMany => f.write_str("too many bytes"),
            FileFault::NoMemory => f.write_str("out of memory"),
        }
    }
}

impl Error for FileFault {}

impl From<AllocError> for FileFault {
    ghost from_gives = { λ _ e. e ≡ NoMemoryForFile };

    fn from(_e: AllocError) -> FileFault {
        FileFault::NoMemory
    }
}

impl<T: Drop> From<AllocFailed<T>> for FileFault {
    ghost from_gives = { λ _ e. e ≡ NoMemoryForFile };

    fn from(_e: AllocFailed<T>) -> FileFault {
        FileFault::NoMemory
    }
}
