//! Why a descriptor was not written.

ghost use Rattle.ts_descr.specs.declared.refusal.DescrRefusal.TheVariants.{NoMemory};
ghost use Rattle.std.specs.Prelude.{◌≡◌};

use std::alloc::{AllocError, AllocFailed};

/// Why a descriptor was not written.
#[derive(Debug, Clone, Copy, PartialEq, Eq)]
pub enum DescrRefusal {
    /// The body would have this many bytes, which is above 255; 2^32 - 1 stands for any greater number.
    TooLarge { bytes: u32 },
    /// Out of memory for the descriptor.
    NoMemory,
}

impl From<AllocError> for DescrRefusal {
    ghost from_gives = { λ _ refusal. refusal ≡ NoMemory };

    fn from(_error: AllocError) -> DescrRefusal {
        DescrRefusal::NoMemory
    }
}

impl<T: Drop> From<AllocFailed<T>> for DescrRefusal {
    ghost from_gives = { λ _ refusal. refusal ≡ NoMemory };

    fn from(_error: AllocFailed<T>) -> DescrRefusal {
        DescrRefusal::NoMemory
    }
}
