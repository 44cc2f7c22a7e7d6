//! The error of bytes without a sync byte.
use thiserror::Error;

/// The bytes do not begin with the sync byte 0x47.
#[derive(Clone, Copy, Debug, PartialEq, Eq, Error)]
#[error("no sync byte: found {found}")]
pub struct NoSync {
    /// The byte that is there instead.
    pub found: u8,
}
