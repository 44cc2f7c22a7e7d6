//! The bytes of a file that is made.
use std::alloc::{AllocError, Global};

/// Bytes. What appends to them has no result, so that nothing has to be let go on the way: once memory has ended, they
/// are not given any more.
#[derive(Drop)]
pub(crate) struct Bytes {
    bytes: Vec<u8>,
    state: Result<(), AllocError>,
}

impl Bytes {
    /// No bytes.
    pub(crate) fn new(alloc: Global) -> Bytes {
        Bytes {
            bytes: Vec::new(alloc),
            state: Ok(()),
        }
    }

    /// Appends bytes.
    pub(crate) fn extend(&mut self, bytes: &[u8]) {
        let done = self.bytes.extend_from_slice(bytes);
        if done.is_err() {
            self.state = done;
        }
    }

    /// Appends a byte.
    pub(crate) fn push(&mut self, byte: u8) {
        self.extend(&[byte]);
    }

    /// Appends one byte so many times.
    pub(crate) fn fill(&mut self, byte: u8, count: usize) {
        for _ in 0..count {
            self.push(byte);
        }
    }

    /// Appends the 184 bytes after a header, which count up from the least one.
    pub(crate) fn count_up(&mut self, least: u8) {
        for k in 0..184u8 {
            self.push(least.wrapping_add(k));
        }
    }

    /// Leaves out the bytes after the first ones.
    pub(crate) fn truncate(&mut self, len: usize) {
        self.bytes.truncate(len);
    }

    /// Replaces a byte by another one.
    pub(crate) fn put(&mut self, place: usize, byte: u8) {
        if let Some(old) = self.bytes.get_mut(place) {
            *old = byte;
        }
    }

    /// The bytes; where memory ended before, the error.
    pub(crate) fn finish(self) -> Result<Vec<u8>, AllocError> {
        let Bytes { bytes, state } = self;
        match state {
            Ok(()) => Ok(bytes),
            Err(fault) => Err(fault),
        }
    }
}
