//! What a source reads.
ghost use Rattle.std.specs.Prelude.{◌≤◌, length, IfOk};

use crate::calls::read_some;
use crate::reason::Reason;
use std::fs::File;
use std::io::Stdin;

/// What a source reads.
#[derive(Drop)]
pub(crate) enum Opened {
    File(File),
    Stream(Stdin),
}

impl Opened {
    /// Asks the system once for bytes. Returns the reason if it failed.
    pub(crate) fn read(&mut self, into: &mut [u8]) -> Result<usize, Reason>
        ensures { IfOk result (λ n. n ≤ length into.new) }
    {
        match self {
            Opened::File(file) => read_some(file, into),
            Opened::Stream(stream) => read_some(stream, into),
        }
    }
}
