//! The sinks that a desk in memory closed.
ghost use Rattle.std.specs.Prelude.{◌≡◌, ◌+◌, ◌-◌, ◌^◌, ◌<◌, Some, length, min, slice_get};
ghost use Rattle.ts_outside.specs.Memory.{outputs_of};
ghost use Rattle.ts_outside.specs.Found.{MatchFound};

use crate::file_bytes::FileBytes;
use crate::name_text::NameText;

/// Closed sinks with their names and bytes, the last one first: each link is made when a sink is opened and filled
/// when it is closed.
#[derive(Drop)]
pub(crate) enum ClosedOutputs {
    Empty,
    Behind(NameText, FileBytes, Box<ClosedOutputs>),
}

/// The result of a search for an output: the output, or by how much its number is past the last one.
pub(crate) enum Found<'a> {
    Output(&'a str, &'a [u8]),
    Past(usize),
}

impl ClosedOutputs {
    /// The number of outputs; it saturates at `usize::MAX`.
    pub(crate) fn count(&self) -> usize
        ensures { result ≡ min (length (outputs_of self.now)) (2 ^ 64 - 1) }
    {
        match self {
            ClosedOutputs::Empty => 0,
            ClosedOutputs::Behind(_, _, before) => before.count().saturating_add(1),
        }
    }

    /// The output with number `i`, from 0 in the order of closing.
    pub(crate) fn find(&self, i: usize) -> Found<'_>
        ensures { let all = outputs_of self.now in
            MatchFound result
            (λ name bytes. slice_get all i ≡ Some (name, bytes))
            (λ past. i ≡ length all + past) }
    {
        match self {
            ClosedOutputs::Empty => Found::Past(i),
            ClosedOutputs::Behind(name, bytes, before) => match before.find(i) {
                Found::Output(name, bytes) => Found::Output(name, bytes),
                Found::Past(0) => Found::Output(name.as_str(), bytes.as_slice()),
                Found::Past(past) => Found::Past(past - 1),
            },
        }
    }
}
