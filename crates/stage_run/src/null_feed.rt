//! The packets of an input that consists of null packets.

ghost use Rattle.std.specs.Prelude.{◌≤◌};

use chain_core::InputEnd;

/// The packets of an input that consists of null packets.
#[derive(Clone, Copy)]
pub(crate) struct NullFeed {
    /// How many packets the input has.
    pub(crate) all: u64,
    /// How many packets were put.
    pub(crate) packets: u64,
    ghost within: { packets ≤ all },
}

impl NullFeed {
    ghost use Rattle.std.specs.Prelude.{◌≡◌, None, Some, nat_lt, if◌then◌else◌};
    ghost use Rattle.chain_model.specs.declared.input_end.InputEnd.TheVariants.{End};

    /// Whether a packet is left, or how the packets end.
    pub(crate) fn ensure_packet(&self) -> Option<InputEnd>
        ensures { result ≡ (if nat_lt self.now.packets self.now.all then None else Some (End 0)) }
    {
        if self.packets < self.all {
            None
        } else {
            Some(InputEnd::End { left: 0 })
        }
    }
}
