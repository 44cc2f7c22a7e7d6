//! The kinds of inputs.

use ts_testgen::TestGen;

/// Where the input's packets come from.
pub enum InputPart<S> {
    /// The packets of a source's bytes.
    Stream(S),
    /// So many null packets.
    Nulls(u64),
    /// The first packets of the generated stream of a seed.
    Generated {
        /// Before a run it has given no packet.
        generator: TestGen,
        /// How many packets the input has.
        packets: u64,
    },
}
