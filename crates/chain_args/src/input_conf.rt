//! The settings of an input.

use packet_forms::Form;
use ts_outside::NameText;

/// The greatest seed: 2^64 - 1.
pub const MOST_SEED: u64 = u64::MAX;

/// The source of the packets.
#[derive(Drop)]
pub enum InputConf {
    /// A file with packets in this form; the empty name is standard input. With `resync` they are found again where the file is
    /// damaged.
    File {
        name: NameText,
        form: Form,
        resync: bool,
    },
    /// This many null packets, at most 2^40.
    Null(u64),
    /// The first `packets` packets, at most 2^40, of the generated stream of a seed.
    TestGen {
        seed: u64,
        packets: u64,
    },
}
