//! The settings of an output.

use ts_outside::NameText;

/// The destination of the packets.
#[derive(Drop)]
pub enum OutputConf {
    /// A file; the empty name is standard output.
    File(NameText),
    /// No destination: the packets are dropped.
    Drop,
}
