//! The settings of `skip`.

/// Settings of `skip`, which drops the first packets.
#[derive(Drop)]
pub struct SkipConf {
    /// How many packets are dropped, 0 to 2^40.
    pub operand: u64,
}
