//! The settings of `restuff`.

/// Settings of `restuff`, which gives a stream a lower constant rate.
#[derive(Drop)]
pub struct RestuffConf {
    /// The rate at which the packets come, 1,000 to 1,000,000,000 bits per second.
    pub from: u64,
    /// The rate of the packets that are given, 1,000 to `from` bits per second.
    pub to: u64,
    /// How many packets may wait for a slot, 1 to 100,000.
    pub window: u64,
}
