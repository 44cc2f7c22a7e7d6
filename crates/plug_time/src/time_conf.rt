//! The settings of `time`.

/// Settings of `time`, which moves the times of TDT and TOT.
#[derive(Drop)]
pub struct TimeConf {
    /// By how many seconds they are later, and earlier where it is below 0; -10,000,000 to 10,000,000.
    pub shift: i64,
}
