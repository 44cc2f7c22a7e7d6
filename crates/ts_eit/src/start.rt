//! The start of an event (ETSI EN 300 468, 5.2.4).

ghost use Rattle.std.specs.Prelude.{◌<◌};

/// The start of an event, in UTC.
#[derive(Clone, Copy)]
pub struct Start {
    /// The last 16 bits of the Modified Julian Date, 0 to 65,535: 40587 is 1970-01-01.
    pub day: u16,
    /// The second of the day, 0 to 86,399.
    pub second: u32,
    pub ghost in_range: { second < 86400 },
}
