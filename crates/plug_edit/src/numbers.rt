//! Numbers and PIDs that an option may give in place of those of a table.

ghost use Rattle.std.specs.Prelude.{◌≡◌, ◌<◌, unwrap_or};
ghost use Rattle.std.specs.Option.{ForSome, option_or};
ghost use Rattle.ts_packet.specs.declared.numbers.TheConstants.{PID_COUNT};

/// The number of 16 bits that is given, or else that of the table.
pub fn number_or(given: Option<u64>, held: u16) -> u16
    requires { ForSome given (λ number. number < 65536) }
    ensures { result ≡ unwrap_or given held }
{
    match given {
        Some(number) => number as u16,
        None => held,
    }
}

/// The PID that is given, or else that of the table.
pub fn pid_or(given: Option<u64>, held: u16) -> u16
    requires given { ForSome given (λ pid. pid < PID_COUNT) }
    requires held { held < PID_COUNT }
    ensures pid { result ≡ unwrap_or given held }
    ensures in_range { result < PID_COUNT }
{
    match given {
        Some(pid) => pid as u16,
        None => held,
    }
}

/// The PID that is given, or else that of the table, if it has one.
pub fn pid_or_held(given: Option<u64>, held: Option<u16>) -> Option<u16>
    requires given { ForSome given (λ pid. pid < PID_COUNT) }
    requires held { ForSome held (λ pid. pid < PID_COUNT) }
    ensures pid { result ≡ option_or given held }
    ensures in_range { ForSome result (λ pid. pid < PID_COUNT) }
{
    match given {
        Some(pid) => Some(pid as u16),
        None => held,
    }
}
