//! Times of six decimal digits, and starts of events (ETSI EN 300 468, 5.2.4).

ghost use Rattle.std.specs.Prelude.{◌≡◌};
ghost use Rattle.ts_fields.specs.Times;

/// Whether a byte has two decimal digits, the higher one first, of a number of at most `most`.
#[tactic(auto, unfolding(crate::specs::Times::is_pair))]
fn is_pair(most: u64, byte: u64) -> bool
    ensures { result ≡ Times.is_pair most byte }
{
    byte / 16 <= 9 && (byte % 16 <= 9 && byte / 16 * 10 + byte % 16 <= most)
}

/// Whether a number has six decimal digits hhmmss of four bits each and no bit above them, with at most `hours` hours
/// and at most 59 minutes and seconds.
#[tactic(auto, unfolding(crate::specs::Times::is_time))]
pub fn is_time(hours: u64, number: u64) -> bool
    ensures { result ≡ Times.is_time hours number }
{
    is_pair(hours, number / 65536) && (is_pair(59, number / 256 % 256) && is_pair(59, number % 256))
}

/// Whether 40 bits are a day and a time of day, or all ones, which means undefined.
#[tactic(auto, unfolding(crate::specs::Times::is_start))]
pub fn is_start(number: u64) -> bool
    ensures { result ≡ Times.is_start number }
{
    number == 0xFFFFFFFFFF || is_time(23, number % 0x1000000)
}
