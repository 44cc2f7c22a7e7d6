//! The time stamps in the header of a PES packet (ISO/IEC 13818-1, 2.4.3.6 and 2.4.3.7).
ghost use Rattle.std.specs.Prelude.{◌≡◌, ◌+◌, ◌≤◌, true, length};
ghost use Rattle.plug_times.specs.PesTimes.{both_times, flagged_times, has_bytes, has_header, is_headless, is_marked, stamp_of, stamp_value, times_in};

/// The time stamps of a PES packet, each of 33 bits, in units of 90 kHz.
#[derive(Clone, Copy, PartialEq, Eq)]
pub struct PesTimes {
    /// The PTS; `None` where there is none.
    pub presentation: Option<u64>,
    /// The DTS; `None` where there is none. It comes with a PTS alone.
    pub decoding: Option<u64>,
}

impl PesTimes {
    ghost use Rattle.std.specs.Prelude.{◌≡◌};
    ghost use Rattle.plug_times.specs.PesTimes.{no_times};

    /// Neither of them.
    pub fn none() -> PesTimes
        ensures { result ≡ no_times }
    {
        PesTimes {
            presentation: None,
            decoding: None,
        }
    }
}

/// The time stamps of the PES packet that a payload begins with: none where it begins with no PES packet, where that has
/// no header with time stamps or the header is not whole, and none where one of them is damaged.
pub fn times_in(payload: &[u8]) -> PesTimes
    ensures { result ≡ times_in payload.now }
{
    if !has_header(payload) {
        return PesTimes::none();
    }
    flagged_times(payload, payload[7] >> 6)
}

// Whether the payload begins with a PES packet that has a header.
fn has_header(payload: &[u8]) -> bool
    ensures is { result ≡ has_header payload.now }
    ensures long { result ≡ true → 9 ≤ length payload.now }
{
    payload.len() >= 9
        && payload[0] == 0
        && payload[1] == 0
        && payload[2] == 1
        && !is_headless(payload[3])
        && payload[6] >> 6 == 2
}

// Whether PES packets with this stream_id have no header.
fn is_headless(id: u8) -> bool
    ensures { result ≡ is_headless id }
{
    id == 0xBC
        || id == 0xBE
        || id == 0xBF
        || id == 0xF0
        || id == 0xF1
        || id == 0xF2
        || id == 0xF8
        || id == 0xFF
}

// Whether the header has at least so many bytes after its length, and all that it has are in the payload.
fn has_bytes(least: u8, payload: &[u8]) -> bool
    requires { 9 ≤ length payload.now }
    ensures is { result ≡ has_bytes least payload.now }
    ensures long { result ≡ true → 9 + least ≤ length payload.now }
{
    payload[8] >= least && 9 + usize::from(payload[8]) <= payload.len()
}

// The time stamps that these flags announce.
fn flagged_times(payload: &[u8], flags: u8) -> PesTimes
    requires { 9 ≤ length payload.now }
    ensures { result ≡ flagged_times flags payload.now }
{
    if flags == 2 && has_bytes(5, payload) {
        return PesTimes {
            presentation: stamp(2, &payload[9..14]),
            decoding: None,
        };
    }
    if flags == 3 && has_bytes(10, payload) {
        return both_times(stamp(3, &payload[9..14]), stamp(1, &payload[14..19]));
    }
    PesTimes::none()
}

// Both time stamps, or neither.
fn both_times(presentation: Option<u64>, decoding: Option<u64>) -> PesTimes
    ensures { result ≡ both_times presentation decoding }
{
    match (presentation, decoding) {
        (Some(presentation), Some(decoding)) => PesTimes {
            presentation: Some(presentation),
            decoding: Some(decoding),
        },
        _ => PesTimes::none(),
    }
}

// The time stamp of five bytes with this prefix.
#[tactic(auto, unfolding(crate::specs::PesTimes::stamp_of, ts_bit_rows::specs::BitRow::field, ts_bit_rows::specs::BitRow::bit_of))]
fn stamp(prefix: u8, five: &[u8]) -> Option<u64>
    requires { length five.now ≡ 5 }
    ensures { result ≡ stamp_of prefix five.now }
{
    if five[0] >> 4 != prefix {
        return None;
    }
    if !is_marked(five) {
        return None;
    }
    Some(stamp_value(five))
}

// Whether the marker bits of a time stamp are ones.
#[tactic(auto, unfolding(crate::specs::PesTimes::is_marked, ts_bit_rows::specs::BitRow::field, ts_bit_rows::specs::BitRow::bit_of))]
fn is_marked(five: &[u8]) -> bool
    requires { length five.now ≡ 5 }
    ensures { result ≡ is_marked five.now }
{
    five[0] & 1 == 1 && five[2] & 1 == 1 && five[4] & 1 == 1
}

// The 33 bits between the markers.
fn stamp_value(five: &[u8]) -> u64
    requires { length five.now ≡ 5 }
    ensures { result ≡ stamp_value five.now }
{
    let high = u64::from(five[0] >> 1) % 8;
    let middle = u64::from(five[1]) * 128 + u64::from(five[2] >> 1);
    let low = u64::from(five[3]) * 128 + u64::from(five[4] >> 1);
    high * 1_073_741_824 + (middle * 32_768 + low)
}
