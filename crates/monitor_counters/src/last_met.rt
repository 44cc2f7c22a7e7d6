//! The last packet on a PID, and what is wrong behind it.
ghost use Rattle.std.specs.Prelude.{◌≡◌, bytes_eq, take, drop};
ghost use Rattle.plugin_notes.specs.Counters as counters;
ghost use Rattle.monitor_counters.specs.CounterErrors as errors;

use crate::counter_error::CounterError;
use ts_packet::Packet;

/// Where the PCR of a packet that has one begins, and where it ends.
const PCR_FIRST: usize = 6;

const PCR_END: usize = 12;

/// The last packet on a PID.
#[derive(Clone, Copy)]
pub struct LastMet {
    /// The packet.
    pub packet: Packet,
    /// It duplicates the one before it.
    pub is_repeat: bool,
}

/// The last packet after one more on its PID.
pub fn met_with(before: &Option<LastMet>, packet: &Packet) -> Option<LastMet>
    ensures { result ≡ errors.met_with before.now packet.now }
{
    if packet.error_indicator() {
        return None;
    }
    Some(LastMet {
        packet: *packet,
        is_repeat: repeats_last(before, packet),
    })
}

// Whether the packet duplicates the last one.
fn repeats_last(before: &Option<LastMet>, packet: &Packet) -> bool
    ensures { result ≡ errors.repeats_last before.now packet.now }
{
    match before {
        Some(last) => is_duplicate(&last.packet, packet),
        None => false,
    }
}

/// The error of a packet without a transport_error_indicator after the last one on its PID.
pub fn error_after(before: &Option<LastMet>, packet: &Packet) -> Option<CounterError>
    ensures { result ≡ errors.error_after before.now packet.now }
{
    match before {
        Some(last) => error_behind(last, packet),
        None => None,
    }
}

// The error of a packet behind the last one.
fn error_behind(last: &LastMet, packet: &Packet) -> Option<CounterError>
    ensures { result ≡ errors.error_behind last.now packet.now }
{
    if is_fault(&last.packet, packet) {
        let wanted = wanted_behind(&last.packet, packet);
        return Some(CounterError::Wrong(packet.counter(), wanted));
    }
    if is_repeated(last, packet) {
        return Some(CounterError::Repeated);
    }
    None
}

// Whether the packet is a duplicate of the last one that is an error.
fn is_repeated(last: &LastMet, packet: &Packet) -> bool
    ensures { result ≡ errors.is_repeated last.now packet.now }
{
    is_duplicate(&last.packet, packet) && (last.is_repeat || !is_same(&last.packet, packet))
}

// Whether a packet duplicates another one.
fn is_duplicate(before: &Packet, packet: &Packet) -> bool
    ensures { result ≡ counters.is_duplicate before.now packet.now }
{
    before.has_payload()
        && packet.has_payload()
        && packet.counter() == before.counter()
        && !packet.discontinuity()
}

// The expected counter of a packet.
fn wanted_behind(before: &Packet, packet: &Packet) -> u8
    ensures { result ≡ counters.wanted_behind before.now packet.now }
{
    if packet.has_payload() {
        (before.counter() + 1) % 16
    } else {
        before.counter()
    }
}

// Whether the counter of a packet is a fault.
fn is_fault(before: &Packet, packet: &Packet) -> bool
    ensures { result ≡ counters.is_fault before.now packet.now }
{
    packet.counter() != wanted_behind(before, packet)
        && !is_duplicate(before, packet)
        && !packet.discontinuity()
}

// Whether the bytes of two packets are the same, but for the PCR that both have.
fn is_same(before: &Packet, packet: &Packet) -> bool
    ensures { result ≡ errors.is_same before.now packet.now }
{
    if before.pcr().is_some() && packet.pcr().is_some() {
        return is_same_around_pcr(before, packet);
    }
    has_bytes(before.bytes(), packet.bytes())
}

// Whether they are the same before and behind the PCR.
fn is_same_around_pcr(before: &Packet, packet: &Packet) -> bool
    ensures { result ≡ errors.is_same_around_pcr before.now packet.now }
{
    has_bytes(before_pcr(before), before_pcr(packet))
        && has_bytes(behind_pcr(before), behind_pcr(packet))
}

// The bytes before the place of a PCR.
fn before_pcr(packet: &Packet) -> &[u8]
    ensures { result.now ≡ take 6 packet.now }
{
    packet.bytes().split_at(PCR_FIRST).0
}

// The bytes behind it.
fn behind_pcr(packet: &Packet) -> &[u8]
    ensures { result.now ≡ drop 12 packet.now }
{
    packet.bytes().split_at(PCR_END).1
}

// Whether two rows of bytes are the same.
fn has_bytes(row: &[u8], other: &[u8]) -> bool
    ensures { result ≡ bytes_eq row.now other.now }
{
    row == other
}
