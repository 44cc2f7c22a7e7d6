//! A step between two PCRs.
ghost use Rattle.std.specs.Prelude.{◌≡◌, ◌<◌, ◌≤◌, ◌^◌, Some};
ghost use Rattle.plug_clock.specs.declared.limits.TheConstants.{CLOCK_PERIOD as PERIOD};
ghost use Rattle.monitor_pcrs.specs.PcrErrors as errors;
ghost use Rattle.monitor_pcrs.specs.LastPcrs.{HasRate};

use crate::limits::{LONGEST_STEP, MICROSECOND};
use crate::pcr_error::PcrError;
use plug_clock::{LastClock, PACKET_UNITS, units_after};
use ts_packet::Packet;

/// What is wrong with the PCR of a packet after the one before on its PID, at the bit rate of the stream where one is given.
pub fn error_between(
    bitrate: Option<u64>,
    before: Option<LastClock>,
    packet: &Packet,
    clock: LastClock,
) -> Option<PcrError>
    requires { HasRate bitrate }
    ensures { result ≡ errors.error_between bitrate before packet.now clock }
{
    let before = before?;
    if packet.discontinuity() {
        return None;
    }
    let positions = clock.at.saturating_sub(before.at);
    step_error(bitrate, positions, units_after(before.clock, clock.clock))
}

// What is wrong with a step over so many positions.
fn step_error(bitrate: Option<u64>, positions: u64, step: u64) -> Option<PcrError>
    requires rate { HasRate bitrate }
    requires range { step < PERIOD }
    ensures { result ≡ errors.step_error bitrate positions step }
{
    if is_wrong_step(step) {
        return Some(PcrError::Step(step));
    }
    accuracy_error(bitrate?, positions, step)
}

// Whether a step is wrong by itself.
fn is_wrong_step(step: u64) -> bool
    ensures { result ≡ errors.is_wrong_step step }
{
    step == 0 || LONGEST_STEP < step
}

// Whether a step is off at a bit rate, and by how much.
fn accuracy_error(bitrate: u64, positions: u64, step: u64) -> Option<PcrError>
    requires rate { 1 ≤ bitrate }
    requires range { step < PERIOD }
    ensures { result ≡ errors.accuracy_error (Some bitrate) positions step }
{
    let off = parts_off(bitrate, positions, step);
    let microsecond = u128::from(MICROSECOND) * u128::from(bitrate);
    if off <= microsecond {
        return None;
    }
    Some(PcrError::Accuracy(off * 1000 / microsecond))
}

// How far a step is from what so many positions take at a bit rate, in parts of a unit.
fn parts_off(bitrate: u64, positions: u64, step: u64) -> u128
    requires { step < PERIOD }
    ensures is { result ≡ errors.parts_off bitrate positions step }
    ensures range { result < 2 ^ 107 }
{
    let taken = u128::from(positions) * u128::from(PACKET_UNITS);
    let told = u128::from(step) * u128::from(bitrate);
    if taken <= told {
        told - taken
    } else {
        taken - told
    }
}
