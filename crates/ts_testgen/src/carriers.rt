//! The packets with a PCR, and those with only a payload.
ghost use Rattle.std.specs.Prelude.{◌≡◌, ◌+◌, ◌<◌, ◌*◌, ◌^◌, false, replicate};
ghost use Rattle.ts_packetize.specs.Packets.{packet_with};
ghost use Rattle.ts_testgen.specs.Generated.{clock_at, clock_packet};
ghost use Rattle.ts_testgen.specs.Mixed as mix;

use crate::mixed::mixed_bytes;
use ts_packet::{PAYLOAD_SIZE, Packet};

/// The PID of PCRs, the first of the four PIDs with payloads.
pub(crate) const FIRST_PID: u16 = 256;
/// The size of a packet's header in bytes.
const HEADER: u8 = 4;

/// The size in bytes of an adaptation field with a PCR and nothing else.
const CLOCK_FIELD: u8 = 8;
/// The step of the PCR from one packet number to the next, in units of 27 MHz.
const CLOCK_STEP: u64 = 3000;

/// The modulus of the PCR: 2^33 times 300.
const CLOCK_END: u64 = 2576980377600;

/// The PCR of the packet with this number, in units of 27 MHz. It repeats after 2^32 packets.
fn clock_at(i: u64) -> u64
    ensures clock { result ≡ clock_at i }
    ensures range { result < 2 ^ 33 * 300 }
{
    CLOCK_STEP * (i % (1 << 32)) % CLOCK_END
}

/// The packet with the PCR of this number, followed by the bytes of the mix `r`.
pub(crate) fn clock_packet(r: u64, i: u64, counter: u8) -> Packet
    requires { counter < 16 }
    ensures { result ≡ clock_packet counter (clock_at i) (mix.mixed_bytes r 176) }
{
    let mut packet = clocked(clock_at(i));
    packet.set_counter(counter);
    let payload = mixed_bytes(r);
    packet.put_payload(HEADER + CLOCK_FIELD, &payload[..PAYLOAD_SIZE - 8]);
    packet
}

/// The packet with a PCR, continuity counter 0, and a payload of 0xFF alone.
fn clocked(clock: u64) -> Packet
    requires { clock < 2 ^ 33 * 300 }
    ensures { result ≡ clock_packet 0 clock (replicate 176 0xFF) }
{
    let mut packet = Packet::null();
    packet.set_pid(FIRST_PID);
    packet.set_adaptation_control(3);
    packet.put_payload(HEADER, &[7, 0x10]);
    packet.set_pcr(clock);
    packet
}

/// The packet with only the bytes of the mix `r`, on PID 256 + `component`.
pub(crate) fn payload_packet(r: u64, component: u8, counter: u8) -> Packet
    requires component { component < 4 }
    requires counter { counter < 16 }
    ensures { result ≡ packet_with (256 + component) counter (record { unit_start = false; payload = mix.mixed_bytes r 184 }) }
{
    let mut packet = Packet::null();
    packet.set_pid(FIRST_PID + u16::from(component));
    packet.set_counter(counter);
    packet.put_payload(HEADER, &mixed_bytes(r));
    packet
}
