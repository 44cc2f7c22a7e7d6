//! The mix: the pseudo-random number from which a packet's payload and PID are taken.
ghost use Rattle.std.specs.Prelude.{◌≡◌, ◌<◌, ◌^◌, ◌%◌};
ghost use Rattle.ts_testgen.specs.Mixed as mix;

use ts_packet::PAYLOAD_SIZE;

/// The mix of the packet with number `i`.
pub(crate) fn mixed(seed: u64, i: u64) -> u64
    requires { i < 2 ^ 60 }
    ensures { result ≡ mix.mixed seed i }
{
    seed.wrapping_add(i + 1)
        .wrapping_mul(6364136223846793005)
        .wrapping_add(1442695040888963407)
}

/// The eight bytes of the mix, lowest first, repeated.
pub(crate) fn mixed_bytes(r: u64) -> [u8; PAYLOAD_SIZE]
    ensures { result ≡ mix.mixed_bytes r PAYLOAD_SIZE }
{
    let mut bytes = [0; PAYLOAD_SIZE];
    for (k, byte) in bytes.iter_mut().enumerate() {
        *byte = mixed_byte(r, k);
    }
    bytes
}

/// The byte of the mix at a place, as `mixed_bytes` repeats them.
fn mixed_byte(r: u64, k: usize) -> u8
    ensures { result ≡ mix.mixed_byte r k }
{
    (r >> (8 * (k % 8)) & 0xFF) as u8
}
