//! The buffers of an input and of an output.

ghost use Rattle.std.specs.Prelude.{◌≤◌, vec_len};
ghost use Rattle.ts_packet.specs.declared.numbers.TheConstants.{PACKET_SIZE};

use std::alloc::{AllocError, Global};
use ts_packet::PACKET_SIZE;

/// Room for the bytes of packets, taken before the run: an input reads into it, and an output gathers there what it
/// writes. One read or write moves at most as much as fits.
#[derive(Drop)]
pub struct IoBuffer {
    pub(crate) bytes: Vec<u8>,
    ghost some_packet: { PACKET_SIZE ≤ vec_len bytes },
}

impl IoBuffer {
    ghost use Rattle.std.specs.Prelude.{◌≡◌, ◌≤◌, ◌*◌, IfOk};
    ghost use Rattle.stage_run.specs.RoomSize.{bytes_of_room};

    /// Room for so many packets. `AllocError` where there is no memory for it.
    pub fn new(alloc: Global, packets: usize) -> Result<IoBuffer, AllocError>
        requires some { 1 ≤ packets }
        requires few { packets ≤ 1000000 }
        ensures { IfOk result (λ room. bytes_of_room room ≡ PACKET_SIZE * packets) }
    {
        let bytes = vec![in alloc; 0; PACKET_SIZE * packets]?;
        Ok(IoBuffer { bytes })
    }
}
