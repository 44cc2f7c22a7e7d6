//! Constants of the packet (ISO/IEC 13818-1, 2.4.3.2).

/// The size of a packet in bytes.
pub const PACKET_SIZE: usize = 188;

/// The bytes after the 4-byte header: the size of the longest payload.
pub const PAYLOAD_SIZE: usize = 184;

/// `sync_byte`, the first byte of each packet.
pub const SYNC_BYTE: u8 = 0x47;

/// The number of PIDs; each is below it.
pub const PID_COUNT: u16 = 8192;

/// The PID of null packets, the greatest one.
pub const NULL_PID: u16 = 8191;
