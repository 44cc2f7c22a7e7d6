//! The transport packet of ISO/IEC 13818-1, 2.4.3.2, and its header fields.
ghost use Rattle.std.specs.Prelude.{◌≡◌, ◌<◌, ◌↔◌, slice_index, IfOk, IfErr, IsOk};
ghost use Rattle.ts_bit_rows.specs.BitRow.{SetsField};
ghost use Rattle.ts_packet.specs.Packet.{IsPacket, null_packet};
ghost use Rattle.ts_packet.specs.Header.{error_indicator_of, unit_start_of, priority_of, pid_of, scrambling_of, adaptation_control_of, counter_of, has_payload_of, flag_of, with_error_indicator, with_unit_start, with_priority, with_pid, with_scrambling, with_adaptation_control, with_counter};

mod adaptation;
mod bits;
mod clock;
mod payload;

use crate::no_sync::NoSync;
use crate::numbers::{PACKET_SIZE, PID_COUNT, SYNC_BYTE};
use std::marker::Model;

/// A transport stream packet. Contracts see it as its 188 bytes, and `IsPacket` holds of them.
#[derive(Clone, Copy, Debug, PartialEq, Eq)]
pub struct Packet {
    row: [u8; PACKET_SIZE],
}

impl Model for Packet {
    ghost use Rattle.std.specs.Prelude.{ℕ, List};
    ghost use Rattle.ts_packet.specs.Packet.{IsPacket};

    ghost Value = { List ℕ };

    ghost view = { λ p. p.row };

    ghost invariant = { λ p. IsPacket p.row };

    ghost inverse = { λ row. record { row = row } };
}

impl Packet {
    /// The packet of these bytes; `NoSync` where they do not begin with the sync byte.
    pub fn of(bytes: &[u8; PACKET_SIZE]) -> Result<Self, NoSync>
        ensures accepted { IsOk result ↔ (slice_index bytes.now 0 ≡ SYNC_BYTE) }
        ensures bytes { IfOk result (λ packet. packet ≡ bytes.now) }
        ensures packet { IfOk result (λ packet. IsPacket packet) }
        ensures found { IfErr result (λ fault. fault.found ≡ slice_index bytes.now 0) }
    {
        if bytes[0] == SYNC_BYTE {
            Ok(Packet { row: *bytes })
        } else {
            Err(NoSync { found: bytes[0] })
        }
    }

    /// Takes over these bytes, which begin with the sync byte.
    #[inline]
    pub(crate) fn set_bytes(&mut self, bytes: &[u8; PACKET_SIZE])
        requires sync { slice_index bytes.now 0 ≡ SYNC_BYTE }
        ensures bytes { self.new ≡ bytes.now }
        ensures packet { IsPacket self.new }
    {
        self.row.copy_from_slice(bytes);
    }

    /// The null packet: PID 8191, continuity counter 0, and 184 payload bytes 0xFF.
    pub fn null() -> Self
        ensures bytes { result ≡ null_packet }
        ensures packet { IsPacket result }
    {
        let mut row = [0xFF; PACKET_SIZE];
        row[0] = SYNC_BYTE;
        row[1] = 0x1F;
        row[3] = 0x10;
        Packet { row }
    }

    /// All bytes of the packet.
    pub fn bytes(&self) -> &[u8; PACKET_SIZE]
        ensures bytes { result.now ≡ self.now }
        ensures packet { IsPacket self.now }
    {
        &self.row
    }
}

/// The header's fields.
#[tactic(auto, unfolding(ts_bit_rows::specs::BitRow::field, ts_bit_rows::specs::BitRow::bit_of))]
impl Packet {
    /// `transport_error_indicator`.
    pub fn error_indicator(&self) -> bool
        ensures { result ≡ error_indicator_of self.now }
    {
        (self.row[1] >> 7) & 1 == 1
    }

    /// `payload_unit_start_indicator`.
    pub fn unit_start(&self) -> bool
        ensures { result ≡ unit_start_of self.now }
    {
        (self.row[1] >> 6) & 1 == 1
    }

    /// `transport_priority`.
    pub fn priority(&self) -> bool
        ensures { result ≡ priority_of self.now }
    {
        (self.row[1] >> 5) & 1 == 1
    }

    /// The packet identifier (PID), 0 to 8191.
    pub fn pid(&self) -> u16
        ensures field { result ≡ pid_of self.now }
        ensures range { result < PID_COUNT }
    {
        u16::from(self.row[1] & 0x1F) << 8 | u16::from(self.row[2])
    }

    /// `transport_scrambling_control`, 0 to 3.
    pub fn scrambling(&self) -> u8
        ensures field { result ≡ scrambling_of self.now }
        ensures range { result < 4 }
    {
        self.row[3] >> 6
    }

    /// `adaptation_field_control`, 0 to 3.
    pub fn adaptation_control(&self) -> u8
        ensures field { result ≡ adaptation_control_of self.now }
        ensures range { result < 4 }
    {
        (self.row[3] >> 4) & 0x03
    }

    /// `continuity_counter`, 0 to 15.
    pub fn counter(&self) -> u8
        ensures field { result ≡ counter_of self.now }
        ensures range { result < 16 }
    {
        self.row[3] & 0x0F
    }

    /// Whether the packet has a payload: the low bit of `adaptation_field_control`.
    pub fn has_payload(&self) -> bool
        ensures { result ≡ has_payload_of self.now }
    {
        (self.row[3] >> 4) & 1 == 1
    }
}

/// Writers of the header's fields; each changes its field alone.
#[tactic(auto, unfolding(crate::specs::Header::with_error_indicator, crate::specs::Header::with_unit_start, crate::specs::Header::with_priority, crate::specs::Header::with_pid, crate::specs::Header::with_scrambling, crate::specs::Header::with_adaptation_control, crate::specs::Header::with_counter))]
impl Packet {
    /// Sets `transport_error_indicator`.
    pub fn set_error_indicator(&mut self, on: bool)
        ensures field { SetsField self.old self.new 8 1 (flag_of on) }
        ensures row { self.new ≡ with_error_indicator self.old on }
        ensures packet { IsPacket self.new }
    {
        self.write_bits(1, 0, 1, u8::from(on));
    }

    /// Sets `payload_unit_start_indicator`.
    pub fn set_unit_start(&mut self, on: bool)
        ensures field { SetsField self.old self.new 9 1 (flag_of on) }
        ensures row { self.new ≡ with_unit_start self.old on }
        ensures packet { IsPacket self.new }
    {
        self.write_bits(1, 1, 1, u8::from(on));
    }

    /// Sets `transport_priority`.
    pub fn set_priority(&mut self, on: bool)
        ensures field { SetsField self.old self.new 10 1 (flag_of on) }
        ensures row { self.new ≡ with_priority self.old on }
        ensures packet { IsPacket self.new }
    {
        self.write_bits(1, 2, 1, u8::from(on));
    }

    /// Sets the packet identifier.
    pub fn set_pid(&mut self, pid: u16)
        requires { pid < PID_COUNT }
        ensures field { SetsField self.old self.new 11 13 pid }
        ensures row { self.new ≡ with_pid self.old pid }
        ensures packet { IsPacket self.new }
    {
        self.write_bits(1, 3, 5, (pid >> 8) as u8);
        self.write_byte(2, (pid & 0xFF) as u8);
    }

    /// Sets `transport_scrambling_control`.
    pub fn set_scrambling(&mut self, control: u8)
        requires { control < 4 }
        ensures field { SetsField self.old self.new 24 2 control }
        ensures row { self.new ≡ with_scrambling self.old control }
        ensures packet { IsPacket self.new }
    {
        self.write_bits(3, 0, 2, control);
    }

    /// Sets `adaptation_field_control`.
    pub fn set_adaptation_control(&mut self, control: u8)
        requires { control < 4 }
        ensures field { SetsField self.old self.new 26 2 control }
        ensures row { self.new ≡ with_adaptation_control self.old control }
        ensures packet { IsPacket self.new }
    {
        self.write_bits(3, 2, 2, control);
    }

    /// Sets `continuity_counter`.
    pub fn set_counter(&mut self, counter: u8)
        requires { counter < 16 }
        ensures field { SetsField self.old self.new 28 4 counter }
        ensures row { self.new ≡ with_counter self.old counter }
        ensures packet { IsPacket self.new }
    {
        self.write_bits(3, 4, 4, counter);
    }
}
