//! The program clock reference of ISO/IEC 13818-1, 2.4.3.5, in units of the 27 MHz system clock.
ghost use Rattle.std.specs.Prelude.{◌≡◌, ◌+◌, ◌*◌, ◌^◌, ◌<◌, IfSome};
ghost use Rattle.std.specs.Bool.{OnTrue, OnFalse};
ghost use Rattle.ts_packet.specs.Packet.{IsPacket};
ghost use Rattle.ts_packet.specs.Pcr.{has_pcr_of, clock_of, pcr_of, SetsPcr, clock_bytes, with_pcr};

use super::Packet;

impl Packet {
    /// The PCR, base times 300 plus extension; none where no valid adaptation field has one.
    #[tactic(auto, unfolding(crate::specs::Pcr::pcr_of))]
    pub fn pcr(&self) -> Option<u64>
        ensures value { result ≡ pcr_of self.now }
        ensures range { IfSome result (λ value. value < 2 ^ 33 * 300 + 212) }
    {
        if self.has_pcr() {
            Some(self.clock())
        } else {
            None
        }
    }

    /// Writes the PCR where the packet has one, with its six reserved bits as ones, and returns whether it has.
    #[tactic(auto, unfolding(crate::specs::Pcr::with_pcr))]
    pub fn set_pcr(&mut self, value: u64) -> bool
        requires { value < 2 ^ 33 * 300 }
        ensures outcome { result ≡ has_pcr_of self.old }
        ensures written { OnTrue result (SetsPcr self.old self.new value) }
        ensures row { OnTrue result (self.new ≡ with_pcr self.old value) }
        ensures reads_back { OnTrue result (pcr_of self.new ≡ Some value) }
        ensures unchanged { OnFalse result (self.new ≡ self.old) }
        ensures packet { IsPacket self.new }
    {
        if !self.has_pcr() {
            return false;
        }
        self.write_bytes(6, &clock_bytes(value / 300, value % 300));
        true
    }

    /// Whether a valid adaptation field has its PCR_flag set and room for a PCR.
    #[tactic(auto, unfolding(ts_bit_rows::specs::BitRow::field, ts_bit_rows::specs::BitRow::bit_of, crate::specs::Pcr::has_pcr_of))]
    fn has_pcr(&self) -> bool
        ensures value { result ≡ has_pcr_of self.now }
        ensures packet { IsPacket self.now }
    {
        let flags = self.row[5];
        match self.adaptation_length() {
            Some(length) => length >= 7 && (flags >> 4) & 1 == 1,
            None => false,
        }
    }

    /// The value at the PCR's place.
    fn clock(&self) -> u64
        ensures value { result ≡ clock_of self.now }
        ensures range { result < 2 ^ 33 * 300 + 212 }
    {
        let row = &self.row;
        let high = u32::from_be_bytes([row[6], row[7], row[8], row[9]]);
        let base = u64::from(high) << 1 | u64::from(row[10] >> 7);
        let extension = u64::from(row[10] & 1) << 8 | u64::from(row[11]);
        base * 300 + extension
    }
}

/// The six bytes of a PCR field: 33 bits of base, six reserved ones, 9 bits of extension.
fn clock_bytes(base: u64, extension: u64) -> [u8; 6]
    requires base_fits { base < 2 ^ 33 }
    requires extension_fits { extension < 2 ^ 9 }
    ensures { result ≡ clock_bytes base extension }
{
    [
        (base >> 25) as u8,
        ((base >> 17) & 0xFF) as u8,
        ((base >> 9) & 0xFF) as u8,
        ((base >> 1) & 0xFF) as u8,
        ((base & 1) << 7 | 0x7E | extension >> 8) as u8,
        (extension & 0xFF) as u8,
    ]
}
