//! The adaptation field of ISO/IEC 13818-1, 2.4.3.4 and 2.4.3.5.
ghost use Rattle.std.specs.Prelude.{◌≡◌, ◌≤◌, IfSome};
ghost use Rattle.ts_packet.specs.Adaptation.{adaptation_length_of, discontinuity_of};

use super::Packet;

/// The length of an adaptation field without a payload after it.
const LENGTH_ALONE: u8 = 183;
/// The longest adaptation field with a payload after it.
const LENGTH_WITH_PAYLOAD: u8 = 182;

#[tactic(auto, unfolding(ts_bit_rows::specs::BitRow::field, ts_bit_rows::specs::BitRow::bit_of, crate::specs::Adaptation::adaptation_length_of, crate::specs::Adaptation::discontinuity_of))]
impl Packet {
    /// `adaptation_field_length`, where the packet has an adaptation field and the length is valid:
    /// 183 without a payload, at most 182 with a payload after the field.
    pub fn adaptation_length(&self) -> Option<u8>
        ensures length { result ≡ adaptation_length_of self.now }
        ensures range { IfSome result (λ length. length ≤ 183) }
    {
        let length = self.row[4];
        match self.adaptation_control() {
            2 if length == LENGTH_ALONE => Some(length),
            3 if length <= LENGTH_WITH_PAYLOAD => Some(length),
            _ => None,
        }
    }

    /// `discontinuity_indicator` of a valid adaptation field; false where there is none, or where it is empty.
    pub fn discontinuity(&self) -> bool
        ensures { result ≡ discontinuity_of self.now }
    {
        match self.adaptation_length() {
            Some(length) => length >= 1 && (self.row[5] >> 7) & 1 == 1,
            None => false,
        }
    }
}
