//! The packet forms of files.
ghost use Rattle.std.specs.Prelude.{◌≡◌, ◌<◌};

/// How a file stores its packets: with which bytes before and after each of them.
#[derive(Clone, Copy, Debug, PartialEq, Eq)]
pub enum Form {
    /// Packets of 188 bytes and nothing else (ISO/IEC 13818-1).
    Ts,
    /// Units of 192 bytes: four bytes of an arrival time and a packet, as on a Blu-ray disc.
    M2ts,
    /// Units of 204 bytes: a packet and 16 bytes of a Reed-Solomon code, as a receiver of EN 300 421 may give it.
    Rs204,
}

impl Form {
    ghost use Rattle.packet_forms.specs.Stripped.{lead, unit, to_packet, in_packet};

    /// The number of bytes before the packet of a unit.
    pub fn lead(self) -> usize
        ensures { result ≡ lead self }
    {
        match self {
            Form::Ts | Form::Rs204 => 0,
            Form::M2ts => 4,
        }
    }

    /// The size of a unit in bytes: a packet with the bytes before and after it.
    pub fn unit(self) -> usize
        ensures { result ≡ unit self }
    {
        match self {
            Form::Ts => 188,
            Form::M2ts => 192,
            Form::Rs204 => 204,
        }
    }

    /// The number of bytes before the next one of a packet, after `place` bytes of a unit; 0 within a packet.
    pub(crate) fn to_packet(self, place: usize) -> usize
        requires { place < unit self }
        ensures { result ≡ to_packet self place }
    {
        let lead = self.lead();
        if place < lead {
            return lead - place;
        }
        if place < lead + 188 {
            return 0;
        }
        self.unit() - place + lead
    }

    /// The number of bytes of the packet still to come, after `place` bytes of a unit; 0 outside a packet.
    pub(crate) fn in_packet(self, place: usize) -> usize
        requires { place < unit self }
        ensures { result ≡ in_packet self place }
    {
        let lead = self.lead();
        if place < lead {
            return 0;
        }
        if place < lead + 188 {
            lead + 188 - place
        } else {
            0
        }
    }
}
