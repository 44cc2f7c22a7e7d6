//! Scrambled packets.
ghost use Rattle.std.specs.Prelude.{◌≡◌};
ghost use Rattle.monitor_tables.specs.TableIds as tables;

use ts_packet::Packet;

/// The PID of the PAT (ISO/IEC 13818-1, 2.4.3.3).
const PAT_PID: u16 = 0;

/// Whether a packet is scrambled; one with a transport_error_indicator is not looked at.
#[inline]
pub fn is_scrambled(packet: &Packet) -> bool
    ensures { result ≡ tables.is_scrambled packet.now }
{
    packet.scrambling() != 0 && !packet.error_indicator()
}

/// Whether it is so on the PID of the PAT, which is an error (ETSI TR 101 290, 5.2.1, 1.3).
#[inline]
pub fn is_scrambled_pat(packet: &Packet) -> bool
    ensures { result ≡ tables.is_scrambled_pat packet.now }
{
    packet.pid() == PAT_PID && is_scrambled(packet)
}
