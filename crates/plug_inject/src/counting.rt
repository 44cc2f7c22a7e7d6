//! Counters that go on over all packets of a PID.
ghost use Rattle.std.specs.Prelude.{◌≡◌, IfSome, Some, None, if◌then◌else◌};
ghost use Rattle.std.specs.Option.{option_map};
ghost use Rattle.plug_inject.specs.Counted.{counted_on, next_behind};
ghost use Rattle.plug_inject.specs.InjectState.{counting_behind, recounted};

use ts_packet::Packet;

/// Gives the packets of a PID their counters, from 0 on.
#[derive(Drop, Clone, Copy)]
pub struct Counting {
    /// The PID.
    pub(crate) pid: u16,
    /// The counter of the next packet with a payload.
    pub(crate) next: u8,
}

/// What counts the packets of a PID where their counters are to go on, before the first of them.
pub(crate) fn counting_of(goes_on: bool, pid: u16) -> Option<Counting>
    ensures pid { option_map (λ c. c.pid) result ≡ (if goes_on then Some pid else None) }
    ensures fresh { IfSome result (λ c. c.next ≡ 0) }
{
    if goes_on {
        Some(Counting { pid, next: 0 })
    } else {
        None
    }
}

impl Counting {
    /// Gives the packet its counter, where it is on the PID.
    #[inline]
    fn meet(&mut self, packet: &mut Packet)
        ensures packet { packet.new ≡ counted_on self.old.pid self.old.next packet.old }
        ensures next { self.new.next ≡ next_behind self.old.pid self.old.next packet.old }
        ensures pid { self.new.pid ≡ self.old.pid }
    {
        if packet.pid() != self.pid {
            return;
        }
        let next = self.next % 16;
        if packet.has_payload() {
            packet.set_counter(next);
            self.next = (next + 1) % 16;
            return;
        }
        packet.set_counter((next + 15) % 16);
    }
}

/// Gives the packet its counter, where counters go on and it is on their PID.
#[inline]
pub(crate) fn count(counting: &mut Option<Counting>, packet: &mut Packet)
    ensures packet { packet.new ≡ recounted counting.old packet.old }
    ensures counting { counting.new ≡ counting_behind counting.old packet.old }
{
    if let Some(counting) = counting {
        counting.meet(packet);
    }
}
