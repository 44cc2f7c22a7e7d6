//! Packets with which tables may come into force.
ghost use Rattle.std.specs.Prelude.{◌≡◌, ◌++◌, ◌∷◌, [], ℕ, List, true, false};
ghost use Rattle.ts_packet.specs.Header.{pid_of};
ghost use Rattle.monitor_keys.specs.Looks.{is_look};
ghost use Rattle.plug_psi.specs.ForceStands.{StandsFor as Forced};
ghost use Rattle.plug_psi.specs.InForce.{follows};
ghost use Rattle.plug_psi.specs.SameForce.{SameInForce};

use monitor_keys::Span;
use plug_psi::InForce;
use ts_packet::Packet;

/// The PID of the PAT (ISO/IEC 13818-1, 2.4.3.3).
pub(crate) const PAT_PID: u16 = 0;

/// Whether a PAT or a PMT may have come into force with a packet, which the tables in force have been fed already. If not, the same
/// ones are in force as before it, and its PID is not that of a PMT.
#[inline]
pub(crate) fn may_bring_tables(packet: &Packet, force: &InForce) -> bool
    ensures same { result ≡ false → (fed : List (List ℕ)) → Forced force.now (fed ++ packet.now ∷ []) → SameInForce fed packet.now }
    ensures unfollowed { result ≡ false → (fed : List (List ℕ)) → Forced force.now (fed ++ packet.now ∷ [])
        → follows (pid_of packet.now) (fed ++ packet.now ∷ []) ≡ false }
{
    let pid = packet.pid();
    if pid == PAT_PID {
        return true;
    }
    force.follows(pid)
}

/// Whether a row has nothing to do with the packet of a span, on which one of its keys occurs or not: none does, it has no PCR that
/// is read, and it brings no tables.
#[inline]
pub(crate) fn is_idle(span: &Span, packet: &Packet, force: &InForce, occurs: bool) -> bool
    ensures none { result ≡ true → occurs ≡ false }
    ensures no_look { result ≡ true → is_look span.now ≡ false }
    ensures same { result ≡ true → (fed : List (List ℕ)) → Forced force.now (fed ++ packet.now ∷ []) → SameInForce fed packet.now }
    ensures unfollowed { result ≡ true → (fed : List (List ℕ)) → Forced force.now (fed ++ packet.now ∷ [])
        → follows (pid_of packet.now) (fed ++ packet.now ∷ []) ≡ false }
{
    if occurs {
        return false;
    }
    if span.is_look() {
        return false;
    }
    if may_bring_tables(packet, force) {
        return false;
    }
    true
}
