//! Laws of what follows PIDs, each a fact and no code.

ghost use Rattle.std.specs.Prelude.{◌≡◌, ◌∷◌, ◌++◌, ℕ, [], List, Bool, false};
ghost use Rattle.ts_packet.specs.Header.{pid_of};
ghost use Rattle.plug_psi.specs.ByPid.{AllStand};
ghost use Rattle.plug_psi.specs.declared.by_pid.ByPid.{ByPid};

use crate::follows::Follows;

/// A packet whose PID is not followed at its position changes nothing: what stands for the packets before it stands for
/// them with it too. A law; it runs nothing.
#[inline]
pub fn unfollowed_packets_change_nothing<T: Follows>()
    ensures { (seed : T.Seed) (by : ByPid T) (follows : ℕ → List (List ℕ) → Bool) (met : List (List ℕ)) (packet : List ℕ) → AllStand (T.stands seed) by follows met
        → follows (pid_of packet) (met ++ packet ∷ []) ≡ false → AllStand (T.stands seed) by follows (met ++ packet ∷ []) }
{}
