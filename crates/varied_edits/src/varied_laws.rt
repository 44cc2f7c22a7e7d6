//! Laws of editors whose edits may change, each a fact and no code.

ghost use Rattle.std.specs.Prelude.{◌≡◌, ◌++◌, ◌∷◌, ℕ, [], List, Bool, false};
ghost use Rattle.ts_packet.specs.Header.{pid_of};
ghost use Rattle.plug_psi.specs.InUse.{EditAsMet};
ghost use Rattle.varied_edits.specs.VariedStands.{AllVary};
ghost use Rattle.varied_edits.specs.declared.varied_pids.VariedPids.{VariedPids};

use crate::edit_from::EditFrom;

/// A packet whose PID is not followed at its position changes nothing: what stands for the packets before it stands for them
/// with it too. A law; it runs nothing.
#[inline]
pub fn untaken_packets_change_nothing<E: EditFrom>()
    ensures { (pids : VariedPids E E.Source) (follows : ℕ → List (List ℕ) → Bool) (wanted : EditAsMet) (met : List (List ℕ)) (packet : List ℕ)
        → AllVary E.change pids follows wanted met → follows (pid_of packet) (met ++ packet ∷ []) ≡ false
        → AllVary E.change pids follows wanted (met ++ packet ∷ []) }
{}
