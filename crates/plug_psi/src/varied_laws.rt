//! Laws of edits that may change, each a fact and no code.

ghost use Rattle.std.specs.Prelude.{◌≡◌, List, ℕ};
ghost use Rattle.ts_packet.specs.Header.{pid_of};
ghost use Rattle.ts_demux.specs.TablesOn.{packets_on};
ghost use Rattle.plug_psi.specs.EditedCycles.{replaced};
ghost use Rattle.plug_psi.specs.Edits.{Change};
ghost use Rattle.plug_psi.specs.InUse.{replaced_as};

/// An edit that is the same whatever was met is one edit of all packets on the PID. A law; it runs nothing.
pub fn an_edit_that_stays_is_one_edit()
    ensures { (edit : List (List ℕ) → Change) (met : List (List ℕ)) (packet : List ℕ)
        → replaced_as (pid_of packet) (λ before. edit) met packet ≡ replaced (pid_of packet) edit (packets_on (pid_of packet) met) packet }
{}
