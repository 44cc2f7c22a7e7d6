//! Laws of the tables of a PID, each a fact and no code.

ghost use Rattle.std.specs.Prelude.{◌≡◌, ◌∷◌, ◌++◌, ℕ, List, [], false};
ghost use Rattle.ts_demux.specs.CountedPackets.{counts};
ghost use Rattle.ts_demux.specs.PidTables.{StandsFor};
ghost use Rattle.ts_demux.specs.TablesOn.{Completes, packets_on, tables_on};
ghost use Rattle.ts_demux.specs.declared.pid_tables.PidTables.{PidTables as GivenTables};

/// What stands for packets on a PID stands for one more too that does not count for its sections. A law: it runs nothing.
pub fn uncounted_packets_change_nothing()
    ensures { (tables : GivenTables) (pid : ℕ) (taken : List (List ℕ)) (packet : List ℕ) → StandsFor tables pid taken
        → counts pid packet ≡ false → StandsFor tables pid (taken ++ packet ∷ []) }
{}

/// A packet that does not count for the sections of a PID completes no table on it. A law: it runs nothing.
pub fn other_packets_complete_nothing()
    ensures { (pid : ℕ) (taken : List (List ℕ)) (packet : List ℕ) → counts pid packet ≡ false → Completes pid taken packet [] }
{}

/// Packets complete on a PID the tables that those of the PID alone complete. A law: it runs nothing.
pub fn tables_are_of_the_pid()
    ensures { (pid : ℕ) (packets : List (List ℕ)) → tables_on pid (packets_on pid packets) ≡ tables_on pid packets }
{}
