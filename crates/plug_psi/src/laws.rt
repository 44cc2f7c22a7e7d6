//! Laws of contents and cycles, each a fact and no code.

ghost use Rattle.std.specs.Prelude.{◌≡◌, ◌≤◌, ℕ, ◌++◌, ◌∷◌, List, length, Option};
ghost use Rattle.std.specs.List.{filter_map};
ghost use Rattle.ts_table_rows.specs.TableValues.{TableHolding};
ghost use Rattle.ts_packetize.specs.Ordinals.{replaced_at};
ghost use Rattle.plug_psi.specs.Contents.{entries_of};
ghost use Rattle.plug_psi.specs.EditedCycles.{EditsInUse, cycles_by, replaced_by};
ghost use Rattle.plug_psi.specs.LastFound.{last_found, last_one};
ghost use Rattle.plug_psi.specs.LastTables.{AreLast};

/// What is put in a packet's place is the same by the cycles of the whole list of taken packets, also of those after
/// it, and whatever edits are in use at those. So an editor need not know what is to come. A law; it runs nothing.
pub fn later_packets_change_nothing()
    ensures { (pid : ℕ) (edits later : EditsInUse) (taken more : List (List ℕ)) (packet : List ℕ)
        → ((s : ℕ) → s ≤ length taken → later s ≡ edits s)
        → replaced_at (cycles_by pid later (taken ++ packet ∷ more)) (length taken) ≡ replaced_by pid edits taken packet }
{}

/// The contents have each key of the tables once, in the order in which the keys were first complete, with the last
/// of its tables. A law; it runs nothing.
pub fn contents_are_last_tables()
    ensures { (tables : List (List (List ℕ))) → AreLast (entries_of tables) tables }
{}

/// What is found in the last table in which something is found is the last of everything that is found. For a PAT or a
/// PMT in force, this is the last one that is current and reads. A law; it runs nothing.
pub fn last_found_is_the_last()
    ensures { (found : List (List ℕ) → Option TableHolding) (tables : List (List (List ℕ)))
        → last_found found tables ≡ last_one (filter_map found tables) }
{}
