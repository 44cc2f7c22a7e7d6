//! What a round prints. Laws; they run nothing.

ghost use Rattle.std.specs.Prelude.{◌≡◌, ◌<◌, ◌≤◌, ◌++◌, ℕ, List, length, map};
ghost use Rattle.ts_packet.specs.declared.cell.Cell.{Cell};
ghost use Rattle.chain_model.specs.Reports.{NamedRule, rules_of};
ghost use Rattle.chain_live.specs.LiveReports.{lines_to};
ghost use Rattle.chain_rounds.specs.Merged.{all_merged, AreRows, members_at, row};
ghost use Rattle.chain_rounds.specs.Round.{rows_merged, AreNames};
ghost use Rattle.chain_rounds.specs.Told.{told_merged, shown};

/// Several rows as one have at each position the members of the first row there, then those of the second, and so on.
pub fn rows_in_order<N>()
    ensures { (at : N → ℕ) (fs : List (ℕ → List N)) (m : ℕ) → AreRows at fs
        → all_merged at fs m ≡ row (members_at fs) m }
{}

/// What was printed up to a position, and then the lines that the plugins give out from it to another one, merged, are what is
/// printed up to that one.
pub fn a_round_prints_what_is_new()
    ensures lines { (met : ℕ → List Cell) (plugins : List NamedRule) (from to : ℕ) → from ≤ to
        → ((j : ℕ) → j < length plugins → to ≤ length (met j))
        → lines_to met plugins from ++ rows_merged met from to 0 plugins ≡ lines_to met plugins to }
    ensures shown { (name_of : ℕ → List ℕ) (met : ℕ → List Cell) (plugins : List NamedRule) (from to : ℕ) → from ≤ to
        → ((j : ℕ) → j < length plugins → to ≤ length (met j)) → AreNames name_of 0 plugins
        → lines_to met plugins from ++ map (shown name_of) (told_merged met from to 0 (rules_of plugins))
        ≡ lines_to met plugins to }
{}
