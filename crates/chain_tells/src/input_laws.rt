//! The lines of a chain with those of its input. Laws; they run nothing.
ghost use Rattle.std.specs.Prelude.{◌≡◌, ◌++◌, ℕ, suc, List, [], map, filter};
ghost use Rattle.std.specs.List.{AllByRecursion};
ghost use Rattle.chain_model.specs.PureRun.{Chain};
ghost use Rattle.chain_live.specs.LiveReports.{LiveLine, is_before, lines_below, texts_of};
ghost use Rattle.chain_rounds.specs.Merged.{merged};
ghost use Rattle.chain_rounds.specs.Round.{place};
ghost use Rattle.chain_tells.specs.InputLines.{AreBefore, AreFrom, lines_with};

/// Restricted to one plugin, what is printed with the lines of an input is what is printed without them; restricted to the input
/// it is the input's lines. So sorted by what reports it is the report that is printed after the end.
pub fn an_input_beside_plugins()
    ensures none { (chain : Chain) (m : ℕ) → lines_with [] chain m ≡ lines_below chain m }
    ensures plugins { (input : List LiveLine) (chain : Chain) (m j : ℕ) → AllByRecursion (λ (line : LiveLine). line.plugin ≡ 0) input
        → texts_of (suc j) (lines_with input chain m) ≡ texts_of (suc j) (lines_below chain m) }
    ensures input { (input : List LiveLine) (chain : Chain) (m : ℕ) → AllByRecursion (λ (line : LiveLine). line.plugin ≡ 0) input
        → texts_of 0 (lines_with input chain m) ≡ map (λ line. line.text) (filter (is_before m) input) }
{}

/// What is printed round by round is what is printed at once: two rows that are cut at one position, merged.
pub fn rounds_of_two_rows()
    ensures { (m : ℕ) (first second first_later second_later : List LiveLine)
        → AreBefore m first → AreBefore m second → AreFrom m first_later → AreFrom m second_later
        → merged place (first ++ first_later) (second ++ second_later)
        ≡ merged place first second ++ merged place first_later second_later }
{}
