//! Laws of a report that is printed while the run goes. They run nothing.

ghost use Rattle.std.specs.Prelude.{◌≡◌, ◌<◌, ◌≤◌, ◌++◌, ℕ, suc, List, [], ◌∷◌, length, take, filter};
ghost use Rattle.ts_packet.specs.declared.cell.Cell.{Cell};
ghost use Rattle.chain_model.specs.declared.cause.Cause.{Cause};
ghost use Rattle.chain_model.specs.Prefix.{IsPrefix};
ghost use Rattle.chain_model.specs.StageLists.{rule_after, stage_list};
ghost use Rattle.chain_model.specs.Reports.{NamedRule, lines_after, end_line};
ghost use Rattle.chain_model.specs.PureRun.{Chain, chain_rules, reported_at};
ghost use Rattle.chain_live.specs.LiveReports.{is_before, lines_below, lines_to, list_met, live_reported, printed_below, sorted_from, texts_of};

/// The lines of one plugin, among those of all that are printed before a cut, are the lines that it reports at that cut; so
/// the report that is printed at the end is the live one with its lines sorted by plugin.
pub fn one_plugin_at_a_time()
    ensures lines { (chain : Chain) (m j : ℕ) → j < length chain.plugins
        → texts_of (suc j) (lines_below chain m)
        ≡ lines_after (rule_after (chain_rules chain) j) [] (take m (stage_list (chain_rules chain) chain.input j).cells) }
    ensures sorted { (chain : Chain) (m : ℕ) (why : Cause)
        → reported_at chain m why
        ≡ sorted_from (lines_below chain m) (list_met chain) m 0 chain.plugins ++ end_line why m }
{}

/// What is printed by the time that `w` packets are written is a first part of all that is printed, and it is the lines of
/// the packets before `w`: no line of one of these comes later, and none of another one came before.
pub fn a_report_grows()
    ensures grows { (chain : Chain) (w m : ℕ) → w ≤ m → IsPrefix (lines_below chain w) (lines_below chain m) }
    ensures bytes { (chain : Chain) (w m : ℕ) (why : Cause) → w ≤ m → IsPrefix (printed_below chain w) (live_reported chain m why) }
    ensures just { (chain : Chain) (w m : ℕ) → w ≤ m
        → filter (is_before w) (lines_below chain m) ≡ lines_below chain w }
{}

/// Of a chain of one plugin both reports are the same.
pub fn one_plugin_alone()
    ensures { (chain : Chain) (plugin : NamedRule) (m : ℕ) (why : Cause) → chain.plugins ≡ plugin ∷ []
        → live_reported chain m why ≡ reported_at chain m why }
{}

/// What is printed of the first `m` positions goes by the first `m` cells that each plugin met, and by nothing else: not by how
/// far the plugins are ahead.
pub fn only_what_was_met()
    ensures { (plugins : List NamedRule) (one other : ℕ → List Cell) (m : ℕ)
        → ((j : ℕ) → j < length plugins → take m (one j) ≡ take m (other j))
        → lines_to one plugins m ≡ lines_to other plugins m }
{}
