//! Laws of summaries at each so-many-th packet. They run nothing.

ghost use Rattle.std.specs.Prelude.{◌≡◌, ◌≤◌, ◌+◌, ◌∷◌, ◌++◌, ℕ, List, [], Bool, true, false, take, length};
ghost use Rattle.ts_packet.specs.declared.cell.Cell.{Cell};
ghost use Rattle.ts_packet.specs.Cells.{Live};
ghost use Rattle.chain_model.specs.PluginRule.{PluginRule};
ghost use Rattle.chain_model.specs.Apply.{apply};
ghost use Rattle.plugin_trait.specs.LiveCount.{live_count};
ghost use Rattle.plugin_trait.specs.PlacedLines.{placed_at, placed_between};
ghost use Rattle.plugin_notes.specs.NotesKept.{KeepsNotes, StartsFrom};
ghost use Rattle.plug_every.specs.DueNotes.{due_on, place_of};
ghost use Rattle.plug_every.specs.EveryRule.{every_rule, is_due, summed_up};
ghost use Rattle.plug_every.specs.declared.due.Due.{Due};

/// The cells that a plugin gives are the same with and without such summaries, and so are its summary, whether it agrees to
/// end, and whether a run has a fault.
pub fn nothing_else_changes()
    ensures cells { (n : ℕ) (counts : Bool) (rule : PluginRule) (cells : List Cell)
        → apply (every_rule n counts rule) cells ≡ apply rule cells }
    ensures summary { (n : ℕ) (counts : Bool) (rule : PluginRule) (cells : List Cell)
        → (every_rule n counts rule).summary_of cells ≡ rule.summary_of cells }
    ensures agrees { (n : ℕ) (counts : Bool) (rule : PluginRule) (cells : List Cell)
        → (every_rule n counts rule).agrees cells ≡ rule.agrees cells }
    ensures fault { (n : ℕ) (counts : Bool) (rule : PluginRule) (cells : List Cell)
        → (every_rule n counts rule).has_fault cells ≡ rule.has_fault cells }
{}

/// At a due packet there are the plugin's own lines, and behind them how many packets it saw and the summary of a run that
/// is cut behind the packet; at no other one is a line added.
pub fn a_summary_every_so_many()
    ensures due { (n : ℕ) (counts : Bool) (rule : PluginRule) (history : List Cell) (packet : List ℕ) (labels : ℕ)
        → is_due n history ≡ true
        → (every_rule n counts rule).lines_of history packet labels
        ≡ rule.lines_of history packet labels ++ summed_up counts rule (history ++ Live packet labels ∷ []) }
    ensures none { (n : ℕ) (counts : Bool) (rule : PluginRule) (history : List Cell) (packet : List ℕ) (labels : ℕ)
        → is_due n history ≡ false
        → (every_rule n counts rule).lines_of history packet labels ≡ rule.lines_of history packet labels }
{}

/// From a mark up to the first due packet from there on, and with it, there are the lines that the plugin gives out at a mark
/// behind that packet, and then what is said there; the due packets that are left are kept from that mark on. Where none is
/// due below a position, there are the plugin's lines alone.
pub fn a_mark_behind_each_summary()
    ensures keeps { (n : ℕ) (history : List Cell) (from : ℕ) (due : Due) (rest : List Due)
        → KeepsNotes (due_on n) (due ∷ rest) history from → KeepsNotes (due_on n) rest history (due.at + 1) }
    ensures seen { (n : ℕ) (history : List Cell) (from : ℕ) (due : Due) (rest : List Due)
        → KeepsNotes (due_on n) (due ∷ rest) history from → due.seen ≡ live_count (take (due.at + 1) history) }
    ensures lines { (n : ℕ) (counts : Bool) (rule : PluginRule) (history : List Cell) (from : ℕ) (due : Due) (rest : List Due)
        → KeepsNotes (due_on n) (due ∷ rest) history from
        → placed_between (every_rule n counts rule) history from (due.at + 1)
        ≡ placed_between rule history from (due.at + 1)
        ++ placed_at due.at (summed_up counts rule (take (due.at + 1) history)) }
    ensures none { (n : ℕ) (counts : Bool) (rule : PluginRule) (history : List Cell) (from to : ℕ) (notes : List Due)
        → KeepsNotes (due_on n) notes history from → StartsFrom place_of to notes → from ≤ to
        → placed_between (every_rule n counts rule) history from to ≡ placed_between rule history from to }
{}
