//! Laws of rows of keys. They run nothing.
ghost use Rattle.std.specs.Prelude.{◌≡◌, ◌++◌, ◌∷◌, [], ℕ, List, true, false};
ghost use Rattle.ts_packet.specs.declared.cell.Cell.{Cell};
ghost use Rattle.ts_packet.specs.Cells.{Dropped, Live};
ghost use Rattle.ts_packet.specs.Header.{error_indicator_of};
ghost use Rattle.monitor_keys.specs.Keys.{span_on};
ghost use Rattle.monitor_keys.specs.Looks.{is_look};
ghost use Rattle.monitor_rows.specs.declared.key_row.KeyRow.{KeyRow as Kept};
ghost use Rattle.monitor_rows.specs.KeyRows.{RowRule, row_gaps};
ghost use Rattle.monitor_rows.specs.RowStands.{AreOccurring, HasKeys, IsRow, SameNames};

/// A law; it runs nothing. A cell whose packet was dropped leaves a row as it is: the tables in force stay.
pub fn a_dropped_cell_leaves_the_row()
    ensures { (rule : RowRule) (row : Kept) (history : List Cell) → IsRow rule row history → IsRow rule row (history ++ Dropped ∷ []) }
{}

/// A law; it runs nothing. Where the tables in force name the same keys with a packet, the row has these keys already.
pub fn names_that_stay_leave_the_row()
    ensures { (rule : RowRule) (row : Kept) (history : List Cell) (packet : List ℕ) (labels : ℕ) → IsRow rule row history
        → SameNames rule history packet → HasKeys rule row history (history ++ Live packet labels ∷ []) }
{}

/// A law; it runs nothing. A packet that has no PCR that is read leaves a row as it is, where no key occurs on it and the tables in
/// force name the same keys with it, and no gap is told with it: a layer above need not hand it to the row.
pub fn a_packet_without_news_leaves_the_row()
    ensures stands { (rule : RowRule) (row : Kept) (history : List Cell) (packet : List ℕ) (labels : ℕ) → IsRow rule row history
        → is_look (span_on rule.pcr_pid history packet) ≡ false → SameNames rule history packet → AreOccurring rule history packet []
        → IsRow rule row (history ++ Live packet labels ∷ []) }
    ensures tells { (rule : RowRule) (history : List Cell) (packet : List ℕ) → is_look (span_on rule.pcr_pid history packet) ≡ false
        → row_gaps rule history packet ≡ [] }
{}

/// A law; it runs nothing. A packet with a transport_error_indicator is for a row as though it was dropped, where no key occurs on
/// it and the tables in force name the same keys with it: its PCR is not read, so nothing is told.
pub fn an_errored_packet_leaves_the_row()
    ensures stands { (rule : RowRule) (row : Kept) (history : List Cell) (packet : List ℕ) (labels : ℕ) → IsRow rule row history
        → error_indicator_of packet ≡ true → SameNames rule history packet → AreOccurring rule history packet []
        → IsRow rule row (history ++ Live packet labels ∷ []) }
    ensures tells { (rule : RowRule) (history : List Cell) (packet : List ℕ) → error_indicator_of packet ≡ true
        → row_gaps rule history packet ≡ [] }
{}
