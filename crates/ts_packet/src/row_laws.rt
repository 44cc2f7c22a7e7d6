//! Laws of the packets that a plugin met, as rows, against the cells that held them.
ghost use Rattle.std.specs.Prelude.{◌≡◌, ◌++◌, ◌∷◌, List, [], length, map};
ghost use Rattle.ts_packet.specs.Cells.{live_packets};
ghost use Rattle.ts_packet.specs.LiveRows.{labelled, live_rows, packets_in};
ghost use Rattle.ts_packet.specs.MetRows.{met_from, met_rows};
ghost use Rattle.ts_packet.specs.declared.cell.Cell.{Cell};

/// Without their labels, the rows of a list of cells are its live packets. A law; it runs nothing.
pub fn rows_are_live_packets()
    ensures { (cells : List Cell) → live_packets cells ≡ packets_in (live_rows cells) }
{}

/// With one more cell, its packet comes after the rows so far, at the position that is the number of cells before it;
/// without their positions, these rows are the rows with labels. A law; it runs nothing.
pub fn met_rows_are_live_rows()
    ensures more { (cells : List Cell) (cell : Cell)
        → met_rows (cells ++ cell ∷ []) ≡ met_rows cells ++ met_from (length cells) (cell ∷ []) }
    ensures rows { (cells : List Cell)
        → map (λ row. labelled row.packet row.labels) (met_rows cells) ≡ live_rows cells }
{}
