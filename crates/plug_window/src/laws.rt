//! Laws of the plugins that delay packets. They run nothing.

ghost use Rattle.std.specs.Prelude.{◌≡◌, ◌≤◌, ◌*◌, ◌++◌, ℕ, Bool, List, [], false, length, Option, replicate};
ghost use Rattle.ts_packet.specs.declared.cell.Cell.{Cell};
ghost use Rattle.ts_packet.specs.declared.labelled.Labelled.{Labelled as Row};
ghost use Rattle.ts_packet.specs.Cells.{live_packets};
ghost use Rattle.ts_packet.specs.LiveRows.{live_rows};
ghost use Rattle.ts_packet.specs.Packet.{null_packet};
ghost use Rattle.chain_model.specs.Apply.{apply};
ghost use Rattle.chain_model.specs.NeverEnds.{NeverEnds};
ghost use Rattle.plug_window.specs.DelayRule.{delay_rule, all_given, with_nulls_after};
ghost use Rattle.plug_window.specs.CompactRule.{compact_rule, blocks_parted, on_null_pid};
ghost use Rattle.plug_window.specs.RmorphanRule.{rmorphan_rule, kept_packets};
ghost use Rattle.plug_window.specs.WindowSettings.{plain_window};

/// A law; it runs nothing. It relates the rule to the delay line: for a list of cells, whatever their labels and
/// whichever are dropped, the rule outputs what the line outputs with each live packet in turn, in that order and
/// with those labels.
pub fn given_one_by_one()
    ensures { (given : List Row → Row → Option Row) (cells : List Cell)
        → live_rows (apply (delay_rule false given) cells).cells ≡ all_given given [] (live_rows cells) }
{}

/// A law; it runs nothing. No rule of a delay line ends its list, so `each_position_by_itself` of `chain_model`
/// describes each cell that it outputs.
pub fn delays_never_end()
    ensures { (stuffing : Bool) (given : List Row → Row → Option Row) → NeverEnds (delay_rule stuffing given) }
{}

/// A law; it runs nothing. For complete blocks of packets followed by one more block of null packets, `compact`
/// outputs each block with its null packets last, and nothing else.
pub fn compact_gives_blocks()
    ensures { (window count : ℕ) (packets : List (List ℕ)) → 1 ≤ window → length packets ≡ count * window
        → live_packets (apply (compact_rule (plain_window window)) (with_nulls_after window packets)).cells
        ≡ blocks_parted on_null_pid window count packets }
{}

/// A law; it runs nothing. For packets followed by as many null packets as the window has, `rmorphan` outputs, in
/// their order, exactly those packets whose PID is referred to by the packets up to the end of the window after them.
pub fn rmorphan_gives_referred()
    ensures { (window : ℕ) (packets : List (List ℕ)) → 1 ≤ window
        → live_packets (apply (rmorphan_rule (plain_window window)) (with_nulls_after window packets)).cells
        ≡ kept_packets window (packets ++ replicate window null_packet) 0 packets }
{}
