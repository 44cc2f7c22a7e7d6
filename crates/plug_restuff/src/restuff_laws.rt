//! The law of `restuff`. It runs nothing.
ghost use Rattle.std.specs.Prelude.{List, length, take};
ghost use Rattle.ts_packet.specs.declared.cell.Cell.{Cell};
ghost use Rattle.ts_packet.specs.LiveRows.{live_rows};
ghost use Rattle.chain_model.specs.Apply.{apply};
ghost use Rattle.plug_restuff.specs.RestuffLaw.{IsRestuffed};
ghost use Rattle.plug_restuff.specs.RestuffRule.{restuff_rule};
ghost use Rattle.plug_restuff.specs.RestuffSettings.{IsValidRestuff};
ghost use Rattle.plug_restuff.specs.declared.restuff_conf.RestuffConf.{RestuffConf};

/// A law; it runs nothing. Of whatever cells, up to one that is refused, `restuff` gives a packet for each slot of the
/// lower rate: the packets that are no null packets, in their order and with their labels, each with its PCR moved from
/// the time of its cell to that of its slot, and null packets between. Those that are not given wait, and are not more than
/// may.
pub fn packets_keep_their_order_and_time()
    ensures { (conf : RestuffConf) (cells : List Cell) → IsValidRestuff conf
        → IsRestuffed conf (live_rows (take (length (apply (restuff_rule conf) cells).cells) cells))
        (live_rows (apply (restuff_rule conf) cells).cells) }
{}
