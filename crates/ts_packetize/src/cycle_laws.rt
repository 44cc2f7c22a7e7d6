//! The law that the two definitions of cycles agree.

ghost use Rattle.std.specs.Prelude.{◌≡◌, ℕ, List, [], map, unwrap_or};
ghost use Rattle.std.specs.List.{range_with_len};
ghost use Rattle.ts_packet.specs.Packet.{null_packet};
ghost use Rattle.ts_packetize.specs.Cycle.{cycle_packets};
ghost use Rattle.ts_packetize.specs.Ordinals.{Cycles, counted_at, replaced_at};

/// For any row of cycles and any number of replaced packets, the packets that cycles give step by step are those at
/// the ordinals; and a replaced packet becomes the one at its ordinal, or a null packet. A law; it runs nothing.
pub fn cycles_by_ordinals()
    ensures steps { (cycle : Cycles) (count : ℕ)
        → cycle_packets [] 0 (map cycle (range_with_len 0 count)) ≡ map (counted_at cycle) (range_with_len 0 count) }
    ensures replaced { (cycle : Cycles) (n : ℕ) → replaced_at cycle n ≡ unwrap_or (counted_at cycle n) null_packet }
{}
