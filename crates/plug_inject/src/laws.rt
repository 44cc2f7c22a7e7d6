//! Laws on a whole list of cells: which packets `inject` inserts, and how far apart. They run nothing.
ghost use Rattle.std.specs.Prelude.{◌≡◌, ◌≢◌, false, ◌<◌, ◌≤◌, ◌+◌, ◌%◌, ℕ, List, [], Some, length, slice_get, slice_index, slice_index_or};
ghost use Rattle.ts_packet.specs.declared.cell.Cell.{Cell};
ghost use Rattle.ts_packet.specs.Cells.{live_packets};
ghost use Rattle.ts_packet.specs.Header.{with_counter};
ghost use Rattle.ts_packetize.specs.Packets.{packets_of};
ghost use Rattle.plug_inject.specs.InjectedPlaces.{injected_packets, places_in};
ghost use Rattle.plug_inject.specs.declared.inject_conf.InjectConf.{InjectConf};
ghost use Rattle.plug_inject.specs.declared.inject_conf.InjectMode.TheVariants.{InterPacket};

/// A law; it runs nothing. Without `--every` and `--fix-counters` the packets of the sections are inserted one after another, repeatedly. Inserted packet
/// number k, counted from 0, is packet k modulo n of the n packets of a cycle, with continuity counter k modulo 16.
/// All other packets stay unchanged, with `--every` too. With a distance, two inserted packets are at least that many
/// packets apart, whatever else is asked for.
pub fn cycles_are_put_in()
    ensures put_in { (conf : InjectConf) (sections : List (List ℕ)) (cells : List Cell) (k : ℕ)
        → conf.every ≡ [] → conf.fix_counters ≡ false → k < length (places_in conf sections cells)
        → let contents = packets_of conf.pid sections in
        slice_get (injected_packets conf sections cells) (slice_index (places_in conf sections cells) k)
        ≡ Some (with_counter (slice_index_or contents (k % length contents) []) (k % 16)) }
    ensures others { (conf : InjectConf) (sections : List (List ℕ)) (cells : List Cell) (i : ℕ)
        → conf.fix_counters ≡ false → ((k : ℕ) → k < length (places_in conf sections cells) → slice_index (places_in conf sections cells) k ≢ i)
        → slice_get (injected_packets conf sections cells) i ≡ slice_get (live_packets cells) i }
    ensures rising { (conf : InjectConf) (sections : List (List ℕ)) (cells : List Cell) (j k : ℕ)
        → j < k → k < length (places_in conf sections cells)
        → slice_index (places_in conf sections cells) j < slice_index (places_in conf sections cells) k }
    ensures apart { (conf : InjectConf) (sections : List (List ℕ)) (cells : List Cell) (distance j k : ℕ)
        → conf.mode ≡ InterPacket distance → j < k → k < length (places_in conf sections cells)
        → slice_index (places_in conf sections cells) j + distance ≤ slice_index (places_in conf sections cells) k }
{}
