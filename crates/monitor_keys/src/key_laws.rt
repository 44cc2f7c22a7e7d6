//! Laws of keys. They run nothing.
ghost use Rattle.std.specs.Prelude.{◌≡◌, ◌≤◌, ◌++◌, ◌∷◌, [], ℕ, List, Bool, Option, None, Some, true, false, length};
ghost use Rattle.ts_packet.specs.declared.cell.Cell.{Cell};
ghost use Rattle.ts_packet.specs.Cells.{Dropped, Live};
ghost use Rattle.ts_packet.specs.Header.{error_indicator_of};
ghost use Rattle.plug_clock.specs.LineClock.{line_time};
ghost use Rattle.plug_clock.specs.StreamClock.{clock_after};
ghost use Rattle.monitor_keys.specs.declared.key.Key.{Key as Kept};
ghost use Rattle.monitor_keys.specs.declared.named_key.NamedKey.{NamedKey as KeptWhileNamed};
ghost use Rattle.monitor_keys.specs.declared.since_look.SinceLook.{SinceLook as KeptSince};
ghost use Rattle.monitor_keys.specs.Since.{IsSinceLook};
ghost use Rattle.monitor_keys.specs.Keys.{KeyRule, behind, gap_on, span_on};
ghost use Rattle.monitor_keys.specs.KeyState.{IsKey};
ghost use Rattle.monitor_keys.specs.Looks.{is_look, time_at};
ghost use Rattle.monitor_keys.specs.Named.{BeganAt, IsNamedKey};

/// A law; it runs nothing. A cell whose packet was dropped leaves a key as it is, also one of a table, which stays in force.
pub fn a_dropped_cell_leaves_the_key()
    ensures key { (rule : KeyRule) (key : Kept) (history : List Cell) → IsKey rule key history → IsKey rule key (history ++ Dropped ∷ []) }
    ensures named { (rule : KeyRule) (named : List Cell → Bool) (kept : KeptWhileNamed) (history : List Cell)
        → IsNamedKey rule named kept history → named (history ++ Dropped ∷ []) ≡ named history
        → IsNamedKey rule named kept (history ++ Dropped ∷ []) }
    ensures seen { (pid : Option ℕ) (kind : List ℕ → Bool) (kept : KeptSince) (history : List Cell)
        → IsSinceLook pid kind kept history → IsSinceLook pid kind kept (history ++ Dropped ∷ []) }
{}

/// A law; it runs nothing. So does a packet on which it does not occur and which has no PCR that is read, and no gap is told
/// with it: a layer above need not hand it to the key.
pub fn a_packet_without_news_leaves_the_key()
    ensures stands { (rule : KeyRule) (key : Kept) (history : List Cell) (packet : List ℕ) (labels : ℕ) → IsKey rule key history
        → is_look (span_on rule.pcr_pid history packet) ≡ false → rule.occurs history packet ≡ false
        → IsKey rule key (history ++ Live packet labels ∷ []) }
    ensures named { (rule : KeyRule) (named : List Cell → Bool) (kept : KeptWhileNamed) (history : List Cell) (packet : List ℕ)
        (labels : ℕ) → IsNamedKey rule named kept history → named (history ++ Live packet labels ∷ []) ≡ named history
        → is_look (span_on rule.pcr_pid history packet) ≡ false → rule.occurs history packet ≡ false
        → IsNamedKey rule named kept (history ++ Live packet labels ∷ []) }
    ensures tells { (rule : KeyRule) (history : List Cell) (packet : List ℕ)
        → is_look (span_on rule.pcr_pid history packet) ≡ false → gap_on rule history packet ≡ None }
{}

/// A law; it runs nothing. A packet with a transport_error_indicator has no PCR that is read. So, where a key does not occur on it
/// either, it is for the key as though it was dropped.
pub fn an_errored_packet_leaves_the_key()
    ensures unread { (pid : Option ℕ) (history : List Cell) (packet : List ℕ) → error_indicator_of packet ≡ true
        → is_look (span_on pid history packet) ≡ false }
    ensures stands { (rule : KeyRule) (key : Kept) (history : List Cell) (packet : List ℕ) (labels : ℕ) → IsKey rule key history
        → error_indicator_of packet ≡ true → rule.occurs history packet ≡ false
        → IsKey rule key (history ++ Live packet labels ∷ []) }
    ensures named { (rule : KeyRule) (named : List Cell → Bool) (kept : KeptWhileNamed) (history : List Cell) (packet : List ℕ)
        (labels : ℕ) → IsNamedKey rule named kept history → named (history ++ Live packet labels ∷ []) ≡ named history
        → error_indicator_of packet ≡ true → rule.occurs history packet ≡ false
        → IsNamedKey rule named kept (history ++ Live packet labels ∷ []) }
    ensures tells { (rule : KeyRule) (history : List Cell) (packet : List ℕ) → error_indicator_of packet ≡ true
        → gap_on rule history packet ≡ None }
{}

/// A law; it runs nothing. The beginning of a key that tables name is one position.
pub fn a_key_has_one_beginning()
    ensures { (named : List Cell → Bool) (cells : List Cell) (n m : ℕ) → BeganAt named cells n → BeganAt named cells m → n ≡ m }
{}

/// A law; it runs nothing. Up to a packet with a PCR that is read, times are those of the line clock, from behind the last such
/// PCR on.
pub fn times_are_those_of_the_line_clock()
    ensures { (pid : Option ℕ) (history : List Cell) (packet : List ℕ) (labels n : ℕ)
        → is_look (span_on pid history packet) ≡ true → behind (clock_after pid history).last ≤ n → n ≤ length history
        → line_time pid (history ++ Live packet labels ∷ []) n ≡ Some (time_at (span_on pid history packet) n) }
{}
