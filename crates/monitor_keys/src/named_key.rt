//! A key that tables ask for.
use crate::gap::Gap;
use crate::key::Key;
use crate::key_limit::KeyLimit;
use crate::span::Span;

/// A key of a table: it begins where a table that names it comes into force and the one before did not, and ends with the first
/// table that does not name it. It allocates nothing.
#[derive(Clone, Copy)]
pub struct NamedKey {
    /// Its limit.
    limit: KeyLimit,
    /// The key since its beginning, while it is named.
    key: Option<Key>,
}

impl NamedKey {
    ghost use Rattle.std.specs.Prelude.{◌≡◌, ◌++◌, ◌∷◌, [], ℕ, List, Bool, None, true, false, length};
    ghost use Rattle.ts_packet.specs.declared.cell.Cell.{Cell};
    ghost use Rattle.ts_packet.specs.Cells.{Live};
    ghost use Rattle.monitor_keys.specs.Keys.{KeyRule, gap_on, span_on};
    ghost use Rattle.monitor_keys.specs.KeyState.{fresh_key};
    ghost use Rattle.monitor_keys.specs.Named.{BeganAt, IsNamedKey, begun_at, key_or};

    /// Before any cell: no table is in force.
    pub fn new(limit: KeyLimit) -> NamedKey
        ensures { (rule : KeyRule) (named : List Cell → Bool) → rule.limit ≡ limit → named [] ≡ false
            → IsNamedKey rule named result [] }
    {
        NamedKey { limit, key: None }
    }

    /// The packet of a span: with it the tables in force name the key or not, the key occurs on it or not, and is due or not.
    /// Gives the gap that is told with it, if there is one; a key that is not named has none.
    pub fn meet(&mut self, span: &Span, is_named: bool, occurs: bool, is_due: bool) -> Option<Gap>
        ensures stands { (rule : KeyRule) (named : List Cell → Bool) (history : List Cell) (packet : List ℕ) (labels : ℕ)
            → IsNamedKey rule named self.old history → span.now ≡ span_on rule.pcr_pid history packet
            → is_named ≡ named (history ++ Live packet labels ∷ []) → occurs ≡ rule.occurs history packet
            → is_due ≡ rule.is_due history packet → IsNamedKey rule named self.new (history ++ Live packet labels ∷ []) }
        ensures tells { (rule : KeyRule) (named : List Cell → Bool) (history : List Cell) (packet : List ℕ) (labels n : ℕ)
            → IsNamedKey rule named self.old history → span.now ≡ span_on rule.pcr_pid history packet
            → is_named ≡ named (history ++ Live packet labels ∷ []) → occurs ≡ rule.occurs history packet
            → is_due ≡ rule.is_due history packet → BeganAt named (history ++ Live packet labels ∷ []) n
            → result ≡ gap_on (begun_at rule n) history packet }
        ensures silent { is_named ≡ false → result ≡ None }
    {
        if !is_named {
            self.key = None;
            return None;
        }
        let mut key = self.key_from(span.at);
        let gap = key.meet(span, occurs, is_due);
        self.key = Some(key);
        gap
    }

    // The key that is kept, or one that begins with the packet at a position.
    fn key_from(&self, at: u64) -> Key
        ensures { result ≡ key_or self.now.key (fresh_key at self.now.limit) }
    {
        match self.key {
            Some(key) => key,
            None => Key::from(at, self.limit),
        }
    }
}
