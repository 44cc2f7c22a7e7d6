//! Whether there was a packet of a kind since the last PCR.
use crate::span::Span;

/// Whether there was a packet of a kind since the last PCR that the stream's clock read, as a scrambled one, without which no
/// CAT is asked for (ETSI TR 101 290, 5.2.2, 2.6).
#[derive(Clone, Copy)]
pub struct SinceLook {
    /// There was one.
    has_seen: bool,
}

impl SinceLook {
    ghost use Rattle.std.specs.Prelude.{◌≡◌, ◌++◌, ◌∷◌, ◌||◌, [], ℕ, List, Bool, Option};
    ghost use Rattle.ts_packet.specs.declared.cell.Cell.{Cell};
    ghost use Rattle.ts_packet.specs.Cells.{Live};
    ghost use Rattle.monitor_keys.specs.Keys.{span_on};
    ghost use Rattle.monitor_keys.specs.Since.{IsSinceLook, has_since, seen_with};

    /// Before any packet.
    #[tactic(auto, unfolding(plug_clock::specs::StreamClock::clock_after))]
    pub fn new() -> SinceLook
        ensures { (pid : Option ℕ) (kind : List ℕ → Bool) → IsSinceLook pid kind result [] }
    {
        SinceLook { has_seen: false }
    }

    /// The packet of a span, which is of the kind or not. Gives whether there was one since the last PCR before it, up to and
    /// with it.
    pub fn meet(&mut self, span: &Span, is_one: bool) -> bool
        ensures stands { (pid : Option ℕ) (kind : List ℕ → Bool) (history : List Cell) (packet : List ℕ) (labels : ℕ)
            → IsSinceLook pid kind self.old history → span.now ≡ span_on pid history packet → is_one ≡ kind packet
            → IsSinceLook pid kind self.new (history ++ Live packet labels ∷ []) }
        ensures tells { (pid : Option ℕ) (kind : List ℕ → Bool) (history : List Cell) (packet : List ℕ)
            → IsSinceLook pid kind self.old history → span.now ≡ span_on pid history packet → is_one ≡ kind packet
            → result ≡ has_since pid kind history packet }
    {
        let has_one = self.has_seen || is_one;
        *self = self.with(span, is_one);
        has_one
    }

    // After a packet.
    fn with(&self, span: &Span, is_one: bool) -> SinceLook
        ensures { result ≡ seen_with self.now span.now is_one }
    {
        if span.is_look() {
            return SinceLook { has_seen: false };
        }
        SinceLook {
            has_seen: self.has_seen || is_one,
        }
    }
}
