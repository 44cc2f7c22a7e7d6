//! A key: what has to come again within a limit.
ghost use Rattle.std.specs.Prelude.{◌≡◌};
ghost use Rattle.monitor_keys.specs.KeyState.{first_with, last_with, late_with, since_with};

use crate::gap::Gap;
use crate::key_limit::KeyLimit;
use crate::span::Span;

/// What is kept of a key (ETSI TR 101 290, 5.2): something that has to occur again and again, each time within a limit. It
/// allocates nothing, and is as large however long a gap lasts.
///
/// The times of its occurrences are those of the line clock, which are known with the next PCR that the stream's clock reads.
/// There the key is looked at: the first occurrence behind the last such PCR ends a gap; where there is none, the gap goes on,
/// and is told once when it has passed the limit. Before its first occurrence a key is waited for from its beginning on. Where
/// the time up to a PCR is a guess, nothing is told there, and the key is waited for from there on.
#[derive(Clone, Copy)]
pub struct Key {
    /// The position at which it began.
    from: u64,
    /// Its limit.
    limit: KeyLimit,
    /// From when on it is waited for, by the last look since its beginning, in units of the 27 MHz clock; 0 before the first.
    since: u128,
    /// It was late with a look since then.
    was_late: bool,
    /// The first and the last occurrence that were not looked at yet.
    first: Option<u64>,
    /// As above.
    last: Option<u64>,
}

impl Key {
    ghost use Rattle.std.specs.Prelude.{◌≡◌, ◌++◌, ◌∷◌, [], ℕ, List, None, Some, false, length};
    ghost use Rattle.ts_packet.specs.declared.cell.Cell.{Cell};
    ghost use Rattle.ts_packet.specs.Cells.{Live};
    ghost use Rattle.monitor_keys.specs.Keys.{KeyRule, gap_on, span_on};
    ghost use Rattle.monitor_keys.specs.KeyState.{IsKey, first_with, fresh_key, gap_told, key_with, last_with, looked};
    ghost use Rattle.monitor_keys.specs.Looks.{ended, gap_with, is_late, passed, set_time, waited};

    /// A key that begins with the packet at a position, before that is met.
    pub fn from(at: u64, limit: KeyLimit) -> Key
        ensures is { result ≡ fresh_key at limit }
        ensures stands { (rule : KeyRule) (history : List Cell) → rule.from ≡ at → rule.limit ≡ limit → length history ≡ at
            → IsKey rule result history }
    {
        Key {
            from: at,
            limit,
            since: 0,
            was_late: false,
            first: None,
            last: None,
        }
    }

    /// The packet of a span, on which the key occurs or not, and with which it is due or not. Gives the gap that is told with
    /// it, if there is one: only a packet with a PCR that is read has one.
    pub fn meet(&mut self, span: &Span, occurs: bool, is_due: bool) -> Option<Gap>
        ensures stands { (rule : KeyRule) (history : List Cell) (packet : List ℕ) (labels : ℕ) → IsKey rule self.old history
            → span.now ≡ span_on rule.pcr_pid history packet → occurs ≡ rule.occurs history packet
            → is_due ≡ rule.is_due history packet → IsKey rule self.new (history ++ Live packet labels ∷ []) }
        ensures tells { (rule : KeyRule) (history : List Cell) (packet : List ℕ) → IsKey rule self.old history
            → span.now ≡ span_on rule.pcr_pid history packet → occurs ≡ rule.occurs history packet
            → is_due ≡ rule.is_due history packet → result ≡ gap_on rule history packet }
    {
        let gap = self.gap_told(span, occurs, is_due);
        *self = self.with(span, occurs, is_due);
        gap
    }

    // What is told with a packet.
    fn gap_told(&self, span: &Span, occurs: bool, is_due: bool) -> Option<Gap>
        ensures { result ≡ gap_told self.now span.now occurs is_due }
    {
        if !span.is_look() {
            return None;
        }
        let since = self.waited(span);
        match first_with(self.first, occurs, span.at) {
            Some(n) => self.ended(span, since, n),
            None => self.passed(span, since, is_due),
        }
    }

    // The gap that ends with an occurrence, where that is told.
    fn ended(&self, span: &Span, since: u128, n: u64) -> Option<Gap>
        ensures { result ≡ gap_with self.now.limit span.now since (Some n) false self.now.was_late }
    {
        if span.is_guess() {
            return None;
        }
        let units = span.time_at(n).saturating_sub(since);
        if self.limit.tells_ends && u128::from(self.limit.units) < units {
            return Some(Gap { at: n, units });
        }
        None
    }

    // The gap that passes the limit with a packet, where that is told.
    fn passed(&self, span: &Span, since: u128, is_due: bool) -> Option<Gap>
        ensures { result ≡ gap_with self.now.limit span.now since None is_due self.now.was_late }
    {
        if !self.is_late(span, since, None, is_due) || self.was_late {
            return None;
        }
        Some(Gap {
            at: span.at,
            units: u128::from(span.after.time()).saturating_sub(since),
        })
    }

    // From when on it is waited for, as it is looked at.
    fn waited(&self, span: &Span) -> u128
        ensures { result ≡ waited span.now self.now.from self.now.since }
    {
        if span.is_new(self.from) {
            span.time_at(self.from)
        } else {
            self.since
        }
    }

    // Whether it is late with a look, where this is its first occurrence.
    fn is_late(&self, span: &Span, since: u128, first: Option<u64>, is_due: bool) -> bool
        ensures { result ≡ is_late self.now.limit span.now since first is_due }
    {
        if span.is_guess() || first.is_some() {
            return false;
        }
        let gap = u128::from(span.after.time()).saturating_sub(since);
        is_due && u128::from(self.limit.units) < gap
    }

    // The time that a look sets, where this is the last occurrence.
    fn set_time(&self, span: &Span, last: Option<u64>) -> Option<u128>
        ensures { result ≡ set_time span.now self.now.from last }
    {
        if span.is_guess() {
            return Some(u128::from(span.after.time()));
        }
        if let Some(n) = last {
            return Some(span.time_at(n));
        }
        if span.is_new(self.from) {
            return Some(span.time_at(self.from));
        }
        None
    }

    // After a packet.
    fn with(&self, span: &Span, occurs: bool, is_due: bool) -> Key
        ensures { result ≡ key_with self.now span.now occurs is_due }
    {
        if span.is_look() {
            return self.looked(span, occurs, is_due);
        }
        Key {
            first: first_with(self.first, occurs, span.at),
            last: last_with(self.last, occurs, span.at),
            ..*self
        }
    }

    // After a look.
    fn looked(&self, span: &Span, occurs: bool, is_due: bool) -> Key
        ensures { result ≡ looked self.now span.now occurs is_due }
    {
        let set = self.set_time(span, last_with(self.last, occurs, span.at));
        let first = first_with(self.first, occurs, span.at);
        let is_late = self.is_late(span, self.waited(span), first, is_due);
        Key {
            since: since_with(set, self.since),
            was_late: late_with(set, self.was_late, is_late),
            first: None,
            last: None,
            ..*self
        }
    }
}

// The first occurrence, with one at a position, if there is one.
fn first_with(first: Option<u64>, occurs: bool, at: u64) -> Option<u64>
    ensures { result ≡ first_with first occurs at }
{
    if first.is_none() && occurs {
        Some(at)
    } else {
        first
    }
}

// The last occurrence, with one at a position, if there is one.
fn last_with(last: Option<u64>, occurs: bool, at: u64) -> Option<u64>
    ensures { result ≡ last_with last occurs at }
{
    if occurs { Some(at) } else { last }
}

// From when on it is waited for after a look that sets this time, or none.
fn since_with(set: Option<u128>, since: u128) -> u128
    ensures { result ≡ since_with set since }
{
    match set {
        Some(time) => time,
        None => since,
    }
}

// Whether it was late since the time was set, with a look that sets it or not, and is late or not.
fn late_with(set: Option<u128>, was_late: bool, is_late: bool) -> bool
    ensures { result ≡ late_with set was_late is_late }
{
    match set {
        Some(_) => is_late,
        None => was_late || is_late,
    }
}
