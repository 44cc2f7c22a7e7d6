//! The keys of a row.
ghost use Rattle.std.specs.Prelude.{◌≡◌, ◌++◌, OnOk, map, option_to_list};
ghost use Rattle.monitor_rows.specs.KeyRows as rows;

use crate::row_gap::RowGap;
use crate::row_key::RowKey;
use monitor_keys::{Gap, Key, KeyLimit, Span};
use std::alloc::{AllocError, Global};

/// What is kept of a row of keys: of each that the tables in force name, and of no other. So its memory is that of as many keys
/// as the tables name, and is taken where tables come into force that name others; no packet takes more but for what is told
/// with it.
///
/// Only a packet with a PCR that the stream's clock reads is looked at with each key; any other one goes to the key that occurs
/// on it, which is searched for among the numbers.
#[derive(Drop)]
pub struct KeyRow {
    /// The limit of each key.
    limit: KeyLimit,
    /// The keys, by their numbers, ascending.
    keys: Vec<RowKey>,
    alloc: Global,
}

impl KeyRow {
    ghost use Rattle.std.specs.Prelude.{◌≡◌, ◌≢◌, ◌<◌, ◌∷◌, ◌++◌, [], ℕ, List, IfNone, IfOk, IfSome, OnOk, length, true, false};
    ghost use Rattle.std.specs.List.{All, slice_index_or};
    ghost use Rattle.ts_packet.specs.declared.cell.Cell.{Cell};
    ghost use Rattle.ts_packet.specs.Cells.{Live, live_packets};
    ghost use Rattle.monitor_keys.specs.Keys.{span_on};
    ghost use Rattle.monitor_keys.specs.Looks.{is_look};
    ghost use Rattle.monitor_rows.specs.KeyRows.{RowRule, numbers_named, row_gap, row_gaps};
    ghost use Rattle.monitor_rows.specs.RowStands.{AreAscending, AreOccurring, HasKeys, IsRow, IsRowKey, numbers_in};
    ghost use Rattle.monitor_rows.specs.declared.row_key.RowKey.{RowKey as KeptKey};

    /// Before any cell: no table is in force.
    pub fn new(alloc: Global, limit: KeyLimit) -> KeyRow
        ensures { (rule : RowRule) → rule.limit ≡ limit → ((n : ℕ) → rule.names [] n ≡ false) → IsRow rule result [] }
    {
        KeyRow {
            limit,
            keys: Vec::new(alloc),
            alloc,
        }
    }

    /// Tables come into force with the packet at a position, before the keys meet it, and name the keys of these numbers,
    /// ascending: those that were named go on, the others begin. After `AllocError` the row is as it was.
    pub fn rename(&mut self, at: u64, numbers: &[u32]) -> Result<(), AllocError>
        ensures { OnOk result ((rule : RowRule) (history : List Cell) (packet : List ℕ) (labels : ℕ) → IsRow rule self.old history
            → at ≡ length history → numbers.now ≡ numbers_named rule (live_packets history ++ packet ∷ [])
            → HasKeys rule self.new history (history ++ Live packet labels ∷ [])) }
    {
        // Tables come again and again, and nearly always name what the ones before them did.
        if self.has_numbers(numbers) {
            return Ok(());
        }
        self.keys = self.keys_of(at, numbers)?;
        Ok(())
    }

    /// The packet of a span, with the numbers of the keys that occur on it. Gives the gaps that are told with it, by the numbers
    /// of their keys, ascending: only a packet with a PCR that is read has some.
    pub fn meet(&mut self, span: &Span, occurred: &[u32]) -> Result<Vec<RowGap>, AllocError>
        ensures stands { OnOk result ((rule : RowRule) (history : List Cell) (packet : List ℕ) (labels : ℕ)
            → HasKeys rule self.old history (history ++ Live packet labels ∷ []) → span.now ≡ span_on rule.pcr_pid history packet
            → AreOccurring rule history packet occurred.now → IsRow rule self.new (history ++ Live packet labels ∷ [])) }
        ensures tells { IfOk result (λ told. (rule : RowRule) (history : List Cell) (packet : List ℕ) (labels : ℕ)
            → HasKeys rule self.old history (history ++ Live packet labels ∷ []) → span.now ≡ span_on rule.pcr_pid history packet
            → AreOccurring rule history packet occurred.now → told.items ≡ row_gaps rule history packet) }
    {
        if span.is_look() {
            return self.meet_each(span, occurred);
        }
        match occurred {
            [] => Ok(Vec::new(self.alloc)),
            [number] => {
                self.note(span, *number);
                Ok(Vec::new(self.alloc))
            }
            _ => self.meet_each(span, occurred),
        }
    }

    // Whether the keys are those of these numbers.
    fn has_numbers(&self, numbers: &[u32]) -> bool
        ensures { result ≡ true → numbers_in self.now.keys.items ≡ numbers.now }
    {
        if self.keys.len() != numbers.len() {
            return false;
        }
        for i in 0..numbers.len() {
            let kept = self.keys[i].number;
            let number = numbers[i];
            if kept != number {
                return false;
            }
        }
        true
    }

    // The keys of these numbers, with the packet at a position.
    fn keys_of(&self, at: u64, numbers: &[u32]) -> Result<Vec<RowKey>, AllocError>
        ensures numbers { IfOk result (λ keys. numbers_in keys.items ≡ numbers.now) }
        ensures each { IfOk result (λ keys. (rule : RowRule) (history : List Cell) (packet : List ℕ) (labels : ℕ) → IsRow rule self.now history
            → at ≡ length history → numbers.now ≡ numbers_named rule (live_packets history ++ packet ∷ [])
            → (i : ℕ) (d : KeptKey) → i < length keys.items
            → IsRowKey rule history (history ++ Live packet labels ∷ []) (slice_index_or keys.items i d).number (slice_index_or keys.items i d).key) }
    {
        let mut keys = Vec::with_capacity(self.alloc, numbers.len())?;
        for number in numbers {
            keys.push(self.key_of(*number, at))?;
        }
        Ok(keys)
    }

    // The key of a number that is named: the one that is kept, or one that begins with the packet at a position.
    fn key_of(&self, number: u32, at: u64) -> RowKey
        ensures number { result.number ≡ number }
        ensures stands { (rule : RowRule) (history : List Cell) (packet : List ℕ) (labels : ℕ) → IsRow rule self.now history
            → at ≡ length history → number < rule.bound → rule.names (live_packets history ++ packet ∷ []) number ≡ true
            → IsRowKey rule history (history ++ Live packet labels ∷ []) number result.key }
    {
        match self.place(number) {
            Some(i) => self.keys[i],
            None => RowKey {
                number,
                key: Key::from(at, self.limit),
            },
        }
    }

    // The place of the key of a number, if it is kept.
    fn place(&self, number: u32) -> Option<usize>
        ensures found { IfSome result (λ i. (i < length self.now.keys.items)
            × ((d : KeptKey) → (slice_index_or self.now.keys.items i d).number ≡ number)) }
        ensures none { AreAscending (numbers_in self.now.keys.items) → IfNone result (All (λ key. key.number ≢ number) self.now.keys.items) }
    {
        self.keys
            .binary_search_by_key(&number, |key| key.number)
            .ok()
    }

    // The packet with each key.
    fn meet_each(&mut self, span: &Span, occurred: &[u32]) -> Result<Vec<RowGap>, AllocError>
        ensures stands { OnOk result ((rule : RowRule) (history : List Cell) (packet : List ℕ) (labels : ℕ)
            → HasKeys rule self.old history (history ++ Live packet labels ∷ []) → span.now ≡ span_on rule.pcr_pid history packet
            → AreOccurring rule history packet occurred.now → IsRow rule self.new (history ++ Live packet labels ∷ [])) }
        ensures tells { IfOk result (λ told. (rule : RowRule) (history : List Cell) (packet : List ℕ) (labels : ℕ)
            → HasKeys rule self.old history (history ++ Live packet labels ∷ []) → span.now ≡ span_on rule.pcr_pid history packet
            → AreOccurring rule history packet occurred.now → told.items ≡ row_gaps rule history packet) }
    {
        let mut told = Vec::new(self.alloc);
        for i in 0..self.keys.len() {
            self.meet_at(i, span, occurred, &mut told)?;
        }
        Ok(told)
    }

    // The packet with the key at a place.
    fn meet_at(
        &mut self,
        i: usize,
        span: &Span,
        occurred: &[u32],
        told: &mut Vec<RowGap>,
    ) -> Result<(), AllocError>
        requires { i < length self.old.keys.items }
        ensures limit { self.new.limit ≡ self.old.limit }
        ensures whole { length self.new.keys.items ≡ length self.old.keys.items }
        ensures others { (j : ℕ) (d : KeptKey) → j ≢ i → slice_index_or self.new.keys.items j d ≡ slice_index_or self.old.keys.items j d }
        ensures number { (d : KeptKey) → (slice_index_or self.new.keys.items i d).number ≡ (slice_index_or self.old.keys.items i d).number }
        ensures stands { (rule : RowRule) (history cells : List Cell) (packet : List ℕ) (labels : ℕ) (d : KeptKey)
            → span.now ≡ span_on rule.pcr_pid history packet → AreOccurring rule history packet occurred.now
            → IsRowKey rule history cells (slice_index_or self.old.keys.items i d).number (slice_index_or self.old.keys.items i d).key
            → IsRowKey rule (history ++ Live packet labels ∷ []) cells (slice_index_or self.new.keys.items i d).number
            (slice_index_or self.new.keys.items i d).key }
        ensures told { OnOk result ((rule : RowRule) (history : List Cell) (packet : List ℕ) (labels : ℕ) (d : KeptKey)
            → span.now ≡ span_on rule.pcr_pid history packet → AreOccurring rule history packet occurred.now
            → IsRowKey rule history (history ++ Live packet labels ∷ []) (slice_index_or self.old.keys.items i d).number
            (slice_index_or self.old.keys.items i d).key
            → told.new.items ≡ told.old.items ++ row_gap rule history packet (slice_index_or self.old.keys.items i d).number) }
    {
        let mut kept = self.keys[i];
        let occurs = has_number(occurred, kept.number);
        let gap = kept.key.meet(span, occurs, true);
        self.keys[i] = kept;
        tell(told, kept.number, gap)
    }

    // A packet on which the key of a number alone occurs; it has no PCR that is read.
    fn note(&mut self, span: &Span, number: u32)
        ensures { (rule : RowRule) (history : List Cell) (packet : List ℕ) (labels : ℕ)
            → HasKeys rule self.old history (history ++ Live packet labels ∷ []) → span.now ≡ span_on rule.pcr_pid history packet
            → is_look span.now ≡ false → AreOccurring rule history packet (number ∷ [])
            → IsRow rule self.new (history ++ Live packet labels ∷ []) }
    {
        let Some(i) = self.place(number) else {
            return;
        };
        let mut kept = self.keys[i];
        kept.key.meet(span, true, true);
        self.keys[i] = kept;
    }
}

// Tells the gap of the key of a number, if there is one.
fn tell(told: &mut Vec<RowGap>, number: u32, gap: Option<Gap>) -> Result<(), AllocError>
    ensures { OnOk result (told.new.items ≡ told.old.items ++ map (rows.gap_at number) (option_to_list gap)) }
{
    if let Some(gap) = gap {
        told.push(RowGap { number, gap })?;
    }
    Ok(())
}

// Whether a number is in a list.
fn has_number(numbers: &[u32], number: u32) -> bool
    ensures { result ≡ rows.has_number numbers.now number }
{
    numbers.contains(&number)
}
