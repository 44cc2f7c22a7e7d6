//! A source of packets over a source of bytes with damage.
//!
//! A read gives packets up to the next gap, so at most one gap is noted, that right before the first byte which it gives.
//! Bytes with no packet may go on for ever where nothing is known of the other source, so the loop has no measure: it
//! ends after `u64::MAX` reads, and that no source whose bytes are known has so many is proved.
ghost use Rattle.std.specs.Prelude.{◌≡◌, ◌^◌, ◌<◌, ◌≤◌, true, vec_len};
ghost use Rattle.packet_forms.specs.FormView.{came};
ghost use Rattle.packet_search.specs.Rule.{deciding_bytes};
ghost use Rattle.search_source.specs.SearchView.{search_view, plain};
ghost use Rattle.ts_outside.specs.Told.{before, told_length};
ghost use Rattle.std.proofs.Props.{props};

use crate::Gap;
use crate::finder::{Finder, PACKET_SIZE};
use packet_forms::Form;
use std::snapshot::Snapshot;
use ts_outside::{Failed, Source};

/// The packets that are found in the bytes of another source, each whole and with its sync byte, and the gaps between
/// them.
///
/// It allocates nothing, and holds back a packet for as long as the bytes that came do not decide where it is: fewer
/// than six units of them.
pub struct SearchSource<S: Source> {
    source: S,
    finder: Finder,
    /// Whether the other source is at its end.
    ended: bool,
    /// The other source as it was when it was taken; known to contracts alone.
    first: Snapshot<S>,
    ghost behind: { (S.seen first.value).left
        ≡ before (came (S.seen first.value).left (S.seen source).left) (S.seen source).left } by { Prim.hlevel props },
    ghost at_end: { ended ≡ true → told_length (S.seen source).left ≡ 0 },
    ghost small: { told_length (S.seen source).left < 2 ^ 63 },
}

impl<S: Source> SearchSource<S> {
    ghost use Rattle.std.specs.Prelude.{◌+◌, ℕ, Bool, List, [], ◌++◌, None, false, length, take, IfOk, MatchResult, option_to_list};
    ghost use Rattle.std.specs.Option.{option_map};
    ghost use Rattle.search_source.specs.Coming.{deciding, found_in, hand_of};
    ghost use Rattle.search_source.specs.Gaps.{counted};
    ghost use Rattle.search_source.specs.SearchView.{unsearched, search_failed, FoundThrough, IsWithin};

    /// The packets that are found in a source, with room for its bytes, six units of them at least.
    pub fn new(source: S, form: Form, room: Vec<u8>) -> SearchSource<S>
        requires room { deciding_bytes form ≤ vec_len room }
        requires small { told_length (S.seen source).left < 2 ^ 63 }
        ensures inner { result.source ≡ source }
        ensures finder { (result.finder.due ≡ 0) × (result.finder.tail ≡ 0) × (result.finder.near ≡ true) × (result.finder.left ≡ 0)
            × (result.finder.number ≡ 0) × (result.finder.noted ≡ None) × (result.finder.form ≡ form) × (hand_of result.finder ≡ []) }
        ensures seen { ⟦<SearchSource<S> as Source>⟧.seen result ≡ plain (search_view result.finder (S.seen source) (S.seen source)) }
        ensures found { (search_view result.finder (S.seen source) (S.seen source)).coming ≡ option_map (found_in form) (S.seen source).left }
    {
        let first = Snapshot::of(&source);
        let finder = Finder::new(room, form);
        SearchSource {
            source,
            finder,
            ended: false,
            first,
        }
    }

    /// Returns the other source as it is.
    pub fn into_inner(self) -> S
        ensures inner { result ≡ self.source }
        ensures through { FoundThrough (search_view self.finder (S.seen self.first.value) (S.seen self.source)) (S.seen result) }
    {
        let SearchSource {
            source,
            finder: _,
            ended: _,
            first: _,
        } = self;
        source
    }

    /// The form of the packets.
    pub fn form(&self) -> Form
        ensures { result ≡ self.now.finder.form }
    {
        self.finder.form
    }

    /// The gap right before the first byte that the last read gave, if bytes are left out there.
    pub fn gap(&self) -> Option<Gap>
        ensures { result ≡ self.now.finder.noted }
    {
        self.finder.noted
    }

    /// How many packets were begun; it saturates at `u64::MAX`.
    pub fn number(&self) -> u64
        ensures { result ≡ self.now.finder.number }
    {
        self.finder.number
    }

    /// Whether the other source is at its end, and no byte of it is in hand: nothing more is found.
    pub fn is_over(&self) -> bool
        ensures { result ≡ true → (hand_of self.now.finder ≡ []) × (told_length (S.seen self.now.source).left ≡ 0) }
    {
        if !self.ended {
            return false;
        }
        self.finder.have == 0
    }

    /// After a read that was at the end, how many bytes are left out behind the last packet; before that, how many were
    /// left out since the last packet so far. It saturates at `u64::MAX`.
    pub fn behind(&self) -> u64
        ensures left { result ≡ self.now.finder.left }
        ensures counted { counted result ≡ result }
    {
        self.finder.left
    }

    // Gives the packets in a row at the front at once; else begins the next packet unless one is begun, and gives bytes of it; 0
    // where none may be begun.
    fn give_next(&mut self, into: &mut [u8], may_note: bool) -> usize
        requires some { 0 < length into.old }
        requires noted { may_note ≡ true → self.old.finder.noted ≡ None }
        ensures within { result ≤ length into.new }
        ensures moved { search_view self.old.finder (S.seen self.old.first.value) (S.seen self.old.source)
            ≡ unsearched (take result into.new) [] (search_view self.new.finder (S.seen self.new.first.value) (S.seen self.new.source)) }
        ensures few { result ≡ 0 → may_note ≡ true
            → (self.new.finder.due ≡ 0) × (self.new.finder.have < deciding self.new.finder.form self.old.ended) }
        ensures noted { result ≡ 0 → self.new.finder.noted ≡ self.old.finder.noted }
        ensures source { self.new.source ≡ self.old.source }
        ensures ended { self.new.ended ≡ self.old.ended }
    {
        let packets = self.finder.row(into.len() / PACKET_SIZE);
        if packets > 0 {
            self.finder.give_row(into, packets);
            return packets * PACKET_SIZE;
        }
        if !self.finder.begin(self.ended, may_note) {
            return 0;
        }
        self.finder.give(into)
    }

    // Gives bytes of packets up to the next gap, as many as the bytes in hand decide and there is room for.
    fn fill(&mut self, into: &mut [u8]) -> usize
        requires some { 0 < length into.old }
        requires noted { self.old.finder.noted ≡ None }
        ensures within { result ≤ length into.new }
        ensures moved { search_view self.old.finder (S.seen self.old.first.value) (S.seen self.old.source)
            ≡ unsearched (take result into.new) [] (search_view self.new.finder (S.seen self.new.first.value) (S.seen self.new.source)) }
        ensures few { result ≡ 0
            → (self.new.finder.due ≡ 0) × (self.new.finder.have < deciding self.new.finder.form self.old.ended) }
        ensures noted { result ≡ 0 → self.new.finder.noted ≡ None }
        ensures source { self.new.source ≡ self.old.source }
        ensures ended { self.new.ended ≡ self.old.ended }
    {
        let mut filled = self.give_next(into, true);
        if filled == 0 {
            return 0;
        }
        while filled < into.len() {
            let count = self.give_next(&mut into[filled..], false);
            if count == 0 {
                return filled;
            }
            filled += count;
        }
        filled
    }

    // Reads the other source once.
    fn read_once(&mut self) -> Result<(), Failed>
        requires few { self.old.finder.have < deciding_bytes self.old.finder.form }
        requires open { self.old.ended ≡ false }
        ensures seen { MatchResult result
            (λ _. search_view self.old.finder (S.seen self.old.first.value) (S.seen self.old.source)
            ≡ search_view self.new.finder (S.seen self.new.first.value) (S.seen self.new.source))
            (λ _. search_view self.new.finder (S.seen self.new.first.value) (S.seen self.new.source)
            ≡ search_failed (search_view self.old.finder (S.seen self.old.first.value) (S.seen self.old.source))) }
        ensures noted { self.new.finder.noted ≡ self.old.finder.noted }
        ensures within { IfOk result (λ _. (reads : ℕ) → IsWithin (S.seen self.old.source).left reads false
            → IsWithin (S.seen self.new.source).left (reads + 1) self.new.ended) }
    {
        let count = self.finder.read_from(&mut self.source)?;
        self.ended = count == 0;
        Ok(())
    }

    // Forgets the gap that was noted last.
    fn forget(&mut self)
        ensures gone { search_view self.old.finder (S.seen self.old.first.value) (S.seen self.old.source)
            ≡ unsearched [] (option_to_list self.old.finder.noted) (search_view self.new.finder (S.seen self.new.first.value) (S.seen self.new.source)) }
        ensures none { self.new.finder.noted ≡ None }
        ensures source { self.new.source ≡ self.old.source }
        ensures ended { self.new.ended ≡ self.old.ended }
    {
        self.finder.forget();
    }
}

impl<S: Source> Source for SearchSource<S> {
    ghost use Rattle.std.specs.Prelude.{◌≤◌, ℕ, List, [], length, take, IfOk, OnErr, IfSome, MatchResult, option_to_list};
    ghost use Rattle.ts_outside.specs.Source.{unread, read_failed};
    ghost use Rattle.search_source.specs.SearchView.{unsearched, search_failed, IsAtEnd};

    ghost seen = { λ s. plain (search_view s.finder (S.seen s.first.value) (S.seen s.source)) };

    /// Reads until a packet is found, or the other source is at its end. So `Ok(0)` means that end. It gives packets up
    /// to the next gap: a gap stands before the first byte that a read gives, or nowhere in it.
    fn read(&mut self, into: &mut [u8]) -> Result<usize, Failed>
        requires { 0 < length into.old }
        ensures within { IfOk result (λ n. n ≤ length into.new) }
        ensures moved { IfOk result (λ n. plain (search_view self.old.finder (S.seen self.old.first.value) (S.seen self.old.source))
            ≡ unread (take n into.new) (plain (search_view self.new.finder (S.seen self.new.first.value) (S.seen self.new.source)))) }
        ensures end { IfOk result (λ n. n ≡ 0
            → IfSome (plain (search_view self.old.finder (S.seen self.old.first.value) (S.seen self.old.source))).left (λ l. l ≡ [])) }
        ensures failed { OnErr result (plain (search_view self.new.finder (S.seen self.new.first.value) (S.seen self.new.source))
            ≡ read_failed (plain (search_view self.old.finder (S.seen self.old.first.value) (S.seen self.old.source)))) }

        // With the bytes go the gaps: that which the read before noted is past.
        ensures found { MatchResult result
            (λ n. search_view self.old.finder (S.seen self.old.first.value) (S.seen self.old.source)
            ≡ unsearched (take n into.new) (option_to_list self.old.finder.noted) (search_view self.new.finder (S.seen self.new.first.value) (S.seen self.new.source)))
            (λ _. search_failed (search_view self.old.finder (S.seen self.old.first.value) (S.seen self.old.source))
            ≡ unsearched [] (option_to_list self.old.finder.noted) (search_view self.new.finder (S.seen self.new.first.value) (S.seen self.new.source))) }

        // At the end nothing is left to come but what was left out behind the last packet.
        ensures at_end { IfOk result (λ n. n ≡ 0
            → IsAtEnd self.new.finder (search_view self.new.finder (S.seen self.new.first.value) (S.seen self.new.source)).coming) }
    {
        self.forget();
        for _ in 0..u64::MAX {
            let count = self.fill(into);
            if count > 0 {
                return Ok(count);
            }
            if self.ended {
                return Ok(0);
            }
            self.read_once()?;
        }
        // No source of known bytes has so many.
        Ok(0)
    }
}
