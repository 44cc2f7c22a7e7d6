//! A source of the packets that are found in a file, which counts the bytes that are left out.
ghost use Rattle.std.specs.Prelude.{◌≡◌, ◌+◌, ◌^◌, ◌<◌, ◌≤◌, true, vec_len, min, option_to_list};
ghost use Rattle.std.specs.Option.{option_map};
ghost use Rattle.std.proofs.Props.{props};
ghost use Rattle.ts_outside.specs.Count.{count_end};
ghost use Rattle.ts_outside.specs.Told.{told_length};
ghost use Rattle.packet_forms.specs.declared.forms.Form.TheVariants.{Ts};
ghost use Rattle.packet_search.specs.Rule.{deciding_bytes};
ghost use Rattle.search_source.specs.Gaps.{counted};
ghost use Rattle.search_source.specs.SearchView.{search_view, plain};
ghost use Rattle.switch_top.specs.LeftOut.{CountsLeftOut, LeavesOutRest, bytes_of_gaps};

use packet_forms::Form;
use search_source::{Gap, SearchSource};
use ts_outside::{Failed, Source};

/// How many bytes are asked for at a time where packets are read for the count alone.
const REST_SIZE: usize = 188;

/// The packets that are found in a file, with the number of bytes that are left out.
pub(crate) struct FoundSource<S: Source> {
    source: SearchSource<S>,
    /// How many bytes were left out so far, but for the gap before the bytes that the last read gave. It saturates at
    /// `u64::MAX`.
    left_out: u64,
    /// Whether a read found the file at its end.
    ended: bool,
    ghost counts: { CountsLeftOut (search_view source.finder (S.seen source.first.value) (S.seen source.source)) left_out } by { Prim.hlevel props },
    ghost at_end: { ended ≡ true → LeavesOutRest (search_view source.finder (S.seen source.first.value) (S.seen source.source))
        (bytes_of_gaps (option_to_list source.finder.noted) + counted source.finder.left) } by { Prim.hlevel props },
    ghost small: { told_length (S.seen source.first.value).left < 2 ^ 63 },
    ghost few: { told_length (plain (search_view source.finder (S.seen source.first.value) (S.seen source.source))).left < 2 ^ 63 },
}

/// The sum of two counts, which saturates.
fn sum(first: u64, second: u64) -> u64
    ensures { result ≡ min (first + second) count_end }
{
    if second > u64::MAX - first {
        return u64::MAX;
    }
    first + second
}

/// A count with the bytes of a gap, if there is one.
fn with_gap(count: u64, gap: Option<Gap>) -> u64
    ensures { result ≡ min (count + bytes_of_gaps (option_to_list gap)) count_end }
{
    match gap {
        Some(gap) => sum(count, gap.bytes),
        None => count,
    }
}

impl<S: Source> FoundSource<S> {
    ghost use Rattle.std.specs.Prelude.{IfOk, OnErr, IfSome, take, length, List, ℕ, [], false};
    ghost use Rattle.ts_outside.specs.Source.{unread, read_failed};
    ghost use Rattle.ts_outside.specs.Count.{raised};
    ghost use Rattle.packet_forms.specs.FormView.{came};
    ghost use Rattle.ts_outside.specs.Told.{before};
    ghost use Rattle.search_source.specs.Coming.{found_in};
    ghost use Rattle.search_source.specs.SearchView.{IsWithin};
    ghost use Rattle.switch_top.specs.PlayLists.{left_out_of};
    ghost use Rattle.switch_top.specs.PlaySources.{ClosesFound};

    /// The packets that are found in a file's own source, with room for its bytes, six units of them at least.
    pub(crate) fn new(source: S, room: Vec<u8>) -> FoundSource<S>
        requires room { deciding_bytes Ts ≤ vec_len room }
        requires small { told_length (S.seen source).left < 2 ^ 63 }
        ensures inner { result.source.source ≡ source }
        ensures seen { ⟦<FoundSource<S> as Source>⟧.seen result
            ≡ record {
              left = option_map (λ file. (found_in Ts file).bytes) (S.seen source).left;
              faults = (S.seen source).faults;
              origin = record { unit = deciding_bytes Ts; bytes = (S.seen source).left };
            } }
    {
        let found = SearchSource::new(source, Form::Ts, room);
        FoundSource {
            source: found,
            left_out: 0,
            ended: false,
        }
    }

    /// Reads once, and counts the gap before the bytes that the read before gave.
    fn take(&mut self, into: &mut [u8]) -> Result<usize, Failed>
        requires { 0 < length into.old }
        ensures within { IfOk result (λ n. n ≤ length into.new) }
        ensures moved { IfOk result (λ n.
            plain (search_view self.old.source.finder (S.seen self.old.source.first.value) (S.seen self.old.source.source))
            ≡ unread (take n into.new)
            (plain (search_view self.new.source.finder (S.seen self.new.source.first.value) (S.seen self.new.source.source)))) }
        ensures end { IfOk result (λ n. n ≡ 0 → IfSome
            (plain (search_view self.old.source.finder (S.seen self.old.source.first.value) (S.seen self.old.source.source))).left (λ l. l ≡ [])) }
        ensures failed { OnErr result (
            plain (search_view self.new.source.finder (S.seen self.new.source.first.value) (S.seen self.new.source.source))
            ≡ read_failed (plain (search_view self.old.source.finder (S.seen self.old.source.first.value) (S.seen self.old.source.source)))) }

        // It is the same file, and its end comes nearer.
        ensures file { (S.seen self.new.source.first.value).left ≡ (S.seen self.old.source.first.value).left }
        ensures nearer { IfOk result (λ _. (reads : ℕ)
            → IsWithin (plain (search_view self.old.source.finder (S.seen self.old.source.first.value) (S.seen self.old.source.source))).left reads false
            → IsWithin (plain (search_view self.new.source.finder (S.seen self.new.source.first.value) (S.seen self.new.source.source))).left (reads + 1) self.new.ended) }
    {
        let left_out = with_gap(self.left_out, self.source.gap());
        match self.source.read(into) {
            Ok(count) => {
                self.left_out = left_out;
                self.ended = count == 0;
                Ok(count)
            }
            Err(fault) => {
                self.left_out = left_out;
                self.ended = false;
                Err(fault)
            }
        }
    }

    /// How many bytes of the file are in no packet, where it was read to its end.
    fn all_left_out(&self) -> u64
        requires { self.now.ended ≡ true }
        ensures { IfSome (S.seen self.now.source.first.value).left (λ file. result ≡ left_out_of file) }
    {
        let noted = with_gap(self.left_out, self.source.gap());
        sum(noted, self.source.behind())
    }

    /// How many bytes of the file are in no packet. What is left of it is read first, if no read found it at its end.
    pub(crate) fn finish(&mut self) -> Result<u64, Failed>
        ensures origin { (S.seen self.new.source.first.value).left ≡ (S.seen self.old.source.first.value).left }
        ensures left_out { IfOk result (λ n. IfSome (S.seen self.old.source.first.value).left (λ file. n ≡ left_out_of file)) }
        ensures faults { IfOk result (λ _. (S.seen self.new.source.source).faults ≡ (S.seen self.old.source.source).faults) }
        ensures failed { OnErr result ((S.seen self.new.source.source).faults ≡ raised (S.seen self.old.source.source).faults) }
    {
        let mut into = [0; REST_SIZE];
        for _ in 0..u64::MAX {
            if self.ended {
                return Ok(self.all_left_out());
            }
            self.take(&mut into)?;
        }
        // No file whose bytes are known has so many packets.
        Ok(0)
    }

    /// Returns the file's own source as it is.
    pub(crate) fn into_source(self) -> S
        ensures inner { result ≡ self.source.source }
        ensures behind { (S.seen self.source.first.value).left
            ≡ before (came (S.seen self.source.first.value).left (S.seen result).left) (S.seen result).left }
    {
        let FoundSource {
            source,
            left_out: _,
            ended: _,
        } = self;
        source.into_inner()
    }
}

impl<S: Source> Source for FoundSource<S> {
    ghost seen = { λ s. plain (search_view s.source.finder (S.seen s.source.first.value) (S.seen s.source.source)) };

    fn read(&mut self, into: &mut [u8]) -> Result<usize, Failed> {
        self.take(into)
    }
}
