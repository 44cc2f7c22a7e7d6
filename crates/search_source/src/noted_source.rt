//! A source of packets that are found again, which keeps the gaps between them.
ghost use Rattle.std.specs.Prelude.{◌≡◌, ◌<◌, ◌≤◌, ◌^◌, true, false, filter, vec_len};
ghost use Rattle.packet_search.specs.Rule.{deciding_bytes};
ghost use Rattle.search_source.specs.SearchView.{search_view, plain};
ghost use Rattle.search_source.specs.Coming.{found_in};
ghost use Rattle.search_source.specs.Kept.{with_gaps};
ghost use Rattle.search_source.specs.Since.{is_since, left_behind, since};
ghost use Rattle.std.specs.Option.{option_map};
ghost use Rattle.ts_outside.specs.Told.{told_length};
ghost use Rattle.std.proofs.Props.{props};

use crate::gap::{Gap, keep};
use crate::search_source::SearchSource;
use packet_forms::Form;
use std::alloc::Global;
use ts_outside::{Failed, Source};

/// The packets that are found in the bytes of another source, and the gaps before those that were given.
///
/// A gap that there was no memory for is lost, and so are those behind it: that is said, and the packets are given as well. It
/// may let old gaps go, so that its memory does not grow.
pub struct NotedSource<S: Source> {
    source: SearchSource<S>,
    /// The gaps that came and did not go, but the one before the bytes that the last read gave.
    gaps: Vec<Gap>,
    /// Whether there was no memory for a gap.
    lost: bool,
    /// A gap before one of the last so many packets is not let go.
    keep: u64,
    /// Gaps before packets with a lower number may be gone; 0 where none went.
    from: u64,
    ghost kept: { lost ≡ false → since from (option_map (found_in source.finder.form) (S.seen source.first.value).left)
        ≡ since from (with_gaps gaps.items (search_view source.finder (S.seen source.first.value) (S.seen source.source)).coming) } by { Prim.hlevel props },
    ghost ends: { left_behind (option_map (found_in source.finder.form) (S.seen source.first.value).left)
        ≡ left_behind (search_view source.finder (S.seen source.first.value) (S.seen source.source)).coming } by { Prim.hlevel props },
}

/// What a source of packets was made of, and the gaps that were kept.
pub struct NotedParts<S> {
    pub source: S,
    /// The form of its packets.
    pub form: Form,
    pub gaps: Vec<Gap>,
    /// Whether a gap is not among them: there was no memory for it, or it was let go.
    pub lost: bool,
    /// How many packets were begun; it saturates at `u64::MAX`.
    pub number: u64,
    /// After a read that was at the end, how many bytes are left out behind the last packet.
    pub behind: u64,
    /// Whether the source was read to its end, and nothing more is found.
    pub over: bool,
}

/// Whether a gap was lost before, or the last one was not kept, or gaps before a packet with this number may be gone.
fn is_lost(before: bool, kept: bool, from: u64) -> bool
    ensures { result ≡ false → (before ≡ false) × (kept ≡ true) × (from ≡ 0) }
{
    if before || !kept {
        return true;
    }
    from != 0
}

/// The greater of two numbers.
fn later_of(one: u64, other: u64) -> u64
    ensures { one ≤ result }
{
    if one < other { other } else { one }
}

/// Lets go of gaps before packets with a lower number than this.
fn let_go(gaps: &mut Vec<Gap>, from: u64)
    ensures { gaps.new.items ≡ filter (is_since from) gaps.old.items }
{
    gaps.retain(|gap| from <= gap.before);
}

impl<S: Source> NotedSource<S> {
    ghost use Rattle.std.specs.Option.{option_map};
    ghost use Rattle.search_source.specs.Coming.{found_in};
    ghost use Rattle.search_source.specs.Kept.{KeptTo};
    ghost use Rattle.search_source.specs.Since.{EndsKnown};

    /// The packets that are found in a source, with room for its bytes, six units of them at least. All gaps are kept.
    pub fn new(alloc: Global, source: S, form: Form, room: Vec<u8>) -> NotedSource<S>
        requires room { deciding_bytes form ≤ vec_len room }
        requires small { told_length (S.seen source).left < 2 ^ 63 }
        ensures inner { result.source.source ≡ source }
        ensures form { result.source.finder.form ≡ form }
        ensures seen { ⟦<NotedSource<S> as Source>⟧.seen result
            ≡ record {
              left = option_map (λ file. (found_in form file).bytes) (S.seen source).left;
              faults = (S.seen source).faults;
              origin = record { unit = deciding_bytes form; bytes = (S.seen source).left };
            } }
    {
        NotedSource::keeping(alloc, source, form, room, u64::MAX)
    }

    /// The same, where a gap before one of the last `keep` packets is not let go, and older ones may be: no more gaps are held
    /// than those before twice as many packets.
    pub fn keeping(alloc: Global, source: S, form: Form, room: Vec<u8>, keep: u64) -> NotedSource<S>
        requires room { deciding_bytes form ≤ vec_len room }
        requires small { told_length (S.seen source).left < 2 ^ 63 }
        ensures inner { result.source.source ≡ source }
        ensures form { result.source.finder.form ≡ form }
        ensures seen { ⟦<NotedSource<S> as Source>⟧.seen result
            ≡ record {
              left = option_map (λ file. (found_in form file).bytes) (S.seen source).left;
              faults = (S.seen source).faults;
              origin = record { unit = deciding_bytes form; bytes = (S.seen source).left };
            } }
    {
        let found = SearchSource::new(source, form, room);
        let gaps = Vec::new(alloc);
        NotedSource {
            source: found,
            gaps,
            lost: false,
            keep,
            from: 0,
        }
    }

    /// The form of the packets.
    pub fn form(&self) -> Form
        ensures { result ≡ self.now.source.finder.form }
    {
        self.source.form()
    }

    /// The gaps that came and did not go, but the last one.
    pub fn gaps(&self) -> &[Gap]
        ensures { result.now ≡ self.now.gaps.items }
    {
        self.gaps.as_slice()
    }

    /// The gap right before the first byte that the last read gave, if bytes are left out there: it comes behind the others.
    pub fn last_gap(&self) -> Option<Gap>
        ensures { result ≡ self.now.source.finder.noted }
    {
        self.source.gap()
    }

    /// Whether there was no memory for a gap.
    pub fn is_lossy(&self) -> bool
        ensures { result ≡ self.now.lost }
    {
        self.lost
    }

    /// Gaps before packets with a lower number may be gone; 0 where none went.
    pub fn from(&self) -> u64
        ensures { result ≡ self.now.from }
    {
        self.from
    }

    /// Lets go of gaps that are old, where they are many.
    fn let_go_of_old(&mut self)
        ensures source { self.new.source ≡ self.old.source }
        ensures lost { self.new.lost ≡ self.old.lost }
    {
        let most = self.keep.saturating_mul(2);
        if (self.gaps.len() as u64) < most {
            return;
        }
        let old = self.source.number().saturating_sub(self.keep);
        let from = later_of(self.from, old);
        let_go(&mut self.gaps, from);
        self.from = from;
    }

    /// Returns the other source as it is, and the gaps that were kept.
    pub fn into_parts(self) -> NotedParts<S>
        ensures inner { result.source ≡ self.source.source }
        ensures kept { KeptTo
            (search_view self.source.finder (S.seen self.source.first.value) (S.seen self.source.source)) (S.seen result.source)
            result.lost result.gaps.items result.number result.behind result.over }
        ensures ends { EndsKnown self.source.finder.form (S.seen self.source.first.value).left result.behind result.over }
        ensures form { result.form ≡ self.source.finder.form }
    {
        let NotedSource {
            source,
            mut gaps,
            lost,
            keep: _,
            from,
        } = self;
        let number = source.number();
        let behind = source.behind();
        let over = source.is_over();
        let form = source.form();
        let noted = source.gap();
        let kept = keep(&mut gaps, noted);
        let inner = source.into_inner();
        NotedParts {
            source: inner,
            form,
            gaps,
            lost: is_lost(lost, kept, from),
            number,
            behind,
            over,
        }
    }
}

impl<S: Source> Source for NotedSource<S> {
    ghost use Rattle.std.specs.Prelude.{[], length, take, IfOk, OnErr, IfSome};
    ghost use Rattle.ts_outside.specs.Source.{unread, read_failed};

    ghost seen = { λ s. plain (search_view s.source.finder (S.seen s.source.first.value) (S.seen s.source.source)) };

    fn read(&mut self, into: &mut [u8]) -> Result<usize, Failed>
        requires { 0 < length into.old }
        ensures within { IfOk result (λ n. n ≤ length into.new) }
        ensures moved { IfOk result (λ n. plain (search_view self.old.source.finder (S.seen self.old.source.first.value) (S.seen self.old.source.source))
            ≡ unread (take n into.new) (plain (search_view self.new.source.finder (S.seen self.new.source.first.value) (S.seen self.new.source.source)))) }
        ensures end { IfOk result (λ n. n ≡ 0
            → IfSome (plain (search_view self.old.source.finder (S.seen self.old.source.first.value) (S.seen self.old.source.source))).left (λ l. l ≡ [])) }
        ensures failed { OnErr result (plain (search_view self.new.source.finder (S.seen self.new.source.first.value) (S.seen self.new.source.source))
            ≡ read_failed (plain (search_view self.old.source.finder (S.seen self.old.source.first.value) (S.seen self.old.source.source)))) }
    {
        let noted = self.source.gap();
        let result = self.source.read(into);
        let kept = keep(&mut self.gaps, noted);
        if !kept {
            self.lost = true;
        }
        self.let_go_of_old();
        result
    }
}
