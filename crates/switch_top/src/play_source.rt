//! The source of a play: a file's own, or that of the packets that are found in the file.
ghost use Rattle.std.specs.Prelude.{◌≡◌, ◌^◌, ◌<◌, ◌≤◌, None, IfOk, IfErr, List, Option, ℕ, vec_len};
ghost use Rattle.std.proofs.Props.{props};
ghost use Rattle.ts_outside.specs.Told.{told_length};
ghost use Rattle.ts_outside.specs.Source.{own_bytes};
ghost use Rattle.search_source.specs.FileView.{of_either};
ghost use Rattle.switch_top.specs.PlayCuts.{end_of};
ghost use Rattle.switch_top.specs.PlaySources.{play_source, ClosesAs, ClosesPlay, EndsFound, EndsPlainly};

use crate::found_source::FoundSource;
use crate::played_cut::{PlayedCut, PlayedEnd};
use chain_core::InputEnd;
use chain_plays::{PlayCut, PlayEnd};
use search_source::FileSource;
use std::alloc::{AllocError, Global};
use ts_outside::{Failed, Source};

/// How many bytes the search of a play has room for: it reads as many at a time as it has room for.
const SEARCH_ROOM: usize = 131_072;

/// A file's own source, which leaves out nothing.
pub(crate) struct OwnSource<S: Source> {
    source: S,
    ghost unit: { (S.seen source).origin.unit ≡ 0 },
    ghost whole: { (S.seen source).origin.bytes ≡ None } by { Prim.hlevel props },
}

/// The source of a play.
pub(crate) type PlaySource<S> = FileSource<OwnSource<S>, FoundSource<S>>;

/// A file's own source after a play, and how that ended.
pub(crate) struct ClosedPlay<S> {
    pub(crate) source: S,
    pub(crate) cut: PlayedCut,
}

impl<S: Source> OwnSource<S> {
    fn new(source: S) -> OwnSource<S>
        requires { (S.seen source).origin ≡ own_bytes }
        ensures { result.source ≡ source }
    {
        OwnSource { source }
    }

    fn into_source(self) -> S
        ensures inner { result ≡ self.source }
        ensures own { (S.seen result).origin ≡ own_bytes }
    {
        let OwnSource { source } = self;
        source
    }
}

impl<S: Source> Source for OwnSource<S> {
    ghost seen = { λ s. S.seen s.source };

    fn read(&mut self, into: &mut [u8]) -> Result<usize, Failed> {
        self.source.read(into)
    }
}

/// Zeros, in the place of bytes that are to be read.
fn zeros(alloc: Global, count: usize) -> Result<Vec<u8>, AllocError>
    ensures { IfOk result (λ room. vec_len room ≡ count) }
{
    vec![in alloc; 0; count]
}

/// The source of a play of a file of which nothing was read. Where there is no memory for the search, the file's own
/// source is given back.
pub(crate) fn open_source<S: Source>(
    alloc: Global,
    resync: bool,
    source: S,
) -> Result<PlaySource<S>, S>
    requires own { (S.seen source).origin ≡ own_bytes }
    requires small { told_length (S.seen source).left < 2 ^ 63 }
    ensures opened { IfOk result (λ play. (content : Option (List ℕ)) → S.seen source ≡ record { left = content; faults = 0; origin = own_bytes }
        → of_either ⟦<OwnSource<S> as Source>⟧.seen ⟦<FoundSource<S> as Source>⟧.seen play ≡ play_source resync content) }
    ensures inner { IfOk result (λ play. of_either (λ own. S.seen own.source) (λ found. S.seen found.source.source) play ≡ S.seen source) }
    ensures back { IfErr result (λ back. back ≡ source) }
{
    if resync {
        match zeros(alloc, SEARCH_ROOM) {
            Ok(room) => Ok(FileSource::Found(FoundSource::new(source, room))),
            Err(AllocError) => Err(source),
        }
    } else {
        Ok(FileSource::Placed(OwnSource::new(source)))
    }
}

/// Returns the file's own source of a play that was not played, as it is.
pub(crate) fn into_own<S: Source>(play: PlaySource<S>) -> S
    ensures inner { S.seen result ≡ of_either (λ own. S.seen own.source) (λ found. S.seen found.source.source) play }
    ensures closes { ClosesAs (of_either ⟦<OwnSource<S> as Source>⟧.seen ⟦<FoundSource<S> as Source>⟧.seen play) (S.seen result) }
{
    match play {
        FileSource::Placed(own) => own.into_source(),
        FileSource::Found(found) => found.into_source(),
    }
}

/// The end of a play that came to the plain end of a file in which packets were found.
fn plain_end<S: Source>(found: &mut FoundSource<S>) -> PlayedEnd
    ensures origin { (S.seen found.new.source.first.value).left ≡ (S.seen found.old.source.first.value).left }
    ensures ends { EndsPlainly (⟦<FoundSource<S> as Source>⟧.seen found.old) (S.seen found.new.source.source) (end_of result) }
{
    match found.finish() {
        Ok(left_out) => PlayedEnd::Plain { left_out },
        Err(Failed) => PlayedEnd::ReadFault,
    }
}

/// The end of a play in whose file packets were found.
fn found_end<S: Source>(found: &mut FoundSource<S>, end: PlayEnd) -> PlayedEnd
    ensures origin { (S.seen found.new.source.first.value).left ≡ (S.seen found.old.source.first.value).left }
    ensures ends { EndsFound
        (⟦<FoundSource<S> as Source>⟧.seen found.old) (S.seen found.new.source.source) end (end_of result) }
{
    match end {
        PlayEnd::Input(InputEnd::End { left: _ }) => plain_end(found),
        PlayEnd::Input(InputEnd::Sync { packet }) => PlayedEnd::Sync { packet },
        PlayEnd::Input(InputEnd::ReadFault) => PlayedEnd::ReadFault,
        PlayEnd::Input(InputEnd::TooLong) => PlayedEnd::TooLong,
        PlayEnd::WriteFault => PlayedEnd::WriteFault,
    }
}

/// Ends a play, and returns the file's own source. Where packets were found, the bytes that are left out of the file are
/// counted after its plain end; that a read fails for this is its end too.
pub(crate) fn close_play<S: Source>(play: PlaySource<S>, cut: PlayCut) -> ClosedPlay<S>
    ensures { ClosesPlay (of_either ⟦<OwnSource<S> as Source>⟧.seen ⟦<FoundSource<S> as Source>⟧.seen play) (S.seen result.source) cut result.cut }
{
    match play {
        FileSource::Placed(own) => ClosedPlay {
            source: own.into_source(),
            cut: PlayedCut {
                count: cut.count,
                end: PlayedEnd::of(cut.end),
            },
        },
        FileSource::Found(mut found) => {
            let end = found_end(&mut found, cut.end);
            ClosedPlay {
                source: found.into_source(),
                cut: PlayedCut {
                    count: cut.count,
                    end,
                },
            }
        }
    }
}
