//! A source of a file's packets: at their places, or found again.
ghost use Rattle.std.specs.Prelude.{◌≡◌, ◌<◌, ◌≤◌};

use crate::gap::Gap;
use crate::noted_source::{NotedParts, NotedSource};
use packet_forms::{Form, FormSource};
use ts_outside::{Failed, Source};

/// One of two sources of packets.
pub enum FileSource<P, F> {
    /// Packets at their places.
    Placed(P),
    /// Packets that are found again in bytes with damage.
    Found(F),
}

/// The gaps that were kept of a file whose packets were found again.
#[derive(Drop)]
pub struct KeptGaps {
    /// The form of the packets.
    pub form: Form,
    pub gaps: Vec<Gap>,
    /// Whether there was no memory for a gap.
    pub lost: bool,
    /// How many packets were begun; it saturates at `u64::MAX`.
    pub number: u64,
    /// After a read that was at the end, how many bytes are left out behind the last packet.
    pub behind: u64,
    /// Whether the file was read to its end, and nothing more is found.
    pub over: bool,
}

/// The file's own source, and the gaps that were kept, where packets were found again.
pub struct FileParts<S> {
    pub source: S,
    pub kept: Option<KeptGaps>,
}

impl<S: Source> FileSource<FormSource<S>, NotedSource<S>> {
    ghost use Rattle.search_source.specs.FileView.{of_either, EndsAs};

    /// Returns the file's own source as it is, and the gaps that were kept.
    pub fn into_parts(self) -> FileParts<S>
        ensures inner { S.seen result.source ≡ of_either (λ placed. S.seen placed.source) (λ found. S.seen found.source.source) self }
        ensures ends { EndsAs (of_either ⟦<FormSource<S> as Source>⟧.seen ⟦<NotedSource<S> as Source>⟧.seen self) (S.seen result.source) result.kept }
    {
        match self {
            FileSource::Placed(source) => FileParts {
                source: source.into_inner(),
                kept: None,
            },
            FileSource::Found(source) => {
                let NotedParts {
                    source,
                    form,
                    gaps,
                    lost,
                    number,
                    behind,
                    over,
                } = source.into_parts();
                FileParts {
                    source,
                    kept: Some(KeptGaps {
                        form,
                        gaps,
                        lost,
                        number,
                        behind,
                        over,
                    }),
                }
            }
        }
    }
}

impl<P: Source, F: Source> Source for FileSource<P, F> {
    ghost use Rattle.std.specs.Prelude.{[], length, take, IfOk, OnErr, IfSome};
    ghost use Rattle.ts_outside.specs.Source.{unread, read_failed};
    ghost use Rattle.search_source.specs.FileView.{of_either};

    ghost seen = { of_either P.seen F.seen };

    fn read(&mut self, into: &mut [u8]) -> Result<usize, Failed>
        requires { 0 < length into.old }
        ensures within { IfOk result (λ n. n ≤ length into.new) }
        ensures moved { IfOk result (λ n. of_either P.seen F.seen self.old ≡ unread (take n into.new) (of_either P.seen F.seen self.new)) }
        ensures end { IfOk result (λ n. n ≡ 0 → IfSome (of_either P.seen F.seen self.old).left (λ l. l ≡ [])) }
        ensures failed { OnErr result (of_either P.seen F.seen self.new ≡ read_failed (of_either P.seen F.seen self.old)) }
    {
        match self {
            FileSource::Placed(source) => source.read(into),
            FileSource::Found(source) => source.read(into),
        }
    }
}
