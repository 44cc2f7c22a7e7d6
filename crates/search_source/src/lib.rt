//! A source of the packets that are found again in the bytes of another source, with the gaps between them. A source of
//! bytes with damage comes in, and a source of whole packets goes out. The layer above reads it by the clauses of
//! `SearchSource`, which say what comes of the other source's bytes, and `into_inner`, which gives that source back;
//! `NotedSource` keeps the gaps, and `FileSource` is it or a source of units at their places.
#![tactic(auto)]

mod file_source;
mod finder;
mod gap;
mod gap_counts;
mod laws;
mod noted_source;
mod search_source;

pub use file_source::{FileParts, FileSource, KeptGaps};
pub use gap::Gap;
pub use gap_counts::GapCounts;
pub use laws::{gaps_noted_so_far, gaps_of_a_file, gaps_so_far, what_was_read};
pub use noted_source::{NotedParts, NotedSource};
pub use search_source::SearchSource;
