//! Reading a whole source.
ghost use Rattle.std.specs.Prelude.{◌≡◌, ◌<◌, ◌≤◌, List, ℕ, length, IfSome};
ghost use Rattle.ts_outside.specs.FileFault.{MatchFile};
ghost use Rattle.ts_outside.specs.Source.{read_failed, unread};

use crate::faults::{Failed, FileFault};
use crate::file_bytes::FileBytes;
use crate::sources::Source;
use std::alloc::Global;

/// The number of bytes that one call asks for.
const CHUNK: usize = 4096;

/// Reads a source to its end, where it has at most `most` bytes.
///
/// Whatever is returned, some bytes of the source were read, and only `Failed` raised its count of faults, by one.
#[tactic(auto, using(crate::proofs::Views::views))]
pub fn read_to_end<S: Source>(
    alloc: Global,
    source: &mut S,
    most: usize,
) -> Result<FileBytes, FileFault>
    ensures read { let old = S.seen source.old in
        let new = S.seen source.new in
        MatchFile result
        (λ bytes. (length bytes ≤ most) × (old ≡ unread bytes new) × IfSome new.left (λ l. length l ≡ 0))
        ((bytes : List ℕ) × (most < length bytes) × (old ≡ unread bytes new))
        ((bytes : List ℕ) × (length bytes ≤ most) × (read_failed old ≡ unread bytes new))
        ((bytes : List ℕ) × (old ≡ unread bytes new)) }
{
    let mut bytes: Vec<u8> = Vec::new(alloc);
    let mut chunk = [0u8; CHUNK];
    loop {
        let count = match source.read(&mut chunk) {
            Ok(count) => count,
            Err(Failed) => return Err(FileFault::Failed),
        };
        if count == 0 {
            return Ok(FileBytes::of(bytes));
        }
        if count > most - bytes.len() {
            return Err(FileFault::TooMany);
        }
        bytes.extend_from_slice(&chunk[..count])?;
    }
}
