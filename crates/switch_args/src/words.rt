//! Reading all words of a command line.
ghost use Rattle.std.specs.Prelude.{◌≡◌, List, map, IfOk};
ghost use Rattle.std.specs.String.{string_bytes};
ghost use Rattle.switch_args.specs.Readings.{ReadsWords, given_of_settings};
ghost use Rattle.switch_args.specs.ValidSettings.{IsValid};

use crate::reading::Reading;
use crate::settings::SwitchSettings;
use std::alloc::{AllocError, Global};

/// Why words were not read.
#[derive(Debug, Clone, Copy, PartialEq, Eq)]
pub enum WordsFault {
    /// They are not of the form. `word` is the index of the first word that no list of the form has there, from 0 on,
    /// or the number of words if they are incomplete.
    At { word: usize },
    /// Out of memory.
    NoMemory,
}

/// Reads the words, given without the program's name: `--cycle N`, `--buffer-packets N` and `--resync` in any order, each
/// at most once; then `-I file NAME`, once for each of 1 to 32 inputs; and at most once `-O file NAME` or `-O drop`.
pub fn read_words(alloc: Global, words: &[String]) -> Result<SwitchSettings, WordsFault>
    ensures read { ReadsWords (map string_bytes words.now) result }
    ensures valid { IfOk result (λ settings. IsValid (given_of_settings settings)) }
{
    let mut reading = Reading::new(alloc);
    let mut at = 0;
    while at < words.len() {
        match reading.take(alloc, words[at].as_str()) {
            Ok(true) => at += 1,
            Ok(false) => return Err(WordsFault::At { word: at }),
            Err(AllocError) => return Err(WordsFault::NoMemory),
        }
    }
    reading.end(at)
}
