//! The drivers of a chain's stages, and the sizes that go with them.
ghost use Rattle.std.specs.Prelude.{◌≤◌};
ghost use Rattle.tsp_top.specs.Sizes.{default_buffer, default_batch};

use crate::one_thread::MOST_AT_A_TIME;
use chain_args::{GeneralConf, StageThreads};
use std::thread::{Threads, available_parallelism};

/// The threads that serve the stages of a chain.
#[derive(Clone, Copy)]
pub(crate) enum Driver {
    /// A thread for each stage.
    InThreads,
    /// A thread for the input, and the caller's for all other stages, whose lines are printed while they run.
    InputApart,
    /// The caller's thread, all of them.
    InOneThread,
}

/// On fewer processors every chain runs in one thread, since no two stages would run at once.
const LEAST_PROCESSORS: usize = 2;

/// How many packets a stage with a thread of its own takes at a time. A batch that is handed on wakes a thread, which
/// costs as much as some thousand steps of a small plugin; larger ones do not stay in the processors' caches.
const BATCH_IN_THREADS: u64 = 2048;

/// How many batches the buffer has where each stage has a thread, so that they have some to work on at once.
const BATCHES_IN_THREADS: u64 = 4;

/// How many packets a stage takes at a time where the input alone has a thread of its own. A round of the others gives two
/// batches, whose lines are one report, which is to fit into a pipe.
const BATCH_APART: u64 = 512;

impl Driver {
    /// The driver for the processors on which the program may run. Where the system does not say how many there are,
    /// it is that with threads.
    pub(crate) fn of_machine<R: Threads>(rt: &R) -> Driver {
        match available_parallelism(rt) {
            Ok(processors) => {
                if processors.get() < LEAST_PROCESSORS {
                    Driver::InOneThread
                } else {
                    Driver::InThreads
                }
            }
            Err(_) => Driver::InThreads,
        }
    }

    /// The driver for these general options: one thread where they ask for it, else this one.
    pub(crate) fn chosen(self, general: &GeneralConf) -> Driver {
        match general.threads {
            StageThreads::One => Driver::InOneThread,
            StageThreads::Auto => self,
        }
    }

    /// How many packets a stage takes at a time where the words do not say.
    pub(crate) fn batch(&self) -> u64
        ensures some { 1 ≤ result }
        ensures bound { result ≤ default_batch }
    {
        match self {
            Driver::InThreads => BATCH_IN_THREADS,
            Driver::InputApart => BATCH_APART,
            Driver::InOneThread => MOST_AT_A_TIME as u64,
        }
    }

    /// How many packets the buffer has where the words do not say. One thread needs no more than a batch, which goes
    /// through the whole chain before the next one is read.
    pub(crate) fn buffer(&self) -> u64
        ensures some { 1 ≤ result }
        ensures bound { result ≤ default_buffer }
    {
        match self {
            Driver::InThreads | Driver::InputApart => BATCHES_IN_THREADS * BATCH_IN_THREADS,
            Driver::InOneThread => MOST_AT_A_TIME as u64,
        }
    }
}
