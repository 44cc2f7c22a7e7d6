//! The values of the general options of `tsp`.

use crate::stage_threads::StageThreads;

/// The values of the general options, each with its default where it is not given; the three sizes are `None` then.
#[derive(Drop, Clone, Copy, PartialEq, Eq)]
pub struct GeneralConf {
    /// The number of null packets before the first packet of the input, 0 to 1,000,000; the default is 0.
    pub add_start_stuffing: u64,
    /// The number of null packets after the last packet of the input, 0 to 1,000,000; the default is 0.
    pub add_stop_stuffing: u64,
    /// The number of null packets, 0 to 1,000, and the number of packets of the input, 1 to 1,000,000, after each
    /// group of which they are inserted; the default is 0 and 1.
    pub add_input_stuffing: (u64, u64),
    /// The number of packets that the buffer of the chain holds, 1 to 1,000,000; `None` where it is not given.
    pub buffer_packets: Option<u64>,
    /// The number of packets that a plugin or the output takes at a time, 1 to 1,000,000; `None` where it is not
    /// given.
    pub max_flushed_packets: Option<u64>,
    /// The number of packets that the input takes at a time, 1 to 1,000,000; `None` where it is not given.
    pub max_input_packets: Option<u64>,
    /// Whether joint termination is ignored: a plugin that uses it does not end the chain.
    pub ignore_joint_termination: bool,
    /// Whether the report has its plugins' lines as they are, without their numbers and names, and no line for the end.
    pub bare: bool,
    /// Whether the plain end of the input is no good end of the run: the run ends with exit number 9 then, in the place of 0.
    pub endless: bool,
    /// Whether a fault that a plugin found before the cut, or that it found nothing to do there, is no good end of the run: the run
    /// ends with exit number 9 then, in the place of 0.
    pub fail_on_faults: bool,
    /// Whether each line of the report is printed soon after its packet was written, in the order of packets, and not after the
    /// run; all stages but the input then run in one thread.
    pub live: bool,
    /// How many threads serve the stages of the chain; `Auto` where it is not given.
    pub threads: StageThreads,
}
