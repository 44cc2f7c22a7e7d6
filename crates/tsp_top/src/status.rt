//! The statuses of a call, and their exit numbers.

ghost use Rattle.std.specs.Prelude.{◌≡◌, ◌-◌, ◌^◌, min};
ghost use Rattle.tsp_top.specs.CallOutcome.{done_status, in_place_of_done, is_plain_end, is_plain_input, run_status, status_of, status_of_input};
ghost use Rattle.tsp_top.specs.ExitNumber.{exit_number};

use chain_args::{GeneralConf, WordsFault};
use chain_model::{Cause, InputEnd, Reason};
use tabcomp_core::TableFileFault;

/// How a call of `tsp` ended.
#[derive(Debug, Drop)]
pub enum Status {
    /// Everything was written and reported.
    Done,
    /// Out of memory.
    NoMemory,
    /// The words are no command line; nothing was opened.
    Words(WordsFault),
    /// A read, the opening of the input or the reading of a table file failed.
    ReadFault,
    /// A write, a report, the opening or the closing of the output failed.
    WriteFault,
    /// The input packet of this number does not begin with the sync byte.
    Sync { packet: u64 },
    /// The file of tables of this plugin, counted from 1, was read and has no sections.
    TableFile { plugin: u32, fault: TableFileFault },
    /// This plugin, counted from 1, refused a packet. A chain has at most 62 plugins.
    Refused { plugin: u32, reason: Reason },
    /// A packet would have had position 2^60.
    TooLong,
    /// The input came to its plain end, and the words say that it is to have none (`--endless`).
    InputEnded,
    /// A plugin reports a fault or found nothing to do, and the words say that this is no good end (`--fail-on-faults`).
    FaultFound,
}

impl Status {
    /// The program's exit number.
    pub fn exit_code(&self) -> u8
        ensures { result ≡ exit_number self.now }
    {
        match self {
            Status::Done => 0,
            Status::NoMemory => 1,
            Status::Words(_) => 2,
            Status::ReadFault => 3,
            Status::WriteFault => 4,
            Status::Sync { .. } => 5,
            Status::TableFile { .. } => 6,
            Status::Refused { .. } => 7,
            Status::TooLong => 8,
            Status::InputEnded | Status::FaultFound => 9,
        }
    }
}

/// The status of a cause.
fn status_of_cause(cause: Cause) -> Status
    ensures { result ≡ status_of cause }
{
    match cause {
        Cause::Input(how) => status_of_input_end(how),
        Cause::Joint | Cause::Until(_) | Cause::Stop(_) => Status::Done,
        Cause::Refuse(plugin, reason) => Status::Refused {
            plugin: told_plugin(plugin),
            reason,
        },
        Cause::WriteFault => Status::WriteFault,
        Cause::NoMemory(_) => Status::NoMemory,
    }
}

/// A plugin's number as a status has it: in 32 bits, where it saturates.
fn told_plugin(plugin: usize) -> u32
    ensures { result ≡ min plugin (2 ^ 32 - 1) }
{
    u32::try_from(plugin).unwrap_or(u32::MAX)
}

/// The status of an input's end.
fn status_of_input_end(how: InputEnd) -> Status
    ensures { result ≡ status_of_input how }
{
    match how {
        InputEnd::End { .. } => Status::Done,
        InputEnd::Sync { packet } => Status::Sync { packet },
        InputEnd::ReadFault => Status::ReadFault,
        InputEnd::TooLong => Status::TooLong,
    }
}

/// Whether an input ended by its plain end.
fn is_plain(how: InputEnd) -> bool
    ensures { result ≡ is_plain_input how }
{
    match how {
        InputEnd::End { .. } => true,
        InputEnd::Sync { .. } | InputEnd::ReadFault | InputEnd::TooLong => false,
    }
}

/// Whether a run ended by the plain end of its input.
fn ended_plainly(cause: Cause) -> bool
    ensures { result ≡ is_plain_end cause }
{
    match cause {
        Cause::Input(how) => is_plain(how),
        Cause::Joint | Cause::Until(_) | Cause::Stop(_) => false,
        Cause::Refuse(_, _) | Cause::WriteFault | Cause::NoMemory(_) => false,
    }
}

/// What a run is that is done, its report and its closings too, where a plugin has a fault or none has.
fn status_if_done(general: &GeneralConf, faulty: bool, cause: Cause) -> Status
    ensures { result ≡ done_status general.now faulty cause }
{
    if general.endless && ended_plainly(cause) {
        return Status::InputEnded;
    }
    if general.fail_on_faults && faulty {
        return Status::FaultFound;
    }
    Status::Done
}

/// The status, or the other one in the place of `Done`.
fn other_than_done(other: Status, status: Status) -> Status
    ensures { result ≡ in_place_of_done other status }
{
    match status {
        Status::Done => other,
        _ => status,
    }
}

/// The status of a run that ended by this cause, where a plugin has a fault or none has, and where a report or the closing of the
/// output failed or did not.
pub(crate) fn status_of_run(general: &GeneralConf, faulty: bool, cause: Cause, late: bool) -> Status
    ensures { result ≡ run_status general.now faulty cause late }
{
    let status = status_of_cause(cause);
    if late {
        return other_than_done(Status::WriteFault, status);
    }
    other_than_done(status_if_done(general, faulty, cause), status)
}
