//! The top call: the words are read, and the plan that they give is played.
ghost use Rattle.std.specs.Prelude.{◌≡◌, map, IfSome, Some};
ghost use Rattle.std.specs.String.{string_bytes};
ghost use Rattle.switch_args.specs.SwitchWords.{Given, read_of};
ghost use Rattle.switch_top.specs.SwitchCall.{CallsSwitch};
ghost use Rattle.switch_top.specs.SwitchPlans.{IsPlanOf};

use crate::plan::SwitchPlan;
use crate::playing::switch_plan;
use crate::status::SwitchStatus;
use crate::switch_end::SwitchEnd;
use std::alloc::Global;
use std::marker::Sync;
use std::sync::Wait;
use std::thread::Threads;
use switch_args::{WordsFault, read_words};
use ts_outside::{Desk, Gate, say};

/// Plays inputs one after another, as the words of a command line ask for, given without the program's name.
///
/// The words are those of `switch_args::read_words`. With `--resync` the packets of each input are found again in bytes with
/// damage, and no play of a file ends by lost sync; without it they are at their places. The output is opened first, then the first input; after that each
/// further play is opened when the play before it begins, and read into a ring of its own while that one is written. The
/// whole row of inputs is played as often as the words say, up to the first play that does not end plainly. Then the
/// output is closed, and one line for each play that was played and the end line are reported. Of the statuses
///
/// - `Words` is returned exactly where the words are not of the form: `tsswitch: words` is reported, and nothing is opened;
/// - `NoMemory` where memory ran out: for the words, a name, a ring, a line or the report, and nothing is reported;
/// - `WriteFault` where the output was not opened (`tsswitch: cannot open output` is reported), where a write ended the
///   plays, or where the closing of the output or a report failed after plays that would be `Done`;
/// - `ReadFault` where the last play that was played could not be opened, or a read of it failed;
/// - `Sync` and `TooLong` where the last play that was played ended so;
/// - `Done` in all other cases.
///
/// What becomes of a play after the last one that was played is never reported. The call may wait; no clause says that it
/// returns. Work for which no thread can be started is done by the caller's thread.
pub fn switch_call<R: Threads + Wait + Sync, D: Desk, G: Gate>(
    rt: &R,
    alloc: Global,
    words: &[String],
    desk: &mut D,
    gate: &G,
) -> SwitchStatus
    ensures { CallsSwitch (map string_bytes words.now) (D.seen desk.old) (D.seen desk.new) result }
{
    explained_switch_call(rt, alloc, words, desk, gate).status
}

/// Does what `switch_call` does, and returns the plan of the words with the status.
pub fn explained_switch_call<R: Threads + Wait + Sync, D: Desk, G: Gate>(
    rt: &R,
    alloc: Global,
    words: &[String],
    desk: &mut D,
    gate: &G,
) -> SwitchEnd
    ensures call { CallsSwitch (map string_bytes words.now) (D.seen desk.old) (D.seen desk.new) result.status }
    ensures plan { IfSome result.plan (λ plan. (given : Given) × (read_of (map string_bytes words.now) ≡ Some given)
        × IsPlanOf given plan) }
{
    match read_words(alloc, words) {
        Ok(settings) => {
            let plan = SwitchPlan::of(settings);
            let status = switch_plan(rt, alloc, &plan, desk, gate);
            SwitchEnd {
                status,
                plan: Some(plan),
            }
        }
        Err(WordsFault::At { word }) => {
            say(desk, "tsswitch: words\n");
            SwitchEnd {
                status: SwitchStatus::Words { word },
                plan: None,
            }
        }
        Err(WordsFault::NoMemory) => SwitchEnd {
            status: SwitchStatus::NoMemory,
            plan: None,
        },
    }
}
