//! The end of a call: after the plays the output is closed, and the plays are reported.
ghost use Rattle.std.specs.Prelude.{◌≡◌, ◌⊎◌, ◌||◌, ◌++◌, ℕ, List, Option, Bool, is_err, IfOk};
ghost use Rattle.std.specs.String.{string_bytes};
ghost use Rattle.chain_core.specs.declared.core_plan.CorePlan.{CorePlan};
ghost use Rattle.stage_run.specs.declared.output_part.OutputPart.{OutputPart};
ghost use Rattle.ts_outside.specs.Desk.{DeskView};
ghost use Rattle.switch_top.specs.Nexts.{kind_of};
ghost use Rattle.switch_top.specs.PlayNames.{PlayName};
ghost use Rattle.switch_top.specs.Lines.{switch_end_line};
ghost use Rattle.switch_top.specs.PlayCuts.{end_of};
ghost use Rattle.switch_top.specs.SoFar.{AreAllPlayed, RanTo, Wanted};
ghost use Rattle.switch_top.specs.SwitchEnds.{ReportsPlays, SwitchRan, SwitchWanted};
ghost use Rattle.switch_top.specs.OutputKept.{closed_as, ClosesWell, IsOutputOf};

use crate::lines::end_line_text;
use crate::play_source::PlaySource;
use crate::played_cut::PlayedEnd;
use crate::status::{SwitchStatus, status_if_late, status_of};
use crate::stepping::{AllPlayed, Switched};
use chain_plays::OpenPlay;
use stage_run::OutputPart;
use std::alloc::{AllocError, Global};
use ts_outside::{Desk, Failed, Source, say};

/// Closes the output; what goes nowhere is always closed.
fn close_output<D: Desk>(desk: &mut D, output: OutputPart<D::Out>) -> Result<(), Failed>
    ensures closed { D.seen desk.new ≡ closed_as D.Out.seen (D.seen desk.old) output (is_err result) }
    ensures well { ClosesWell output (is_err result) }
{
    match output {
        OutputPart::Stream(sink) => desk.close_out(sink),
        OutputPart::Discard => Ok(()),
    }
}

/// The whole report.
fn whole_text(
    alloc: Global,
    mut text: String,
    input: usize,
    end: PlayedEnd,
    count: u128,
) -> Result<String, AllocError>
    ensures { IfOk result (λ whole. string_bytes whole ≡ string_bytes text ++ switch_end_line input (end_of end) count) }
{
    let last = end_line_text(alloc, input, end, count)?;
    text.push_str(last.as_str())?;
    Ok(text)
}

/// Reports the plays, and returns the status of the call.
fn report_plays<D: Desk>(
    alloc: Global,
    desk: &mut D,
    text: String,
    count: u128,
    input: usize,
    end: PlayedEnd,
    closing_failed: bool,
) -> SwitchStatus
    ensures { ReportsPlays (string_bytes text ++ switch_end_line input (end_of end) count) input (end_of end) closing_failed
        (D.seen desk.old) (D.seen desk.new) result }
{
    match whole_text(alloc, text, input, end, count) {
        Ok(whole) => {
            let failed = say(desk, whole.as_str());
            status_if_late(status_of(input, end), closing_failed || failed)
        }
        Err(AllocError) => SwitchStatus::NoMemory,
    }
}

/// Closes the output after the plays, and reports them.
fn finish_over<D: Desk, A: OpenPlay<PlaySource<D::In>>>(
    alloc: Global,
    desk: &mut D,
    over: Switched<D::Out>,
) -> SwitchStatus
    ensures { (resync : Bool) (core : CorePlan) (inputs : List (List ℕ)) (names : List PlayName) (start : DeskView)
        (first : OutputPart D.Out) (name : Option (List ℕ)) (buffer : ℕ)
        → RanTo (kind_of resync ⟦<PlaySource<D::In> as Source>⟧.seen D.Out.seen A.is_open) core inputs names start first over (D.seen desk.old)
        → IsOutputOf D.Out.seen start name first
        → core.buffer ≡ buffer → SwitchRan resync buffer names name start (D.seen desk.new) result }
{
    let Switched {
        output,
        count,
        text,
        input,
        end,
    } = over;
    let failed = close_output(desk, output).is_err();
    report_plays(alloc, desk, text, count, input, end, failed)
}

/// Closes the output where memory ran out.
fn finish_wanting<D: Desk, A: OpenPlay<PlaySource<D::In>>>(
    desk: &mut D,
    output: OutputPart<D::Out>,
) -> SwitchStatus
    ensures { (resync : Bool) (core : CorePlan) (inputs : List (List ℕ)) (names : List PlayName) (start : DeskView)
        (first : OutputPart D.Out) (name : Option (List ℕ))
        → Wanted (kind_of resync ⟦<PlaySource<D::In> as Source>⟧.seen D.Out.seen A.is_open) core inputs names start first output (D.seen desk.old)
        → IsOutputOf D.Out.seen start name first
        → SwitchWanted resync names name start (D.seen desk.new) result }
{
    let _ = close_output(desk, output).is_err();
    SwitchStatus::NoMemory
}

/// Closes the output and reports the plays, or closes it alone where memory ran out.
pub(crate) fn finish_plays<D: Desk, A: OpenPlay<PlaySource<D::In>>>(
    alloc: Global,
    desk: &mut D,
    played: AllPlayed<D::Out>,
) -> SwitchStatus
    ensures { (resync : Bool) (core : CorePlan) (inputs : List (List ℕ)) (names : List PlayName) (start : DeskView)
        (first : OutputPart D.Out) (name : Option (List ℕ)) (buffer : ℕ)
        → AreAllPlayed (kind_of resync ⟦<PlaySource<D::In> as Source>⟧.seen D.Out.seen A.is_open) core inputs names start first played (D.seen desk.old)
        → IsOutputOf D.Out.seen start name first
        → core.buffer ≡ buffer → SwitchWanted resync names name start (D.seen desk.new) result
        ⊎ SwitchRan resync buffer names name start (D.seen desk.new) result }
{
    match played {
        AllPlayed::Over(over) => finish_over::<D, A>(alloc, desk, over),
        AllPlayed::Wants(output) => finish_wanting::<D, A>(desk, output),
    }
}
