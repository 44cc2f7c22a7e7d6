//! What the input of a run reports whose packets are found again, in front of the plugins.
ghost use Rattle.std.specs.Prelude.{◌≡◌, ◌⊎◌, ◌≤◌, ◌++◌, ◌∷◌, [], ◌&&◌, ◌||◌, not, nat_lt, true, codes, IfOk, OnOk};
ghost use Rattle.std.specs.List.{flat_map};
ghost use Rattle.std.specs.Fmt.{decimal};
ghost use Rattle.std.specs.String.{string_bytes};
ghost use Rattle.chain_args.specs.ValidPlan.{IsValidGeneral};
ghost use Rattle.tsp_top.specs.LeftOut.{KnowsAll, all_counts, counts_below, counts_text, gap_text, has_gaps, input_faulty, is_at_end, is_below, kept_out, left_behind, position_of, with_below};
ghost use Rattle.search_source.specs.Gaps.{with_end};
ghost use Rattle.tsp_top.specs.InputRounds.{KnowsEnd, rest_faulty, rest_printed};
ghost use Rattle.tsp_top.specs.PlannedChain.{stuffing_of};
ghost use Rattle.tsp_top.specs.Printed.{end_printed, gap_printed, input_printed, printed_line};

use crate::reporting::push_line;
use chain_args::GeneralConf;
use chain_core::Closed;
use chain_model::{Cause, InputEnd};
use packet_forms::Form;
use search_source::{Gap, GapCounts, KeptGaps};
use std::alloc::{AllocError, Global};

/// The name of an input whose packets are found again; its number is 0.
const INPUT_NAME: &str = "file";

/// The position of the packet with this number in the list of the input with its stuffing.
fn position_of(general: &GeneralConf, number: u64) -> u128
    requires { IsValidGeneral general.now }
    ensures { result ≡ position_of (stuffing_of general.now) number }
{
    let (null, every) = general.add_input_stuffing;
    let groups = number / every;
    general.add_start_stuffing as u128 + (number as u128 + null as u128 * groups as u128)
}

/// Whether the packet with this number is before the cut.
fn is_below(general: &GeneralConf, cut: u64, number: u64) -> bool
    requires { IsValidGeneral general.now }
    ensures { result ≡ is_below (stuffing_of general.now) cut number }
{
    position_of(general, number) < cut as u128
}

/// What is said of a gap.
pub(crate) fn gap_line(alloc: Global, form: Form, gap: Gap) -> Result<String, AllocError>
    ensures { IfOk result (λ text. string_bytes text ≡ gap_text form gap) }
{
    let Gap { before, bytes } = gap;
    if bytes == form.unit() as u64 {
        return format!(in alloc; "bad sync byte before packet {before}");
    }
    format!(in alloc; "{bytes} bytes left out before packet {before}")
}

/// Appends a line of the input.
pub(crate) fn push_input_line(text: &mut String, bare: bool, said: &str) -> Result<(), AllocError>
    ensures { OnOk result (string_bytes text.new ≡ string_bytes text.old ++ printed_line bare 0 (codes "file") said.now) }
{
    push_line(text, bare, 0, INPUT_NAME, said)
}

/// Appends the line of a gap whose packet is before the cut, and counts it.
fn push_gap(
    alloc: Global,
    text: &mut String,
    general: &GeneralConf,
    form: Form,
    cut: u64,
    counts: GapCounts,
    gap: Gap,
) -> Result<GapCounts, AllocError>
    requires { IsValidGeneral general.now }
    ensures said { OnOk result (string_bytes text.new
        ≡ string_bytes text.old ++ gap_printed general.now.bare (stuffing_of general.now) cut form gap) }
    ensures counts { IfOk result (λ made. made ≡ with_below (stuffing_of general.now) cut form counts gap) }
{
    if !is_below(general, cut, gap.before) {
        return Ok(counts);
    }
    let line = gap_line(alloc, form, gap)?;
    push_input_line(text, general.bare, line.as_str())?;
    Ok(counts.with(form, gap))
}

/// Appends the lines of the gaps whose packets are before the cut, and returns their counts.
fn push_gaps(
    alloc: Global,
    text: &mut String,
    general: &GeneralConf,
    form: Form,
    cut: u64,
    gaps: &[Gap],
) -> Result<GapCounts, AllocError>
    requires { IsValidGeneral general.now }
    ensures said { OnOk result (string_bytes text.new
        ≡ string_bytes text.old ++ flat_map (gap_printed general.now.bare (stuffing_of general.now) cut form) gaps.now) }
    ensures counts { IfOk result (λ counts. counts ≡ counts_below (stuffing_of general.now) cut form gaps.now) }
{
    let mut counts = GapCounts::none();
    for gap in gaps {
        counts = push_gap(alloc, text, general, form, cut, counts, *gap)?;
    }
    Ok(counts)
}

/// How many bytes count that are left out behind the last packet: none where the run did not come to the input's plain end.
fn behind_at_end(cause: Cause, behind: u64) -> u64
    ensures { result ≡ left_behind cause behind }
{
    match cause {
        Cause::Input(InputEnd::End { .. }) => behind,
        Cause::Input(_) => 0,
        Cause::Joint | Cause::Until(_) | Cause::Stop(_) => 0,
        Cause::Refuse(_, _) | Cause::WriteFault | Cause::NoMemory(_) => 0,
    }
}

/// Appends the line about what is left out behind the last packet, where that is anything.
fn push_end(alloc: Global, text: &mut String, bare: bool, behind: u64) -> Result<(), AllocError>
    ensures { OnOk result (string_bytes text.new ≡ string_bytes text.old ++ end_printed bare behind) }
{
    if behind == 0 {
        return Ok(());
    }
    let line = format!(in alloc; "{behind} bytes left out at the end")?;
    push_input_line(text, bare, line.as_str())
}

/// Appends the counts.
fn push_counts(
    alloc: Global,
    text: &mut String,
    bare: bool,
    counts: GapCounts,
) -> Result<(), AllocError>
    ensures { OnOk result (string_bytes text.new
        ≡ string_bytes text.old ++ printed_line bare 0 (codes "file") (counts_text counts)) }
{
    let GapCounts {
        losses,
        bytes,
        bad_sync_bytes,
    } = counts;
    let line = format!(in alloc; "losses {losses} bytes {bytes} bad sync bytes {bad_sync_bytes}")?;
    push_input_line(text, bare, line.as_str())
}

/// Whether something is left out.
fn any_gap(counts: GapCounts) -> bool
    ensures { result ≡ has_gaps counts }
{
    if counts.losses != 0 {
        return true;
    }
    counts.bad_sync_bytes != 0
}

/// Whether a run ended by the plain end of its input.
fn is_at_end(cause: Cause) -> bool
    ensures { result ≡ is_at_end cause }
{
    match cause {
        Cause::Input(InputEnd::End { .. }) => true,
        Cause::Input(_) => false,
        Cause::Joint | Cause::Until(_) | Cause::Stop(_) => false,
        Cause::Refuse(_, _) | Cause::WriteFault | Cause::NoMemory(_) => false,
    }
}

/// Whether the search came as far as the cut of the run. It always has; no clause of a run says so.
fn came_to_cut(general: &GeneralConf, kept: &KeptGaps, closed: Closed) -> bool
    requires { IsValidGeneral general.now }
    ensures cut { result ≡ true → (kept.now.over ≡ true) ⊎ (closed.cut ≤ position_of (stuffing_of general.now) kept.now.number) }
    ensures end { result ≡ true → is_at_end closed.cause ≡ true → kept.now.over ≡ true }
{
    if kept.over {
        return true;
    }
    if is_at_end(closed.cause) {
        return false;
    }
    !is_below(general, closed.cut, kept.number)
}

/// Appends what an input reports whose packets were found again, and returns whether something is left out.
fn push_kept(
    alloc: Global,
    text: &mut String,
    general: &GeneralConf,
    kept: &KeptGaps,
    closed: Closed,
) -> Result<bool, AllocError>
    requires { IsValidGeneral general.now }
    ensures said { OnOk result (string_bytes text.new
        ≡ string_bytes text.old
        ++ (flat_map (gap_printed general.now.bare (stuffing_of general.now) closed.cut kept.now.form) kept.now.gaps.items
        ++ (end_printed general.now.bare (left_behind closed.cause kept.now.behind)
        ++ printed_line general.now.bare 0 (codes "file") (counts_text (all_counts (stuffing_of general.now) closed.cut closed.cause
        (record { form = kept.now.form; gaps = kept.now.gaps.items; behind = kept.now.behind })))))) }
    ensures faulty { IfOk result (λ faulty. faulty ≡ has_gaps (all_counts (stuffing_of general.now) closed.cut closed.cause
        (record { form = kept.now.form; gaps = kept.now.gaps.items; behind = kept.now.behind }))) }
{
    let bare = general.bare;
    let counts = push_gaps(
        alloc,
        text,
        general,
        kept.form,
        closed.cut,
        kept.gaps.as_slice(),
    )?;
    let behind = behind_at_end(closed.cause, kept.behind);
    push_end(alloc, text, bare, behind)?;
    let counts = counts.with_end(behind);
    push_counts(alloc, text, bare, counts)?;
    Ok(any_gap(counts))
}

/// Appends what the input reports in front of the plugins, and returns whether it has a fault: where its packets were found
/// again, and something is left out before the cut.
pub(crate) fn push_input(
    alloc: Global,
    text: &mut String,
    general: &GeneralConf,
    kept: &Option<KeptGaps>,
    closed: Closed,
) -> Result<bool, AllocError>
    requires { IsValidGeneral general.now }
    ensures said { OnOk result (string_bytes text.new
        ≡ string_bytes text.old
        ++ input_printed general.now.bare (stuffing_of general.now) (kept_out kept.now) closed.cut closed.cause) }
    ensures faulty { IfOk result (λ faulty. faulty
        ≡ input_faulty (stuffing_of general.now) (kept_out kept.now) closed.cut closed.cause) }
    ensures known { OnOk result (KnowsAll (stuffing_of general.now) kept.now closed.cut closed.cause) }
{
    let Some(kept) = kept else {
        return Ok(false);
    };
    if kept.lost {
        return Err(AllocError);
    }
    if !came_to_cut(general, kept, closed) {
        return Err(AllocError);
    }
    push_kept(alloc, text, general, kept, closed)
}

/// Whether nothing is wanting to what is said of the end: where the run came to the plain end of its input, nothing more is found.
fn came_to_end(kept: &KeptGaps, closed: Closed) -> bool
    ensures { result ≡ true → is_at_end closed.cause ≡ true → kept.now.over ≡ true }
{
    if is_at_end(closed.cause) {
        return kept.over;
    }
    true
}

/// Appends what is left to report of an input whose gaps were told while the run went, and returns whether something is left out.
fn push_rest(
    alloc: Global,
    text: &mut String,
    bare: bool,
    kept: &KeptGaps,
    counts: GapCounts,
    closed: Closed,
) -> Result<bool, AllocError>
    ensures said { OnOk result (string_bytes text.new
        ≡ string_bytes text.old ++ (end_printed bare (left_behind closed.cause kept.now.behind)
        ++ printed_line bare 0 (codes "file") (counts_text (with_end counts (left_behind closed.cause kept.now.behind))))) }
    ensures faulty { IfOk result (λ faulty. faulty ≡ has_gaps (with_end counts (left_behind closed.cause kept.now.behind))) }
{
    let behind = behind_at_end(closed.cause, kept.behind);
    push_end(alloc, text, bare, behind)?;
    let counts = counts.with_end(behind);
    push_counts(alloc, text, bare, counts)?;
    Ok(any_gap(counts))
}

/// Appends what is left to report of the input in front of the plugins' summaries, where its gaps were told while the run went and
/// counted, and returns whether it has a fault.
pub(crate) fn push_input_rest(
    alloc: Global,
    text: &mut String,
    bare: bool,
    kept: &Option<KeptGaps>,
    counts: GapCounts,
    closed: Closed,
) -> Result<bool, AllocError>
    ensures said { OnOk result (string_bytes text.new ≡ string_bytes text.old ++ rest_printed bare counts kept.now closed.cause) }
    ensures faulty { IfOk result (λ faulty. faulty ≡ rest_faulty counts kept.now closed.cause) }
    ensures known { OnOk result (KnowsEnd kept.now closed.cause) }
{
    let Some(kept) = kept else {
        return Ok(false);
    };
    if !came_to_end(kept, closed) {
        return Err(AllocError);
    }
    push_rest(alloc, text, bare, kept, counts, closed)
}
