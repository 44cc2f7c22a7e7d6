//! The text of a round: the lines that plugins gave out, and those of the input's gaps in front of them at each position.
//!
//! What is promised of a step is an equation of the whole text: what stands written, and then all that is still to be written, is the
//! same before it and after it, whatever lines of the input come later.
ghost use Rattle.std.specs.Prelude.{◌≤◌};

use crate::gap_places::{Span, has_all, is_told};
use crate::input_report::{gap_line, push_input_line};
use crate::opening::PacketSource;
use crate::told_texts::{let_go, push_before, push_waiting};
use chain_tells::{RoundTexts, WaitingLines};
use packet_forms::Form;
use plugin_settings::PluginItem;
use search_source::{FileSource, Gap, GapCounts, NotedSource};
use stage_run::Stuffing;
use std::alloc::{AllocError, Global};
use ts_outside::Source;

/// Writes the rounds of a run, with the gaps of its input, bare or with the numbers and names of what reports.
#[derive(Drop)]
pub(crate) struct InputTexts<'a> {
    /// Whether lines go without the number and the name of what reports them.
    pub(crate) bare: bool,
    /// The stuffing of the input.
    pub(crate) stuffing: Stuffing,
    /// The plugins of the run.
    pub(crate) items: &'a [PluginItem],
    /// The gaps that were told.
    pub(crate) counts: GapCounts,
    ghost every: { 1 ≤ stuffing.every },
}

impl<'a> InputTexts<'a> {
    ghost use Rattle.std.specs.Prelude.{◌≡◌, ◌⊎◌, ◌-◌, ◌++◌, ◌∷◌, [], List, false, true, filter, fold, length, OnOk};
    ghost use Rattle.std.specs.Option.{option_map};
    ghost use Rattle.std.specs.String.{string_bytes};
    ghost use Rattle.chain_live.specs.LiveReports.{LiveLine};
    ghost use Rattle.search_source.specs.Gaps.{with_gap};
    ghost use Rattle.stage_run.specs.InputStands as stage;
    ghost use Rattle.chain_tells.specs.Waiting.{waiting};
    ghost use Rattle.tsp_top.specs.InputRounds.{counts_after, gap_rows, HasAll, is_between, lines_at, noted_gaps, round_text};
    ghost use Rattle.tsp_top.specs.LeftOut.{is_below};

    /// Writes the line of a gap, where the packet behind it is in the span, behind the lines that wait before it, and counts it.
    fn push_gap(
        &mut self,
        alloc: Global,
        text: &mut String,
        form: Form,
        span: Span,
        gap: Gap,
        lines: &mut WaitingLines,
    ) -> Result<(), AllocError>
        ensures said { (later : List LiveLine) → OnOk result (string_bytes text.new ++ round_text self.old.bare self.old.items.now later (waiting lines.new)
            ≡ string_bytes text.old ++ round_text self.old.bare self.old.items.now
            (gap_rows (stage.stuffing_of self.old.stuffing) form span.from span.to (gap ∷ []) ++ later) (waiting lines.old)) }
        ensures counts { OnOk result (self.new.counts
            ≡ fold (with_gap form) self.old.counts (filter (is_between (stage.stuffing_of self.old.stuffing) span.from span.to) (gap ∷ []))) }
        ensures same { (self.new.bare ≡ self.old.bare) × (self.new.stuffing ≡ self.old.stuffing) × (self.new.items ≡ self.old.items) }
        ensures rows { length lines.new.rows.items ≡ length lines.old.rows.items }
    {
        if !is_told(&self.stuffing, span, gap) {
            return Ok(());
        }
        push_before(
            text,
            self.bare,
            &self.stuffing,
            self.items,
            gap.before,
            lines,
        )?;
        let line = gap_line(alloc, form, gap)?;
        push_input_line(text, self.bare, line.as_str())?;
        self.counts = self.counts.with(form, gap);
        Ok(())
    }

    /// Writes the lines of gaps, as far as they are in the span, and the lines that wait before them.
    fn push_gaps(
        &mut self,
        alloc: Global,
        text: &mut String,
        form: Form,
        span: Span,
        gaps: &[Gap],
        lines: &mut WaitingLines,
    ) -> Result<(), AllocError>
        ensures said { (later : List LiveLine) → OnOk result (string_bytes text.new ++ round_text self.old.bare self.old.items.now later (waiting lines.new)
            ≡ string_bytes text.old ++ round_text self.old.bare self.old.items.now
            (gap_rows (stage.stuffing_of self.old.stuffing) form span.from span.to gaps.now ++ later) (waiting lines.old)) }
        ensures counts { OnOk result (self.new.counts
            ≡ fold (with_gap form) self.old.counts (filter (is_between (stage.stuffing_of self.old.stuffing) span.from span.to) gaps.now)) }
        ensures same { (self.new.bare ≡ self.old.bare) × (self.new.stuffing ≡ self.old.stuffing) × (self.new.items ≡ self.old.items) }
        ensures rows { length lines.new.rows.items ≡ length lines.old.rows.items }
    {
        for gap in gaps {
            self.push_gap(alloc, text, form, span, *gap, lines)?;
        }
        Ok(())
    }

    /// Writes the gaps that a source noted, as far as they are in the span, and the lines that wait before them. Where one may be
    /// wanting, that is an error.
    fn push_noted<S: Source>(
        &mut self,
        alloc: Global,
        text: &mut String,
        source: &NotedSource<S>,
        span: Span,
        lines: &mut WaitingLines,
    ) -> Result<(), AllocError>
        ensures said { OnOk result (string_bytes text.new ++ round_text self.old.bare self.old.items.now [] (waiting lines.new)
            ≡ string_bytes text.old ++ round_text self.old.bare self.old.items.now
            (gap_rows (stage.stuffing_of self.old.stuffing) source.now.source.finder.form span.from span.to (noted_gaps source.now)) (waiting lines.old)) }
        ensures counts { OnOk result (self.new.counts ≡ fold (with_gap source.now.source.finder.form) self.old.counts
            (filter (is_between (stage.stuffing_of self.old.stuffing) span.from span.to) (noted_gaps source.now))) }
        ensures has_all { OnOk result ((source.now.lost ≡ false)
            × ((source.now.from ≡ 0) ⊎ (is_below (stage.stuffing_of self.old.stuffing) span.from (source.now.from - 1) ≡ true))) }
        ensures same { (self.new.bare ≡ self.old.bare) × (self.new.stuffing ≡ self.old.stuffing) × (self.new.items ≡ self.old.items) }
        ensures rows { length lines.new.rows.items ≡ length lines.old.rows.items }
    {
        if source.is_lossy() {
            return Err(AllocError);
        }
        if !has_all(&self.stuffing, span.from, source.from()) {
            return Err(AllocError);
        }
        let form = source.form();
        self.push_gaps(alloc, text, form, span, source.gaps(), lines)?;
        let Some(gap) = source.last_gap() else {
            return Ok(());
        };
        self.push_gap(alloc, text, form, span, gap, lines)?;
        Ok(())
    }

    /// Writes a round with the gaps that a source noted.
    fn push_found<S: Source>(
        &mut self,
        alloc: Global,
        text: &mut String,
        source: &NotedSource<S>,
        span: Span,
        lines: &mut WaitingLines,
    ) -> Result<(), AllocError>
        ensures said { OnOk result (string_bytes text.new ≡ string_bytes text.old ++ round_text self.old.bare self.old.items.now
            (gap_rows (stage.stuffing_of self.old.stuffing) source.now.source.finder.form span.from span.to (noted_gaps source.now)) (waiting lines.old)) }
        ensures counts { OnOk result (self.new.counts ≡ fold (with_gap source.now.source.finder.form) self.old.counts
            (filter (is_between (stage.stuffing_of self.old.stuffing) span.from span.to) (noted_gaps source.now))) }
        ensures has_all { OnOk result ((source.now.lost ≡ false)
            × ((source.now.from ≡ 0) ⊎ (is_below (stage.stuffing_of self.old.stuffing) span.from (source.now.from - 1) ≡ true))) }
        ensures same { (self.new.bare ≡ self.old.bare) × (self.new.stuffing ≡ self.old.stuffing) × (self.new.items ≡ self.old.items) }
        ensures rows { length lines.new.rows.items ≡ length lines.old.rows.items }
    {
        self.push_noted(alloc, text, source, span, lines)?;
        push_waiting(text, self.bare, self.items, lines)?;
        Ok(())
    }

    /// Writes a round.
    fn push_round<S: Source>(
        &mut self,
        alloc: Global,
        text: &mut String,
        source: Option<&PacketSource<S>>,
        span: Span,
        lines: &mut WaitingLines,
    ) -> Result<(), AllocError>
        ensures said { OnOk result (string_bytes text.new ≡ string_bytes text.old ++ round_text self.old.bare self.old.items.now
            (lines_at (stage.stuffing_of self.old.stuffing) span.from span.to (option_map (λ s. s.now) source.entry)) (waiting lines.old)) }
        ensures has_all { OnOk result (HasAll (stage.stuffing_of self.old.stuffing) span.from (option_map (λ s. s.now) source.entry)) }
        ensures counts { OnOk result (self.new.counts
            ≡ counts_after (stage.stuffing_of self.old.stuffing) span.from span.to self.old.counts (option_map (λ s. s.now) source.entry)) }
        ensures same { (self.new.bare ≡ self.old.bare) × (self.new.stuffing ≡ self.old.stuffing) × (self.new.items ≡ self.old.items) }
        ensures rows { length lines.new.rows.items ≡ length lines.old.rows.items }
    {
        match source {
            Some(FileSource::Found(noted)) => self.push_found(alloc, text, noted, span, lines),
            Some(FileSource::Placed(_)) => push_waiting(text, self.bare, self.items, lines),
            None => push_waiting(text, self.bare, self.items, lines),
        }
    }
}

impl<'a, S: Source> RoundTexts<PacketSource<S>> for InputTexts<'a> {
    ghost use Rattle.std.specs.Prelude.{◌≡◌, ℕ, List, [], length, IfOk};
    ghost use Rattle.std.specs.Option.{option_map};
    ghost use Rattle.std.specs.String.{string_bytes};
    ghost use Rattle.chain_tells.specs.Rounds.{Round};
    ghost use Rattle.chain_tells.specs.Waiting.{waiting};
    ghost use Rattle.tsp_top.specs.InputRounds.{WritesRound};

    ghost writes = { λ old new round text. WritesRound old new round text };

    fn take_text(
        &mut self,
        alloc: Global,
        source: Option<&PacketSource<S>>,
        from: u64,
        to: u64,
        lines: &mut WaitingLines,
    ) -> Result<String, AllocError> {
        let mut text = String::new(alloc);
        let pushed = self.push_round(alloc, &mut text, source, Span { from, to }, lines);
        let_go(lines);
        pushed?;
        Ok(text)
    }
}
