//! A stage of any kind: an input, a plugin or an output.
//!
//! What a stage reads into and writes from is allocated once, before the run, and its work takes no memory. An input
//! that may end by following does so before it reads again.

use crate::{
    InputPart, InputStage, IoBuffer, OutputPart, OutputStage, PluginStage, Stuffing, Work,
};
use cell_land::CellWindow;
use chain_core::News;
use plugin_trait::{Heard, Line, Plugin};
use std::alloc::{AllocError, Global};
use ts_outside::{Gate, Sink, Source};

/// One stage of a chain: an input, a plugin or an output.
///
/// A part stands for lists: the cells that it met and gave, the bytes that it read and wrote. It keeps less than these,
/// so this is a relation: a call asks for some lists that the part stands for, and what it promises holds for each.
pub enum StagePart<S, K, P> {
    Input(InputStage<S>),
    Plugin(PluginStage<P>),
    Output(OutputStage<K>),
}

impl<S: Source, K: Sink, P: Plugin> StagePart<S, K, P> {
    ghost use Rattle.std.specs.Prelude.{◌≡◌, ◌≢◌, ℕ, ◌+◌, ◌-◌, ◌<◌, ◌≤◌, ◌↔◌, [], length, drop, Option, None, Some, IfSome, IfNone};
    ghost use Rattle.chain_model.specs.declared.positions.TheConstants.{POSITION_LIMIT};
    ghost use Rattle.chain_model.specs.Apply.{StageList};
    ghost use Rattle.chain_model.specs.Stuffed as model;
    ghost use Rattle.chain_core.specs.declared.stage_end.StageEnd.{StageEnd};
    ghost use Rattle.ts_outside.specs.Source.{SourceView};
    ghost use Rattle.ts_outside.specs.Sink.{SinkView};
    ghost use Rattle.cell_land.specs.Cells.{SameSlots};
    ghost use Rattle.plugin_trait.specs.Steps.{MeetsCells};
    ghost use Rattle.plugin_trait.specs.HeardStands.{HeardStands};
    ghost use Rattle.stage_run.specs.Seeing.{seeing};
    ghost use Rattle.plugin_trait.specs.PlacedLines.{placed_between};
    ghost use Rattle.stage_run.specs.HeardSince.{HeardSince};
    ghost use Rattle.stage_run.specs.Noting.{AllowsNote, Noted};
    ghost use Rattle.stage_run.specs.PartLists.{PartLists, fresh_lists, marked_by, lines_taken};
    ghost use Rattle.stage_run.specs.InputStands.{stuffing_of};
    ghost use Rattle.stage_run.specs.Parts.{IsListOf, IsSourceOf, IsSinkOf, IsUnused, LeavesInput, LeavesOutput, SomeList};
    ghost use Rattle.stage_run.specs.SourceNow.{WasRead, WasReadOf};
    ghost use Rattle.stage_run.specs.PartStands.{PartStands, PartGives, MayWork, MayWorkOnSome, rule_of, preallocated_of, kind_of, stuffing_in, source_kind, sink_kind, stream_kind, a_stream, an_input, a_plugin, an_output};
    ghost use Rattle.stage_run.specs.Works.{PartWork};

    /// The input's stage. It reads into the buffer. Nothing was read or given yet.
    pub fn of_input(part: InputPart<S>, stuffing: Stuffing, room: IoBuffer) -> Self
        requires every { 1 ≤ stuffing.every }
        requires unused { IsUnused part }
        ensures kind { kind_of result ≡ an_input }
        ensures stream { stream_kind result ≡ source_kind part }
        ensures stuffing { stuffing_in result ≡ Some (stuffing_of stuffing) }
        ensures stands { (source : SourceView) (sink : SinkView) (mark : ℕ) → IsSourceOf S.seen part source
            → PartStands (seeing S.seen K.seen P.rule P.stands_for P.preallocated) result
            (fresh_lists source sink mark) None }
        ensures gives { (source : SourceView) (sink : SinkView) (mark : ℕ) (input : StageList)
            → PartGives (seeing S.seen K.seen P.rule P.stands_for P.preallocated) result
            (fresh_lists source sink mark) input ↔ IsListOf S.seen part (stuffing_of stuffing) input }
    {
        StagePart::Input(InputStage::of(part, stuffing, room))
    }

    /// A plugin's stage. The plugin met no cell yet, and has no lines.
    pub fn of_plugin(heard: Heard<P>) -> Self
        requires { MeetsCells (HeardStands P.rule P.stands_for heard) 0 }
        ensures kind { kind_of result ≡ a_plugin }
        ensures rule { rule_of (seeing S.seen K.seen P.rule P.stands_for P.preallocated) result ≡ P.rule heard.plugin }
        ensures preallocated { preallocated_of (seeing S.seen K.seen P.rule P.stands_for P.preallocated) result
            ≡ P.preallocated heard.plugin }
        ensures stands { (source : SourceView) (sink : SinkView) (mark : ℕ)
            → HeardStands P.rule P.stands_for heard [] mark
            → PartStands (seeing S.seen K.seen P.rule P.stands_for P.preallocated) result
            (fresh_lists source sink mark) None }
    {
        StagePart::Plugin(PluginStage::of(heard))
    }

    /// The output's stage. It gathers what it writes in the buffer. Nothing was written yet.
    pub fn of_output(part: OutputPart<K>, room: IoBuffer) -> Self
        ensures kind { kind_of result ≡ an_output }
        ensures stream { stream_kind result ≡ sink_kind part }
        ensures stands { (source : SourceView) (sink : SinkView) (mark : ℕ) → IsSinkOf K.seen part sink
            → PartStands (seeing S.seen K.seen P.rule P.stands_for P.preallocated) result
            (fresh_lists source sink mark) None }
    {
        StagePart::Output(OutputStage::of(part, room))
    }

    /// Returns the input. Whatever it stands for, some list may be that of the input, and each such list ends by an end of
    /// the input; and what was read of its source reaches as far as the cells that it gave, or nothing of it is left.
    pub fn into_input(self) -> InputPart<S>
        requires { kind_of self ≡ an_input }
        ensures stream { source_kind result ≡ stream_kind self }
        ensures leaves { (lists : PartLists) (told : Option StageEnd) (stuffing : model.Stuffing)
            → PartStands (seeing S.seen K.seen P.rule P.stands_for P.preallocated) self lists told
            → stuffing_in self ≡ Some stuffing → LeavesInput S.seen result stuffing lists told }
        ensures read { (lists : PartLists) (told : Option StageEnd) (stuffing : model.Stuffing)
            → PartStands (seeing S.seen K.seen P.rule P.stands_for P.preallocated) self lists told
            → stuffing_in self ≡ Some stuffing → WasReadOf S.seen result stuffing lists }
        ensures some_list { (lists : PartLists) (told : Option StageEnd)
            → PartStands (seeing S.seen K.seen P.rule P.stands_for P.preallocated) self lists told
            → SomeList (PartGives (seeing S.seen K.seen P.rule P.stands_for P.preallocated) self lists) }
    {
        match self {
            StagePart::Input(stage) => stage.into_part(),
            _ => unreachable!(),
        }
    }

    /// The source that an input reads, as it stands now; `None` of an input that reads none, and of any other part. What was read
    /// of it has at least the cells that the part gave, or nothing of it is left.
    pub fn source(&self) -> Option<&S>
        ensures read { IfSome result (λ source. (lists : PartLists) (told : Option StageEnd) (stuffing : model.Stuffing)
            → PartStands (seeing S.seen K.seen P.rule P.stands_for P.preallocated) self.now lists told
            → stuffing_in self.now ≡ Some stuffing → WasRead stuffing lists.source (S.seen source.now) lists) }
        ensures some { IfSome result (λ _. stream_kind self.now ≡ a_stream) }
        ensures none { IfNone result (kind_of self.now ≡ an_input → stream_kind self.now ≢ a_stream) }
    {
        match self {
            StagePart::Input(stage) => stage.source(),
            _ => None,
        }
    }

    /// Returns the plugin with the lines that it gave out and that were not taken away.
    pub fn into_plugin(self) -> Heard<P>
        requires { kind_of self ≡ a_plugin }
        ensures rule { P.rule result.plugin ≡ rule_of (seeing S.seen K.seen P.rule P.stands_for P.preallocated) self }
        ensures stands { (lists : PartLists) (told : Option StageEnd)
            → PartStands (seeing S.seen K.seen P.rule P.stands_for P.preallocated) self lists told
            → HeardSince P.rule P.stands_for lists.from result lists.met lists.mark }
    {
        match self {
            StagePart::Plugin(stage) => stage.into_plugin(),
            _ => unreachable!(),
        }
    }

    /// Gives a plugin a mark between two turns, and keeps its lines up to it. Out of memory it keeps what it had.
    pub fn note(&mut self, written: u64) -> Result<(), AllocError>
        requires kind { kind_of self.old ≡ a_plugin }
        requires allows { AllowsNote (PartStands (seeing S.seen K.seen P.rule P.stands_for P.preallocated) self.old)
            written }
        ensures noted { Noted (seeing S.seen K.seen P.rule P.stands_for P.preallocated) self.old self.new
            (λ lists. marked_by lists written result) (λ lists. (lists.mark ≤ written) × (written ≤ length lists.met)) }
    {
        match self {
            StagePart::Plugin(stage) => stage.note(written),
            _ => unreachable!(),
        }
    }

    /// Takes away the lines that a plugin gave out: those up to its mark that were not taken before.
    pub fn take_lines(&mut self, alloc: Global) -> Vec<Line>
        requires kind { kind_of self.old ≡ a_plugin }
        ensures noted { Noted (seeing S.seen K.seen P.rule P.stands_for P.preallocated) self.old self.new
            lines_taken (λ lists. Unit {0}) }
        ensures taken { (lists : PartLists) (told : Option StageEnd)
            → PartStands (seeing S.seen K.seen P.rule P.stands_for P.preallocated) self.old lists told
            → result.items ≡ placed_between
            (rule_of (seeing S.seen K.seen P.rule P.stands_for P.preallocated) self.old) lists.met lists.from lists.mark }
    {
        match self {
            StagePart::Plugin(stage) => stage.take_lines(alloc),
            _ => unreachable!(),
        }
    }

    /// Returns the output.
    pub fn into_output(self) -> OutputPart<K>
        requires { kind_of self ≡ an_output }
        ensures stream { sink_kind result ≡ stream_kind self }
        ensures leaves { (lists : PartLists) (told : Option StageEnd)
            → PartStands (seeing S.seen K.seen P.rule P.stands_for P.preallocated) self lists told
            → LeavesOutput K.seen result lists told }
    {
        match self {
            StagePart::Output(stage) => stage.into_part(),
            _ => unreachable!(),
        }
    }

    /// Works on the first cells in the stage's hands, at the position `at`, with the news of its last visit.
    ///
    /// An input reads for all of them at once, and goes on with the packets that came; a plugin receives the mark and
    /// goes over them between the two calls of the gate; an output writes the live packets of those below the limit
    /// together. The next visit reports the result: the first `done` cells are the next ones of the stage's list, and the
    /// word says what it agrees to and how it ends. Nothing is allocated but what a plugin takes.
    pub fn work<G: Gate>(
        &mut self,
        stage: usize,
        at: u64,
        window: CellWindow,
        news: &News,
        gate: &G,
    ) -> (Work, CellWindow)
        requires stands { MayWorkOnSome (PartStands (seeing S.seen K.seen P.rule P.stands_for P.preallocated)
            self.old) at news.now.written }
        requires written { news.now.written ≤ at }
        requires in_hand { at + length window.cells ≤ news.now.taken }
        requires in_range { news.now.taken ≤ POSITION_LIMIT }
        ensures work { PartWork (seeing S.seen K.seen P.rule P.stands_for P.preallocated) self.old self.new
            at news.now window.cells result.1.cells result.0 }
        ensures slots { SameSlots window result.1 }
    {
        match self {
            StagePart::Input(input) => input.work(at, window, news),
            StagePart::Plugin(plugin) => plugin.work_on(stage, at, window, news, gate),
            StagePart::Output(output) => output.work(at, window, news),
        }
    }

    /// Works where no cell is in the stage's hands: it may end.
    pub fn work_on_none(&mut self, at: u64, news: &News) -> Work
        requires stands { MayWorkOnSome (PartStands (seeing S.seen K.seen P.rule P.stands_for P.preallocated)
            self.old) at news.now.written }
        requires written { news.now.written ≤ at }
        requires in_range { at ≤ POSITION_LIMIT }
        ensures { PartWork (seeing S.seen K.seen P.rule P.stands_for P.preallocated) self.old self.new
            at news.now [] [] result }
    {
        match self {
            StagePart::Input(input) => input.work_on_none(at, news),
            StagePart::Plugin(plugin) => plugin.work_on_none(at, news),
            StagePart::Output(output) => output.work_on_none(at, news),
        }
    }
}
