//! The stage of a plugin.

ghost use Rattle.std.specs.Prelude.{◌≡◌};
ghost use Rattle.stage_run.specs.PluginSteps.{told_by};

use crate::Work;
use crate::telling::followed;
use cell_land::CellWindow;
use cell_rows::Mark;
use chain_core::{News, StageEnd, StageWord};
use plugin_trait::{Applied, Heard, Line, ListEnd, Plugin};
use std::alloc::{AllocError, Global};
use std::mem;
use ts_outside::Gate;
use ts_packet::Packet;

/// A plugin with the lines that it gave out, and whether its agreement was reported.
pub struct PluginStage<P> {
    pub(crate) heard: Heard<P>,
    pub(crate) agreed: bool,
}

/// What a plugin's stage reports of how the plugin left its window.
fn told(end: ListEnd, news: &News, now: u64) -> Option<StageEnd>
    ensures { result ≡ told_by end news.now now }
{
    match end {
        ListEnd::Through => followed(news, now),
        ListEnd::Last => Some(StageEnd::Last),
        ListEnd::Stop => Some(StageEnd::Stop),
        ListEnd::Refuse(reason) => Some(StageEnd::Refuse(reason)),
        ListEnd::NoMemory => Some(StageEnd::NoMemory),
    }
}

impl<P: Plugin> PluginStage<P> {
    ghost use Rattle.std.specs.Prelude.{◌≡◌, ◌≢◌, ℕ, ◌+◌, ◌-◌, ◌<◌, ◌≤◌, List, [], ◌++◌, length, take, drop, Option, None, Some, is_some};
    ghost use Rattle.ts_packet.specs.declared.cell.Cell.{Cell};
    ghost use Rattle.cell_rows.specs.Cells.{cells_of};
    ghost use Rattle.cell_land.specs.Cells.{SameSlots};
    ghost use Rattle.chain_model.specs.declared.positions.TheConstants.{POSITION_LIMIT};
    ghost use Rattle.chain_model.specs.Apply.{apply_after};
    ghost use Rattle.chain_model.specs.Joint.{agreement_of};
    ghost use Rattle.chain_core.specs.declared.stage_end.StageEnd.{StageEnd};
    ghost use Rattle.ts_outside.specs.Source.{SourceView};
    ghost use Rattle.ts_outside.specs.Sink.{SinkView};
    ghost use Rattle.plugin_trait.specs.Steps.{MeetsCells, IsPreallocatedFor};
    ghost use Rattle.plugin_trait.specs.HeardStands.{HeardStands};
    ghost use Rattle.plugin_trait.specs.Marks.{AllowsMark};
    ghost use Rattle.plugin_trait.specs.PlacedLines.{placed_between};
    ghost use Rattle.plugin_trait.specs.Driving.{Makes, made_so_far, TellsAgreement};
    ghost use Rattle.stage_run.specs.PluginSteps.{Allows, MayPass, StandsTold};
    ghost use Rattle.stage_run.specs.PartLists.{PartLists, fresh_lists, marked_by, lines_taken};
    ghost use Rattle.stage_run.specs.HeardSince.{HeardSince};
    ghost use Rattle.stage_run.specs.PluginStands.{PluginStands};
    ghost use Rattle.stage_run.specs.PartStands.{MayWork, MayWorkOnSome};
    ghost use Rattle.stage_run.specs.Works.{PluginWork};

    /// A plugin that met no cell yet, and has no lines.
    pub(crate) fn of(heard: Heard<P>) -> Self
        requires { MeetsCells (HeardStands P.rule P.stands_for heard) 0 }
        ensures rule { P.rule result.heard.plugin ≡ P.rule heard.plugin }
        ensures preallocated { P.preallocated result.heard.plugin ≡ P.preallocated heard.plugin }
        ensures stands { (source : SourceView) (sink : SinkView) (mark : ℕ)
            → HeardStands P.rule P.stands_for heard [] mark
            → PluginStands P.rule P.stands_for result (fresh_lists source sink mark) None }
    {
        PluginStage {
            heard,
            agreed: false,
        }
    }

    /// Returns the plugin with its lines.
    pub(crate) fn into_plugin(self) -> Heard<P>
        ensures { result ≡ self.heard }
    {
        let PluginStage { heard, agreed: _ } = self;
        heard
    }

    /// Gives the plugin a mark, and keeps the lines up to it. Out of memory it keeps what it had.
    pub(crate) fn note(&mut self, written: u64) -> Result<(), AllocError>
        requires { AllowsMark (P.stands_for self.old.heard.plugin) written }
        ensures noted { (lists : PartLists) (told : Option StageEnd)
            → PluginStands P.rule P.stands_for self.old lists told
            → lists.mark ≤ written → written ≤ length lists.met
            → PluginStands P.rule P.stands_for self.new (marked_by lists written result) told }
        ensures same_rule { P.rule self.new.heard.plugin ≡ P.rule self.old.heard.plugin }
        ensures same_preallocated { P.preallocated self.new.heard.plugin ≡ P.preallocated self.old.heard.plugin }
    {
        let heard = &mut self.heard;
        heard.plugin.note(written, &mut heard.lines)
    }

    /// Takes away the lines that the plugin gave out: those up to its mark that were not taken before.
    pub(crate) fn take_lines(&mut self, alloc: Global) -> Vec<Line>
        ensures taken { (lists : PartLists) (told : Option StageEnd)
            → PluginStands P.rule P.stands_for self.old lists told
            → (result.items ≡ placed_between (P.rule self.old.heard.plugin) lists.met lists.from lists.mark)
            × PluginStands P.rule P.stands_for self.new (lines_taken lists) told }
        ensures same_plugin { self.new.heard.plugin ≡ self.old.heard.plugin }
    {
        mem::replace(&mut self.heard.lines, Vec::new(alloc))
    }

    /// Gives the plugin the mark, keeps the lines up to it, and takes the plugin over the cells.
    fn pass(&mut self, at: u64, packets: &mut [Packet], marks: &mut [Mark], written: u64) -> Applied
        requires long { length marks.old ≡ length packets.old }
        requires may { MayPass (P.stands_for self.old.heard.plugin) at written }
        requires in_range { at + length packets.old ≤ POSITION_LIMIT }
        ensures count { result.count ≤ length packets.old }
        ensures rest { drop result.count (cells_of packets.new marks.new) ≡ drop result.count (cells_of packets.old marks.old) }
        ensures makes { (history : List Cell) (mark : ℕ)
            → Allows (P.stands_for self.old.heard.plugin) at written history mark
            → Makes (apply_after (P.rule self.old.heard.plugin) history (cells_of packets.old marks.old))
            (take result.count (cells_of packets.new marks.new)) result.end }
        ensures far { (history : List Cell) (mark : ℕ)
            → Allows (P.stands_for self.old.heard.plugin) at written history mark
            → apply_after (P.rule self.old.heard.plugin) history (take result.count (cells_of packets.old marks.old))
            ≡ made_so_far (take result.count (cells_of packets.new marks.new)) result.end }
        ensures met { (from : ℕ) (history : List Cell) (mark : ℕ)
            → Allows (HeardSince P.rule P.stands_for from self.old.heard) at written history mark
            → StandsTold (HeardSince P.rule P.stands_for from self.new.heard)
            (history ++ take result.count (cells_of packets.old marks.old)) written result.end }
        ensures agreed { (history : List Cell) (mark : ℕ)
            → Allows (P.stands_for self.old.heard.plugin) at written history mark
            → self.old.agreed ≡ is_some (agreement_of (P.rule self.old.heard.plugin) history)
            → TellsAgreement (P.rule self.old.heard.plugin) (history ++ take result.count (cells_of packets.old marks.old))
            at result.agreed self.new.agreed }
        ensures same_rule { P.rule self.new.heard.plugin ≡ P.rule self.old.heard.plugin }
        ensures same_preallocated { P.preallocated self.new.heard.plugin ≡ P.preallocated self.old.heard.plugin }
        ensures room { IsPreallocatedFor (P.preallocated self.old.heard.plugin) (at + length packets.old - written)
            → result.end ≢ ListEnd.NoMemory }
    {
        let heard = &mut self.heard;
        if heard.plugin.note(written, &mut heard.lines).is_err() {
            return Applied {
                count: 0,
                agreed: None,
                end: ListEnd::NoMemory,
            };
        }
        heard.plugin.steps(at, packets, marks, &mut self.agreed)
    }

    /// Gives the plugin the mark and takes it over all cells, between the two calls of the gate.
    pub(crate) fn work<G: Gate>(
        &mut self,
        stage: usize,
        at: u64,
        packets: &mut [Packet],
        marks: &mut [Mark],
        news: &News,
        gate: &G,
    ) -> Work
        requires long { length marks.old ≡ length packets.old }
        requires stands { MayWorkOnSome (PluginStands P.rule P.stands_for self.old) at news.now.written }
        requires written { news.now.written ≤ at }
        requires in_hand { at + length packets.old ≤ news.now.taken }
        requires in_range { at + length packets.old ≤ POSITION_LIMIT }
        ensures same_rule { P.rule self.new.heard.plugin ≡ P.rule self.old.heard.plugin }
        ensures same_preallocated { P.preallocated self.new.heard.plugin ≡ P.preallocated self.old.heard.plugin }
        ensures work { PluginWork P.rule P.stands_for P.preallocated self.old self.new
            at news.now (cells_of packets.old marks.old) (cells_of packets.new marks.new) result }
    {
        if packets.is_empty() {
            return Work::ending(0, followed(news, at));
        }
        gate.enter(stage, at, packets.len());
        let stepped = self.pass(at, packets, marks, news.written);
        gate.leave(stage);
        Work {
            done: stepped.count,
            word: StageWord {
                agreed: stepped.agreed,
                ended: told(stepped.end, news, at + stepped.count as u64),
            },
        }
    }

    /// The same, with the cells of a window.
    pub(crate) fn work_on<G: Gate>(
        &mut self,
        stage: usize,
        at: u64,
        window: CellWindow,
        news: &News,
        gate: &G,
    ) -> (Work, CellWindow)
        requires stands { MayWorkOnSome (PluginStands P.rule P.stands_for self.old) at news.now.written }
        requires written { news.now.written ≤ at }
        requires in_hand { at + length window.cells ≤ news.now.taken }
        requires in_range { at + length window.cells ≤ POSITION_LIMIT }
        ensures same_rule { P.rule self.new.heard.plugin ≡ P.rule self.old.heard.plugin }
        ensures same_preallocated { P.preallocated self.new.heard.plugin ≡ P.preallocated self.old.heard.plugin }
        ensures work { PluginWork P.rule P.stands_for P.preallocated self.old self.new
            at news.now window.cells result.1.cells result.0 }
        ensures slots { SameSlots window result.1 }
    {
        let (mut packets, mut marks) = window.apart();
        let work = self.work(
            stage,
            at,
            packets.as_mut_slice(),
            marks.as_mut_slice(),
            news,
            gate,
        );
        (work, CellWindow::of(packets, marks))
    }

    /// The work where no cell is in its hands.
    pub(crate) fn work_on_none(&mut self, at: u64, news: &News) -> Work
        requires stands { MayWorkOnSome (PluginStands P.rule P.stands_for self.old) at news.now.written }
        ensures same_plugin { self.new ≡ self.old }
        ensures work { PluginWork P.rule P.stands_for P.preallocated self.old self.new at news.now [] [] result }
    {
        Work::ending(0, followed(news, at))
    }
}
