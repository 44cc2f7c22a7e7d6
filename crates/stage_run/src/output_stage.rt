//! The stage of an output.

use crate::telling::{below_limit, followed};
use crate::writing::write_first;
use crate::{IoBuffer, OutputPart, Work};
use cell_land::CellWindow;
use chain_core::{News, StageEnd};
use ts_outside::Sink;

/// An output with its buffer.
pub struct OutputStage<K> {
    pub(crate) part: OutputPart<K>,
    pub(crate) room: IoBuffer,
}

impl<K: Sink> OutputStage<K> {
    ghost use Rattle.std.specs.Prelude.{◌≡◌, ◌≢◌, ℕ, ◌+◌, ◌<◌, ◌≤◌, [], length, take, Option, None, Some};
    ghost use Rattle.chain_model.specs.declared.positions.TheConstants.{POSITION_LIMIT};
    ghost use Rattle.chain_core.specs.declared.stage_end.StageEnd.{StageEnd};
    ghost use Rattle.ts_outside.specs.Source.{SourceView};
    ghost use Rattle.ts_outside.specs.Sink.{SinkView};
    ghost use Rattle.stage_run.specs.PartLists.{PartLists, fresh_lists};
    ghost use Rattle.stage_run.specs.OutputStands.{OutputStands};
    ghost use Rattle.stage_run.specs.Writing.{WritesCells, PartWrites};
    ghost use Rattle.stage_run.specs.Parts.{IsSinkOf, LeavesOutput};
    ghost use Rattle.stage_run.specs.PartStands.{MayWork, MayWorkOnSome, sink_kind};
    ghost use Rattle.stage_run.specs.Works.{OutputWork};

    /// An output that has written nothing.
    pub(crate) fn of(part: OutputPart<K>, room: IoBuffer) -> Self
        ensures stream { sink_kind result.part ≡ sink_kind part }
        ensures stands { (source : SourceView) (sink : SinkView) (mark : ℕ) → IsSinkOf K.seen part sink
            → OutputStands K.seen result (fresh_lists source sink mark) None }
    {
        OutputStage { part, room }
    }

    /// Returns the output.
    pub(crate) fn into_part(self) -> OutputPart<K>
        ensures stream { sink_kind result ≡ sink_kind self.part }
        ensures leaves { (lists : PartLists) (told : Option StageEnd) → OutputStands K.seen self lists told
            → LeavesOutput K.seen result lists told }
    {
        let OutputStage { part, room: _ } = self;
        part
    }

    /// Writes the first cells of a window; the result is the number of those before the one whose packet was not taken whole,
    /// or all, with the window as it was.
    fn write(&mut self, window: CellWindow, len: usize) -> (usize, CellWindow)
        requires few { len ≤ length window.cells }
        ensures within { result.0 ≤ len }
        ensures writes { PartWrites K.seen self.old.part self.new.part (take len window.cells) result.0 }
        ensures same { result.1 ≡ window }
    {
        match &mut self.part {
            OutputPart::Stream(sink) => {
                write_first(sink, self.room.bytes.as_mut_slice(), window, len)
            }
            OutputPart::Discard => (len, window),
        }
    }

    /// Writes the live packets of all cells below the limit.
    pub(crate) fn work(&mut self, at: u64, window: CellWindow, news: &News) -> (Work, CellWindow)
        requires stands { MayWorkOnSome (OutputStands K.seen self.old) at news.now.written }
        requires in_range { at + length window.cells ≤ POSITION_LIMIT }
        ensures work { OutputWork K.seen self.old self.new at news.now window.cells result.1.cells result.0 }
        ensures same { result.1 ≡ window }
    {
        let len = below_limit(news.limit, at, window.len());
        let (done, window) = self.write(window, len);
        if done < len {
            return (Work::ending(done, Some(StageEnd::WriteFault)), window);
        }
        (Work::ending(done, followed(news, at + done as u64)), window)
    }

    /// The work where no cell is in its hands.
    pub(crate) fn work_on_none(&mut self, at: u64, news: &News) -> Work
        requires stands { MayWorkOnSome (OutputStands K.seen self.old) at news.now.written }
        ensures { OutputWork K.seen self.old self.new at news.now [] [] result }
    {
        Work::ending(0, followed(news, at))
    }
}
