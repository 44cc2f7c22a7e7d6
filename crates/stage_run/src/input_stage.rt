//! The stage of an input.

ghost use Rattle.std.specs.Prelude.{◌≡◌, ◌≤◌, ℕ, List, length, take};
ghost use Rattle.cell_rows.specs.Cells.{cells_of};
ghost use Rattle.stage_run.specs.Feeds.{live_cells};
ghost use Rattle.stage_run.specs.InputStands.{stuffing_of};
ghost use Rattle.stage_run.specs.InputSteps.{stop_count, null_count};

use crate::packet_feed::PacketFeed;
use crate::packet_stream::PacketsRead;
use crate::telling::{followed, may_follow};
use crate::{InputPart, IoBuffer, Stuffing, Work};
use cell_land::CellWindow;
use cell_rows::Mark;
use chain_core::{InputEnd, News, StageEnd};
use chain_model::POSITION_LIMIT;
use ts_outside::Source;
use ts_packet::Packet;

/// An input with its stuffing.
pub struct InputStage<S> {
    pub(crate) feed: PacketFeed<S>,
    pub(crate) stuffing: Stuffing,
    /// How many null packets come before anything else.
    pub(crate) nulls: u64,
    /// How the packets ended, once that is known.
    pub(crate) ended: Option<InputEnd>,
}

/// What was put into a window.
#[derive(Clone, Copy)]
struct Filled {
    /// How many cells, from the front.
    done: usize,
    /// How the list ends after them, if it does.
    over: Option<InputEnd>,
}

/// How many null packets come after an end.
fn stop_count(ended: Option<InputEnd>, stop: u64) -> u64
    ensures { result ≡ stop_count ended stop }
{
    match ended {
        Some(InputEnd::End { .. }) => stop,
        _ => 0,
    }
}

/// How many null packets come after the packet of this number, counted from 1.
fn null_count(packets: u64, stuffing: &Stuffing) -> u64
    requires { 1 ≤ stuffing.now.every }
    ensures { result ≡ null_count (stuffing_of stuffing.now) packets }
{
    if stuffing.null == 0 {
        return 0;
    }
    if packets % u64::from(stuffing.every) == 0 {
        u64::from(stuffing.null)
    } else {
        0
    }
}

/// Marks the first packets of a window as live ones, without labels.
fn mark_live(marks: &mut [Mark], count: usize)
    requires { count ≤ length marks.old }
    ensures long { length marks.new ≡ length marks.old }
    ensures live { (packets : List (List ℕ)) → length packets ≡ length marks.old
        → take count (cells_of packets marks.new) ≡ live_cells (take count packets) }
{
    for slot in 0..count {
        marks[slot] = Mark::live();
    }
}

impl<S: Source> InputStage<S> {
    ghost use Rattle.std.specs.Prelude.{◌≡◌, ◌≢◌, ℕ, ◌+◌, ◌%◌, ◌==◌, ◌<◌, ◌≤◌, ◌↔◌, [], length, take, if◌then◌else◌, Option, None, Some, IfSome, IfNone, true, ◌^◌, ◌⊎◌};
    ghost use Rattle.chain_model.specs.Apply.{StageList};
    ghost use Rattle.chain_core.specs.declared.stage_end.StageEnd.{StageEnd};
    ghost use Rattle.ts_outside.specs.Source.{SourceView};
    ghost use Rattle.ts_outside.specs.Sink.{SinkView};
    ghost use Rattle.cell_rows.specs.Cells.{cell_of, cells_of};
    ghost use Rattle.cell_land.specs.Cells.{SameSlots};
    ghost use Rattle.stage_run.specs.PartLists.{PartLists, fresh_lists};
    ghost use Rattle.stage_run.specs.Feeds.{IsReady, packets_put};
    ghost use Rattle.stage_run.specs.InputStands.{IsOpen, InputHolds, InputStands, MayGive, stuffing_of};
    ghost use Rattle.stage_run.specs.InputSteps.{InputFits, InputGoes, IsOver, cell_put, WantsRead, IsFilled, EndsAtLimit};
    ghost use Rattle.stage_run.specs.Parts.{IsListOf, IsSourceOf, IsUnused, LeavesInput, SomeList};
    ghost use Rattle.stage_run.specs.PartStands.{MayWork, MayWorkOnSome, source_kind, feed_kind, a_stream};
    ghost use Rattle.stage_run.specs.SourceNow.{WasRead, WasReadOf};
    ghost use Rattle.stage_run.specs.Works.{InputWork};

    /// An input that has neither read nor given anything.
    pub(crate) fn of(part: InputPart<S>, stuffing: Stuffing, room: IoBuffer) -> Self
        requires every { 1 ≤ stuffing.every }
        requires unused { IsUnused part }
        ensures stuffing { result.stuffing ≡ stuffing }
        ensures stream { feed_kind result.feed ≡ source_kind part }
        ensures stands { (source : SourceView) (sink : SinkView) (mark : ℕ) → IsSourceOf S.seen part source
            → InputStands S.seen result (fresh_lists source sink mark) None }
        ensures gives { (source : SourceView) (sink : SinkView) (mark : ℕ) (input : StageList)
            → MayGive S.seen result (fresh_lists source sink mark) input ↔ IsListOf S.seen part
            (stuffing_of stuffing) input }
    {
        let feed = PacketFeed::of(part, room);
        InputStage {
            feed,
            stuffing,
            nulls: stuffing.start,
            ended: None,
        }
    }

    /// Returns the input.
    pub(crate) fn into_part(self) -> InputPart<S>
        ensures stream { source_kind result ≡ feed_kind self.feed }
        ensures leaves { (lists : PartLists) (told : Option StageEnd) → InputStands S.seen self lists told
            → LeavesInput S.seen result (stuffing_of self.stuffing) lists told }
        ensures read { (lists : PartLists) (told : Option StageEnd) → InputStands S.seen self lists told
            → WasReadOf S.seen result (stuffing_of self.stuffing) lists }
        ensures some_list { (lists : PartLists) (told : Option StageEnd) → InputStands S.seen self lists told
            → SomeList (MayGive S.seen self lists) }
    {
        let InputStage {
            feed,
            stuffing: _,
            nulls: _,
            ended: _,
        } = self;
        feed.into_part()
    }

    /// The source that it reads, as it stands now.
    pub(crate) fn source(&self) -> Option<&S>
        ensures read { IfSome result (λ source. (lists : PartLists) (told : Option StageEnd) → InputStands S.seen self.now lists told
            → WasRead (stuffing_of self.now.stuffing) lists.source (S.seen source.now) lists) }
        ensures some { IfSome result (λ _. feed_kind self.now.feed ≡ a_stream) }
        ensures none { IfNone result (feed_kind self.now.feed ≢ a_stream) }
    {
        self.feed.source()
    }

    /// Ensures that the next cell can be put: a null packet is due, a packet is ready, or the end is known.
    fn ensure_packet(&mut self, wanted: usize)
        requires some { 1 ≤ wanted }
        requires fits { InputFits self.old }
        ensures fits { InputFits self.new }
        ensures goes { (lists : PartLists) → InputHolds S.seen self.old lists
            → InputGoes S.seen self.old self.new lists wanted [] }
        ensures ready { self.new.nulls ≡ 0 → self.new.ended ≡ None → IsReady self.new.feed }
        ensures packets { packets_put self.new.feed ≡ packets_put self.old.feed }
        ensures stays_open { 0 < self.new.nulls → IsOpen self.old.ended → IsOpen self.new.ended }
        ensures same_stuffing { self.new.stuffing ≡ self.old.stuffing }
    {
        if self.nulls > 0 {
            return;
        }
        if self.ended.is_some() {
            return;
        }
        self.ended = self.feed.ensure_packet(wanted);
        self.nulls = stop_count(self.ended, self.stuffing.stop);
    }

    /// Puts the next cell of the list, or returns how the list ends. `wanted` cells are asked for, with this one.
    fn next_cell(&mut self, packet: &mut Packet, mark: &mut Mark, wanted: usize) -> Option<InputEnd>
        requires some { 1 ≤ wanted }
        requires fits { InputFits self.old }
        requires in_range { packets_put self.old.feed < POSITION_LIMIT }
        ensures fits { InputFits self.new }
        ensures goes { (lists : PartLists) → InputHolds S.seen self.old lists
            → InputGoes S.seen self.old self.new lists wanted (cell_put result (cell_of packet.new mark.new)) }
        ensures over { IfSome result (λ how. IsOver self.new how) }
        ensures packets { packets_put self.new.feed ≤ packets_put self.old.feed + 1 }
        ensures stays_open { result ≡ None → IsOpen self.old.ended → IsOpen self.new.ended }
        ensures same_stuffing { self.new.stuffing ≡ self.old.stuffing }
    {
        self.ensure_packet(wanted);
        if self.nulls > 0 {
            self.nulls -= 1;
            *packet = Packet::null();
            *mark = Mark::live();
            return None;
        }
        if self.ended.is_some() {
            return self.ended;
        }
        self.feed.next_packet(packet, mark);
        self.nulls = null_count(self.feed.packets(), &self.stuffing);
        None
    }

    /// Whether the cells that were put, so many, are handed on before the next one, since that one needs a read.
    fn hands_on(&self, done: usize) -> bool
        requires fits { InputFits self.now }
        ensures { result ≡ true → (0 < done) × WantsRead self.now }
    {
        if done == 0 || self.nulls > 0 {
            return false;
        }
        if self.ended.is_some() {
            return false;
        }
        self.feed.wants_read()
    }

    /// Puts the next cells of the list, after `before` others of the same window, until the slots are full, the list ends, or
    /// some cells were put and the next one needs a read.
    fn fill(&mut self, before: usize, packets: &mut [Packet], marks: &mut [Mark]) -> Filled
        requires long { length marks.old ≡ length packets.old }
        requires few { before + length packets.old < 2 ^ 64 }
        requires fits { InputFits self.old }
        requires in_range { packets_put self.old.feed + length packets.old ≤ POSITION_LIMIT }
        ensures done { result.done ≤ length packets.old }
        ensures goes { (lists : PartLists) → InputHolds S.seen self.old lists
            → InputGoes S.seen self.old self.new lists (length packets.old) (take result.done (cells_of packets.new marks.new)) }
        ensures filled { IsFilled self.new (before + length packets.old) (before + result.done) result.over }
        ensures stays_open { result.over ≡ None → IsOpen self.old.ended → IsOpen self.new.ended }
        ensures same_stuffing { self.new.stuffing ≡ self.old.stuffing }
    {
        let len = packets.len();
        let mut done = 0;
        while done < len {
            if self.hands_on(before + done) {
                return Filled { done, over: None };
            }
            let over = self.next_cell(&mut packets[done], &mut marks[done], len - done);
            if over.is_some() {
                return Filled { done, over };
            }
            done += 1;
            done += self.put_in_hand(&mut packets[done..], &mut marks[done..]);
        }
        Filled {
            done: len,
            over: None,
        }
    }

    /// The same, with the cells of a window.
    fn fill_rows(&mut self, before: usize, window: CellWindow) -> (Filled, CellWindow)
        requires few { before + length window.cells < 2 ^ 64 }
        requires fits { InputFits self.old }
        requires in_range { packets_put self.old.feed + length window.cells ≤ POSITION_LIMIT }
        ensures slots { SameSlots window result.1 }
        ensures done { result.0.done ≤ length window.cells }
        ensures goes { (lists : PartLists) → InputHolds S.seen self.old lists
            → InputGoes S.seen self.old self.new lists (length window.cells) (take result.0.done result.1.cells) }
        ensures filled { IsFilled self.new (before + length window.cells) (before + result.0.done) result.0.over }
        ensures stays_open { result.0.over ≡ None → IsOpen self.old.ended → IsOpen self.new.ended }
        ensures same_stuffing { self.new.stuffing ≡ self.old.stuffing }
    {
        let (mut packets, mut marks) = window.apart();
        let filled = self.fill(before, packets.as_mut_slice(), marks.as_mut_slice());
        (filled, CellWindow::of(packets, marks))
    }

    /// How the list is over: the end of the packets is known, and no null packets are due after it.
    fn over(&self) -> Option<InputEnd>
        ensures over { IfSome result (λ how. IsOver self.now how) }
        ensures goes_on { result ≡ None → (0 < self.now.nulls) ⊎ (self.now.ended ≡ None) }
    {
        if self.nulls > 0 {
            return None;
        }
        self.ended
    }

    /// Reads straight into a window, where packets are read next and no null packets stand between them, and returns how many
    /// packets were put.
    fn read_into(&mut self, window: CellWindow) -> (usize, CellWindow)
        requires fits { InputFits self.old }
        requires in_range { packets_put self.old.feed + length window.cells ≤ POSITION_LIMIT }
        ensures slots { SameSlots window result.1 }
        ensures within { result.0 ≤ length window.cells }
        ensures fits { InputFits self.new }
        ensures goes { (lists : PartLists) → InputHolds S.seen self.old lists
            → InputGoes S.seen self.old self.new lists (length window.cells) (take result.0 result.1.cells) }
        ensures packets { packets_put self.new.feed ≡ packets_put self.old.feed + result.0 }
        ensures stays_open { 0 < self.new.nulls → IsOpen self.old.ended → IsOpen self.new.ended }
        ensures same_stuffing { self.new.stuffing ≡ self.old.stuffing }
    {
        if self.stuffing.null >= 1 {
            return (0, window);
        }
        if self.nulls > 0 {
            return (0, window);
        }
        if self.ended.is_some() {
            return (0, window);
        }
        let (packets, mut marks) = window.apart();
        let PacketsRead {
            window: packets,
            count,
            ended,
        } = self.feed.fill_window(packets);
        self.ended = ended;
        self.nulls = stop_count(ended, self.stuffing.stop);
        mark_live(marks.as_mut_slice(), count);
        (count, CellWindow::of(packets, marks))
    }

    /// Puts the next cells of the list into a window, until it is full, the list ends, or some cells were put and the next one
    /// needs a read. What comes from a source is read straight into it where it can be.
    fn fill_window(&mut self, window: CellWindow) -> (Filled, CellWindow)
        requires fits { InputFits self.old }
        requires in_range { packets_put self.old.feed + length window.cells ≤ POSITION_LIMIT }
        ensures slots { SameSlots window result.1 }
        ensures done { result.0.done ≤ length window.cells }
        ensures goes { (lists : PartLists) → InputHolds S.seen self.old lists
            → InputGoes S.seen self.old self.new lists (length window.cells) (take result.0.done result.1.cells) }
        ensures filled { IsFilled self.new (length window.cells) result.0.done result.0.over }
        ensures stays_open { result.0.over ≡ None → IsOpen self.old.ended → IsOpen self.new.ended }
        ensures same_stuffing { self.new.stuffing ≡ self.old.stuffing }
    {
        let (read, window) = self.read_into(window);
        let over = self.over();
        if over.is_some() {
            return (Filled { done: read, over }, window);
        }
        let (front, back) = window.split(read);
        let (filled, back) = self.fill_rows(read, back);
        (
            Filled {
                done: read + filled.done,
                over: filled.over,
            },
            front.join(back),
        )
    }

    /// Puts the packets that are in hand, where no null packets stand between them, and returns how many.
    fn put_in_hand(&mut self, packets: &mut [Packet], marks: &mut [Mark]) -> usize
        requires long { length marks.old ≡ length packets.old }
        requires fits { InputFits self.old }
        requires in_range { packets_put self.old.feed + length packets.old ≤ POSITION_LIMIT }
        ensures fits { InputFits self.new }
        ensures done { result ≤ length packets.old }
        ensures goes { (lists : PartLists) (wanted : ℕ) → InputHolds S.seen self.old lists
            → InputGoes S.seen self.old self.new lists wanted (take result (cells_of packets.new marks.new)) }
        ensures packets { packets_put self.new.feed ≡ packets_put self.old.feed + result }
        ensures same_end { self.new.ended ≡ self.old.ended }
        ensures same_stuffing { self.new.stuffing ≡ self.old.stuffing }
    {
        if self.stuffing.null > 0 {
            return 0;
        }
        if self.nulls > 0 {
            return 0;
        }
        if self.ended.is_some() {
            return 0;
        }
        self.feed.put_in_hand(packets, marks)
    }

    /// How the list ends at the last position: one more cell would be at the limit of positions.
    fn end_at_limit(&mut self) -> InputEnd
        requires { InputFits self.old }
        ensures goes { (lists : PartLists) → InputHolds S.seen self.old lists
            → InputGoes S.seen self.old self.new lists 1 [] }
        ensures ends { EndsAtLimit self.new result }
        ensures stays_open { 0 < self.new.nulls → IsOpen self.old.ended → IsOpen self.new.ended }
        ensures same_stuffing { self.new.stuffing ≡ self.old.stuffing }
    {
        self.ensure_packet(1);
        match self.ended {
            Some(how) if self.nulls == 0 => how,
            _ => InputEnd::TooLong,
        }
    }

    /// Reads and puts packets into its cells, unless the news let the input follow already: for all of them, or until the list ends
    /// or a second read would be needed.
    pub(crate) fn work(&mut self, at: u64, window: CellWindow, news: &News) -> (Work, CellWindow)
        requires stands { MayWorkOnSome (InputStands S.seen self.old) at news.now.written }
        requires in_range { at + length window.cells ≤ POSITION_LIMIT }
        ensures same_stuffing { self.new.stuffing ≡ self.old.stuffing }
        ensures work { InputWork S.seen self.old self.new at news.now window.cells result.1.cells result.0 }
        ensures slots { SameSlots window result.1 }
    {
        if may_follow(news, at) {
            return (Work::ending(0, Some(StageEnd::Followed)), window);
        }
        if at == POSITION_LIMIT {
            return (
                Work::ending(0, Some(StageEnd::Input(self.end_at_limit()))),
                window,
            );
        }
        let (filled, window) = self.fill_window(window);
        match filled.over {
            Some(how) => (
                Work::ending(filled.done, Some(StageEnd::Input(how))),
                window,
            ),
            None => (
                Work::ending(filled.done, followed(news, at + filled.done as u64)),
                window,
            ),
        }
    }

    /// The work where no cell is in its hands: nothing is read but, at the last position, for the end.
    pub(crate) fn work_on_none(&mut self, at: u64, news: &News) -> Work
        requires stands { MayWorkOnSome (InputStands S.seen self.old) at news.now.written }
        requires in_range { at ≤ POSITION_LIMIT }
        ensures same_stuffing { self.new.stuffing ≡ self.old.stuffing }
        ensures work { InputWork S.seen self.old self.new at news.now [] [] result }
    {
        if may_follow(news, at) {
            return Work::ending(0, Some(StageEnd::Followed));
        }
        if at == POSITION_LIMIT {
            return Work::ending(0, Some(StageEnd::Input(self.end_at_limit())));
        }
        Work::ending(0, followed(news, at))
    }
}
