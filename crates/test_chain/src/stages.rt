//! Tests of the stages of a chain, each by itself.
ghost use Rattle.std.specs.Prelude.{◌≡◌, ◌+◌, ◌<◌, ◌≤◌, [], None, IfOk, length, false};
ghost use Rattle.plugin_trait.specs.HeardStands.{HeardStands};
ghost use Rattle.stage_run.specs.Seeing.{seeing};
ghost use Rattle.stage_run.specs.PartStands.{PartStands, MayWorkOnSome, kind_of, an_input, a_plugin, an_output};
ghost use Rattle.stage_run.specs.Parts.{IsUnused};

use crate::compared::same;
use crate::stops_at::{StopsAt, stopping};
use cell_land::{CellWindow, cell_land};
use cell_rows::Mark;
use chain_core::{InputEnd, News, StageEnd};
use plugin_trait::{Heard, Plugin};
use stage_run::{InputPart, IoBuffer, OutputPart, StagePart, Stuffing, Work};
use std::alloc::{AllocError, Global};
use std::process::Abort;
use std::test::Fail;
use ts_outside::{
    Desk, FailPlan, FileBytes, FileList, MemoryDesk, MemorySink, MemorySource, NameText,
    NumberList, OpenGate, Sink, Source,
};
use ts_packet::{Cell, Labels, Packet};
use ts_testgen::TestGen;

/// A packet on PID 256.
fn packet() -> Packet {
    let mut packet = Packet::null();
    packet.set_pid(256);
    packet
}

/// A file `in` with `packets` packets on PID 256.
fn files(alloc: Global, packets: usize) -> Result<FileList, AllocError> {
    let mut bytes = Vec::new(alloc);
    for _ in 0..packets {
        bytes.extend_from_slice(packet().bytes())?;
    }
    let name = NameText::of(String::from_str(alloc, "in")?);
    let mut files = Vec::new(alloc);
    files.push((name, FileBytes::of(bytes)))?;
    Ok(FileList::of(files))
}

/// A plan by which a read gives at most `piece` bytes and a write takes at most 300, and in which the read and the write
/// with these numbers fail.
fn plan(alloc: Global, piece: usize, read: u64, write: u64) -> Result<FailPlan, AllocError>
    ensures { IfOk result (λ p. (p.read_piece ≡ piece) × (p.write_piece ≡ 300)) }
{
    let reads = NumberList::of(vec![in alloc; read]?);
    let writes = NumberList::of(vec![in alloc; write]?);
    let mut plan = FailPlan::none(alloc, piece, 300, 1000);
    plan.reads = reads;
    plan.writes = writes;
    Ok(plan)
}

/// A desk with a file `in` of `packets` packets. Calls are numbered from 1, so none fails with 0.
fn desk(
    alloc: Global,
    packets: usize,
    piece: usize,
    read: u64,
    write: u64,
) -> Result<Box<MemoryDesk>, AllocError>
    requires { 0 < piece }
{
    let files = files(alloc, packets)?;
    let plan = plan(alloc, piece, read, write)?;
    Ok(Box::new(alloc, MemoryDesk::new(alloc, files, plan)?)?)
}

/// News of ten cells, of which none is written.
fn news(limit: Option<u64>) -> News
    ensures { result
        ≡ record { taken = 10; limit = limit; written = 0; before_over = false; after_over = false } }
{
    News {
        taken: 10,
        limit,
        written: 0,
        before_over: false,
        after_over: false,
    }
}

/// A new input, which may work.
fn input<S: Source, K: Sink, P: Plugin>(
    part: InputPart<S>,
    start: u64,
    room: IoBuffer,
) -> StagePart<S, K, P>
    requires unused { IsUnused part }
    ensures may { MayWorkOnSome (PartStands (seeing S.seen K.seen P.rule P.stands_for P.preallocated) result) 0 0 }
    ensures kind { kind_of result ≡ an_input }
{
    let stuffing = Stuffing {
        start,
        stop: 0,
        null: 0,
        every: 1,
    };
    StagePart::of_input(part, stuffing, room)
}

/// A new output, which may work.
fn output<S: Source, K: Sink, P: Plugin>(part: OutputPart<K>, room: IoBuffer) -> StagePart<S, K, P>
    ensures may { MayWorkOnSome (PartStands (seeing S.seen K.seen P.rule P.stands_for P.preallocated) result) 0 0 }
    ensures kind { kind_of result ≡ an_output }
{
    StagePart::of_output(part, room)
}

/// A new plugin's stage, which may work.
fn plugin<S: Source, K: Sink, P: Plugin>(plugin: Heard<P>) -> StagePart<S, K, P>
    requires fresh { HeardStands P.rule P.stands_for plugin [] 0 }
    ensures may { MayWorkOnSome (PartStands (seeing S.seen K.seen P.rule P.stands_for P.preallocated) result) 0 0 }
    ensures kind { kind_of result ≡ a_plugin }
{
    StagePart::of_plugin(plugin)
}

/// Puts cells into the slots of two rows.
fn put_cells(cells: &[Cell], packets: &mut [Packet], marks: &mut [Mark])
    requires packets { length packets.old ≡ length cells.now }
    requires marks { length marks.old ≡ length cells.now }
{
    for i in 0..cells.len() {
        if let Some(live) = cells[i].live() {
            packets[i] = live.packet;
            marks[i] = Mark {
                labels: live.labels,
                is_live: true,
            };
        }
    }
}

/// Takes the cells out of two rows.
fn take_cells(packets: &[Packet], marks: &[Mark], cells: &mut [Cell])
    requires packets { length packets.now ≡ length cells.old }
    requires marks { length marks.now ≡ length cells.old }
{
    for i in 0..cells.len() {
        cells[i] = if marks[i].is_live {
            Cell::of(packets[i], marks[i].labels)
        } else {
            Cell::dropped()
        };
    }
}

/// The cells in a block of their own.
fn window_of(rt: &(impl Abort + AllocGlobal), cells: &[Cell]) -> CellWindow
    requires some { 0 < length cells.now }
    ensures whole { length result.cells ≡ result.land.count }
    ensures long { length result.cells ≡ length cells.now }
{
    let window = cell_land(rt.alloc(), cells.len()).expect(rt, "memory");
    let (mut packets, mut marks) = window.apart();
    put_cells(cells, packets.as_mut_slice(), marks.as_mut_slice());
    CellWindow::of(packets, marks)
}

/// Puts the cells of such a block back, and frees it.
fn end_window(window: CellWindow, cells: &mut [Cell])
    requires whole { length window.cells ≡ window.land.count }
    requires long { length window.cells ≡ length cells.old }
{
    let (packets, marks) = window.apart();
    take_cells(packets.as_slice(), marks.as_slice(), cells);
    CellWindow::of(packets, marks).close();
}

/// The work of a stage on cells after `at` others. It may work on the next ones too, unless it has ended.
fn work<S: Source, K: Sink, P: Plugin>(
    rt: &(impl Abort + AllocGlobal),
    part: &mut StagePart<S, K, P>,
    at: u64,
    cells: &mut [Cell],
    limit: Option<u64>,
) -> Work
    requires some { 0 < length cells.old }
    requires may { MayWorkOnSome (PartStands (seeing S.seen K.seen P.rule P.stands_for P.preallocated) part.old) at
        0 }
    requires few { at + length cells.old ≤ 10 }
    ensures done { result.done ≤ length cells.old }
    ensures again { result.word.ended ≡ None
        → MayWorkOnSome (PartStands (seeing S.seen K.seen P.rule P.stands_for P.preallocated) part.new)
        (at + result.done) 0 }
    ensures kind { kind_of part.new ≡ kind_of part.old }
{
    let window = window_of(rt, cells);
    let (work, window) = part.work(1, at, window, &news(limit), &OpenGate);
    end_window(window, cells);
    work
}

/// Closes the source of an input. Returns how many packets an input without a source has.
fn close_input(desk: &mut MemoryDesk, part: InputPart<MemorySource>) -> Option<u64> {
    match part {
        InputPart::Stream(source) => {
            desk.close_in(source);
            None
        }
        InputPart::Nulls(count) => Some(count),
        InputPart::Generated {
            generator: _,
            packets,
        } => Some(packets),
    }
}

/// Closes the sink of an output. Returns whether there was one.
fn close_output(desk: &mut MemoryDesk, part: OutputPart<MemorySink>) -> bool {
    match part {
        OutputPart::Stream(sink) => {
            let _ = desk.close_out(sink);
            true
        }
        OutputPart::Discard => false,
    }
}

/// Three windows of two cells each.
#[derive(Drop)]
struct Windows {
    first: [Cell; 2],
    second: [Cell; 2],
    third: [Cell; 2],
}

/// What an input did with three windows; nothing with those after the one in which it ended.
#[derive(Drop)]
struct Gave {
    first: Work,
    second: Option<Work>,
    third: Option<Work>,
    windows: Windows,
}

/// Works on three windows, each after the cells that were put before it.
fn gives<S: Source, K: Sink, P: Plugin>(
    rt: &(impl Abort + AllocGlobal),
    part: &mut StagePart<S, K, P>,
) -> Gave
    requires may { MayWorkOnSome (PartStands (seeing S.seen K.seen P.rule P.stands_for P.preallocated) part.old) 0 0 }
    ensures kind { kind_of part.new ≡ kind_of part.old }
{
    let mut windows = Windows {
        first: two(),
        second: two(),
        third: two(),
    };
    let first = work(rt, part, 0, &mut windows.first, None);
    let mut gave = Gave {
        first,
        second: None,
        third: None,
        windows,
    };
    if first.word.ended.is_some() {
        return gave;
    }
    let at = first.done as u64;
    let second = work(rt, part, at, &mut gave.windows.second, None);
    gave.second = Some(second);
    if second.word.ended.is_none() {
        let at = at + second.done as u64;
        gave.third = Some(work(rt, part, at, &mut gave.windows.third, None));
    }
    gave
}

/// Where the packets of an input come from.
#[derive(Clone, Copy)]
enum Feed {
    /// A file of so many packets. A read gives at most `piece` bytes, and at least one; the read of this number fails.
    File {
        packets: usize,
        piece: usize,
        read: u64,
    },
    /// So many null packets.
    Nulls(u64),
    /// The first packets of the generated stream of seed 1.
    Generated(u64),
}

/// The PIDs of the packets of two cells; `None` for a dropped cell. A `static` holds no array of these.
type Pids = (Option<u16>, Option<u16>);

/// An input after `start` packets of start stuffing; what it does with three windows, the PIDs of the packets in
/// these, and how many packets it has afterwards if it has no source.
#[derive(Drop)]
struct InputRow {
    feed: Feed,
    start: u64,
    did: (Option<Did>, Option<Did>, Option<Did>),
    pids: (Pids, Pids, Pids),
    left: Option<u64>,
}

/// A desk with the file of an input, if it reads one.
fn desk_of(alloc: Global, feed: Feed) -> Result<Box<MemoryDesk>, AllocError> {
    match feed {
        Feed::File {
            packets,
            piece,
            read,
        } => desk(alloc, packets, piece.max(1), read, 0),
        _ => desk(alloc, 0, 1000, 0, 0),
    }
}

/// The buffer of an input.
fn room_of(alloc: Global, feed: Feed) -> Result<IoBuffer, AllocError> {
    match feed {
        Feed::File { .. } => IoBuffer::new(alloc, 2),
        _ => IoBuffer::new(alloc, 1),
    }
}

/// An input, whose source reads the desk's file `in`.
fn part_of(
    alloc: Global,
    desk: &mut MemoryDesk,
    feed: Feed,
) -> Result<InputPart<MemorySource>, Fail>
    ensures { IfOk result (λ part. IsUnused part) }
{
    match feed {
        Feed::File { .. } => match desk.open_in(Some("in")) {
            Ok(source) => Ok(InputPart::Stream(source)),
            Err(_) => Err("no source".into()),
        },
        Feed::Nulls(count) => Ok(InputPart::Nulls(count)),
        Feed::Generated(packets) => {
            let generator = TestGen::new(alloc, 1)?;
            Ok(InputPart::Generated { generator, packets })
        }
    }
}

/// Works on three windows with an input, and returns the input.
fn gives_and_ends<S: Source, K: Sink, P: Plugin>(
    rt: &(impl Abort + AllocGlobal),
    part: InputPart<S>,
    room: IoBuffer,
    row: &InputRow,
) -> InputPart<S>
    requires { IsUnused part }
{
    let mut part: StagePart<S, K, P> = input(part, row.start, room);
    gave_so(rt, &gives(rt, &mut part), row);
    part.into_input()
}

/// Works on three windows with an input, and closes its source.
fn runs_input(
    rt: &(impl Abort + AllocGlobal),
    desk: &mut MemoryDesk,
    room: IoBuffer,
    row: &InputRow,
) -> Result<(), Fail> {
    let part = part_of(rt.alloc(), desk, row.feed)?;
    let part = gives_and_ends::<MemorySource, MemorySink, StopsAt>(rt, part, room, row);
    same(rt, close_input(desk, part), row.left);
    Ok(())
}

/// Makes an input and its desk, and works with it.
fn is_input(rt: &(impl Abort + AllocGlobal), row: &InputRow) -> Result<(), Fail> {
    let room = room_of(rt.alloc(), row.feed)?;
    let mut desk = desk_of(rt.alloc(), row.feed)?;
    runs_input(rt, &mut *desk, room, row)
}

/// Two dropped cells.
fn two() -> [Cell; 2] {
    [Cell::dropped(), Cell::dropped()]
}

/// The PID of a cell's packet; `None` for a dropped cell.
fn pid(cell: &Cell) -> Option<u16> {
    cell.live().map(|live| live.packet.pid())
}

/// How many cells were done in a window, and how the stage ended in it.
type Did = (usize, Option<StageEnd>);

/// The PIDs of a window's packets.
fn pids(window: &[Cell; 2]) -> Pids {
    (pid(&window[0]), pid(&window[1]))
}

/// Checks what was done with three windows; those after an end were not worked on.
fn gave_so(rt: &impl Abort, gave: &Gave, row: &InputRow) {
    let did = (
        Some(done_by(gave.first)),
        gave.second.map(done_by),
        gave.third.map(done_by),
    );
    same(rt, did, row.did);
    let windows = &gave.windows;
    let pids = (
        pids(&windows.first),
        pids(&windows.second),
        pids(&windows.third),
    );
    same(rt, pids, row.pids);
}

/// How many cells were done, and how the stage ended.
fn done_by(work: Work) -> Did {
    (work.done, work.word.ended)
}

/// The end of an input of whole packets.
const PLAIN_END: StageEnd = StageEnd::Input(InputEnd::End { left: 0 });

// Macros, since a `static` calls no function.
macro_rules! file {
    ($packets:literal, $piece:literal, $read:literal) => {
        Feed::File {
            packets: $packets,
            piece: $piece,
            read: $read,
        }
    };
}

macro_rules! input_rows {
    ($($feed:expr, $start:literal, $did:expr, $pids:expr, $left:expr;)*) => {
        [$(InputRow { feed: $feed, start: $start, did: $did, pids: $pids, left: $left }),*]
    };
}

/// A file is read in full windows. What one read gave is handed on. A packet is complete after two reads. One read gives
/// a packet and a half, and the next the rest and one more. Stuffing comes first. A read fails after the first window.
/// Null packets and generated ones end.
static INPUTS: [InputRow; 8] = input_rows![
    file!(4, 1000, 0), 0,
    (Some((2, None)), Some((2, None)), Some((0, Some(PLAIN_END)))),
    ((Some(256), Some(256)), (Some(256), Some(256)), (None, None)), None;
    file!(4, 188, 0), 0,
    (Some((1, None)), Some((1, None)), Some((1, None))),
    ((Some(256), None), (Some(256), None), (Some(256), None)), None;
    file!(2, 94, 0), 0,
    (Some((1, None)), Some((1, None)), Some((0, Some(PLAIN_END)))),
    ((Some(256), None), (Some(256), None), (None, None)), None;
    file!(3, 282, 0), 0,
    (Some((1, None)), Some((2, None)), Some((0, Some(PLAIN_END)))),
    ((Some(256), None), (Some(256), Some(256)), (None, None)), None;
    file!(2, 1000, 0), 1,
    (Some((1, None)), Some((2, None)), Some((0, Some(PLAIN_END)))),
    ((Some(8191), None), (Some(256), Some(256)), (None, None)), None;
    file!(3, 1000, 2), 0,
    (Some((2, None)), Some((0, Some(StageEnd::Input(InputEnd::ReadFault)))), None),
    ((Some(256), Some(256)), (None, None), (None, None)), None;
    Feed::Nulls(1), 0,
    (Some((1, Some(PLAIN_END))), None, None),
    ((Some(8191), None), (None, None), (None, None)), Some(1);
    Feed::Generated(3), 0,
    (Some((2, None)), Some((1, Some(PLAIN_END))), None),
    ((Some(0), Some(4096)), (Some(4097), None), (None, None)), Some(3);
];

fn inputs() -> &'static [InputRow] {
    &INPUTS
}

#[test]
fn inputs_give_as_their_rows_say(rt: HostRuntime) -> Result<(), Fail> {
    for row in inputs() {
        is_input(&rt, row)?;
    }
    Ok(())
}

/// Works on four cells with a plugin, and returns the plugin.
fn edits<S: Source, K: Sink, P: Plugin>(
    rt: &(impl Abort + AllocGlobal),
    stage: Heard<P>,
    cells: &mut [Cell; 4],
) -> (Heard<P>, Work)
    requires fresh { HeardStands P.rule P.stands_for stage [] 0 }
{
    let mut part: StagePart<S, K, P> = plugin(stage);
    let work = work(rt, &mut part, 0, cells, None);
    (part.into_plugin(), work)
}

/// Four cells, of which the second is a dropped one.
fn four() -> [Cell; 4] {
    [
        Cell::of(packet(), Labels::none()),
        Cell::dropped(),
        Cell::of(packet(), Labels::none()),
        Cell::of(packet(), Labels::none()),
    ]
}

/// Works on four cells with a plugin that stops at a position. Returns the position that it then has, and what was done.
fn stops(rt: &(impl Abort + AllocGlobal), position: u64, cells: &mut [Cell; 4]) -> (u64, Did) {
    let (stops, work) = edits::<MemorySource, MemorySink, StopsAt>(
        rt,
        stopping(rt.alloc(), position),
        cells,
    );
    (stops.plugin.steps.position, done_by(work))
}

#[test]
fn a_plugin_passes_and_stops(rt: HostRuntime) {
    let mut cells = four();
    let passed = stops(&rt, 4, &mut cells);
    same(&rt, passed, (4, (4, None)));
    let stopped = stops(&rt, 1, &mut cells);
    same(&rt, stopped, (1, (2, Some(StageEnd::Stop))));
}

/// An output; what it does with four cells, of which it may write those below a limit, and how many bytes its sink takes.
/// A write with this number fails.
#[derive(Drop)]
struct OutputRow {
    to_sink: bool,
    limit: Option<u64>,
    write: u64,
    did: Did,
    bytes: Option<usize>,
}

/// Works on four cells with an output, and returns the output.
fn writes<S: Source, K: Sink, P: Plugin>(
    rt: &(impl Abort + AllocGlobal),
    part: OutputPart<K>,
    room: IoBuffer,
    row: &OutputRow,
) -> OutputPart<K> {
    let mut part: StagePart<S, K, P> = output(part, room);
    let mut cells = four();
    let work = work(rt, &mut part, 0, &mut cells, row.limit);
    same(rt, done_by(work), row.did);
    part.into_output()
}

/// An output that drops packets, or one whose sink the desk opens.
fn output_of(desk: &mut MemoryDesk, to_sink: bool) -> Result<OutputPart<MemorySink>, Fail> {
    if !to_sink {
        return Ok(OutputPart::Discard);
    }
    match desk.open_out(None) {
        Ok(sink) => Ok(OutputPart::Stream(sink)),
        Err(_) => Err("no sink".into()),
    }
}

/// The buffer of an output.
fn output_room(alloc: Global, to_sink: bool) -> Result<IoBuffer, AllocError> {
    if to_sink {
        IoBuffer::new(alloc, 4)
    } else {
        IoBuffer::new(alloc, 1)
    }
}

/// How many bytes the first output of a desk has.
fn output_len(desk: &MemoryDesk) -> Option<usize> {
    desk.output(0).map(|(_, bytes)| bytes.len())
}

/// Writes four cells, and closes the sink.
fn runs_output(
    rt: &(impl Abort + AllocGlobal),
    desk: &mut MemoryDesk,
    room: IoBuffer,
    row: &OutputRow,
) -> Result<(), Fail> {
    let part = output_of(desk, row.to_sink)?;
    let part = writes::<MemorySource, MemorySink, StopsAt>(rt, part, room, row);
    same(rt, close_output(desk, part), row.to_sink);
    same(rt, output_len(desk), row.bytes);
    Ok(())
}

/// Makes an output and its desk, and works with it.
fn is_output(rt: &(impl Abort + AllocGlobal), row: &OutputRow) -> Result<(), Fail> {
    let room = output_room(rt.alloc(), row.to_sink)?;
    let mut desk = desk(rt.alloc(), 0, 1000, 0, row.write)?;
    runs_output(rt, &mut *desk, room, row)
}

macro_rules! output_rows {
    ($($to_sink:literal, $limit:expr, $write:literal, $did:expr, $bytes:expr;)*) => {
        [$(OutputRow { to_sink: $to_sink, limit: $limit, write: $write, did: $did, bytes: $bytes }),*]
    };
}

/// Live cells alone are written. The output ends at the limit. A write fails within a packet: the first write takes 300
/// bytes, a packet and part of the one after the dropped cell. An output that drops packets counts cells.
static OUTPUTS: [OutputRow; 4] = output_rows![
    true, None, 0, (4, None), Some(564);
    true, Some(2), 0, (2, Some(StageEnd::Followed)), Some(188);
    true, None, 2, (2, Some(StageEnd::WriteFault)), Some(300);
    false, None, 0, (4, None), None;
];

fn outputs() -> &'static [OutputRow] {
    &OUTPUTS
}

#[test]
fn outputs_write_as_their_rows_say(rt: HostRuntime) -> Result<(), Fail> {
    for row in outputs() {
        is_output(&rt, row)?;
    }
    Ok(())
}
