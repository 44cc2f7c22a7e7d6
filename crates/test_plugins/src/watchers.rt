//! Tests of `count` and `continuity`.
ghost use Rattle.std.specs.Prelude.{◌<◌, ◌≤◌, ◌^◌, [], IfOk, vec_len};

use crate::applied::apply;
use crate::cells::counter_of;
use crate::compared::{same, same_bytes};
use plug_watch::{Continuity, ContinuityConf, Count, CountConf};
use plugin_options::NumberSet;
use plugin_trait::{Heard, Line, ListEnd, Plugin, report};
use std::alloc::{AllocError, Global};
use std::process::Abort;
use std::test::Fail;
use ts_packet::{Cell, Labels, Packet};

/// A packet on a PID with a payload and a counter.
fn packet(pid: u16, counter: u8) -> Cell
    requires pid { pid < 8192 }
    requires counter { counter < 16 }
{
    let mut packet = Packet::null();
    packet.set_pid(pid);
    packet.set_counter(counter);
    Cell::of(packet, Labels::none())
}

/// How a plugin ends a list of cells, and its report on those of the cells that are before the cut.
fn run<P: Plugin + Drop>(
    alloc: Global,
    plugin: Result<P, AllocError>,
    cells: &mut Vec<Cell>,
    cut: u64,
) -> Result<(ListEnd, Vec<Line>), AllocError>
    requires fresh { IfOk plugin (λ p. P.stands_for p [] 0) }
    requires short { vec_len cells.old < 1000 }
{
    let mut plugin = plugin?;
    let end = apply(&mut plugin, cells);
    let mut heard = Heard {
        plugin,
        lines: Vec::new(alloc),
    };
    let reported = report(&mut heard, cut.min(cells.len() as u64));
    let Heard { plugin: _, lines } = heard;
    reported?;
    Ok((end, lines))
}

/// Checks the texts of lines.
fn are_lines(rt: &impl Abort, lines: &[Line], wanted: &[&str]) {
    same(rt, lines.len(), wanted.len());
    for (line, text) in lines.iter().zip(wanted) {
        same_bytes(rt, line.text.as_str().as_bytes(), text.as_bytes());
    }
}

/// A new `count` of no PIDs, or of all others.
fn counting(
    alloc: Global,
    negate: bool,
    all: bool,
    total: bool,
    buffer: usize,
) -> Result<Count, AllocError>
    ensures { IfOk result (λ plugin. ⟦<Count as Plugin>⟧.stands_for plugin [] 0) }
{
    let conf = CountConf {
        pid: NumberSet::of(Vec::new(alloc)),
        negate,
        all,
        total,
    };
    Count::new(alloc, &conf, buffer)
}

/// The report on four packets and a dropped cell, up to a cut.
fn counted(alloc: Global, all: bool, total: bool, cut: u64) -> Result<Vec<Line>, AllocError> {
    let mut cells = vec![in alloc;
        packet(256, 0),
        packet(257, 0),
        Cell::dropped(),
        packet(256, 1),
        packet(258, 0),
    ]?;
    let (_, lines) = run(alloc, counting(alloc, true, all, total, 4), &mut cells, cut)?;
    Ok(lines)
}

/// Checks that report.
fn is_counted(
    rt: &(impl Abort + AllocGlobal),
    all: bool,
    total: bool,
    cut: u64,
    wanted: &[&str],
) -> Result<(), Fail> {
    let lines = counted(rt.alloc(), all, total, cut)?;
    are_lines(rt, &lines, wanted);
    Ok(())
}

#[test]
fn count_counts_to_the_cut(rt: HostRuntime) -> Result<(), Fail> {
    let each = [
        "packet 0 pid 256",
        "packet 1 pid 257",
        "pid 256 packets 1",
        "pid 257 packets 1",
        "total 2",
    ];
    is_counted(&rt, true, false, 3, &each)?;
    let sums = ["pid 256 packets 2", "pid 257 packets 1", "total 3"];
    is_counted(&rt, false, false, 4, &sums)?;
    is_counted(&rt, false, true, 4, &["total 3"])
}

/// How counting three packets with room for `buffer` of them ends, how many cells are left, and the report.
fn counted_in(alloc: Global, buffer: usize) -> Result<(ListEnd, usize, Vec<Line>), AllocError> {
    let mut cells = vec![in alloc; packet(256, 0), packet(256, 1), packet(257, 0)]?;
    let count = counting(alloc, false, false, true, buffer);
    let (end, lines) = run(alloc, count, &mut cells, 3)?;
    Ok((end, cells.len(), lines))
}

/// Checks how that ends.
fn ends_so(
    rt: &(impl Abort + AllocGlobal),
    buffer: usize,
    wanted_end: ListEnd,
    wanted_cells: usize,
    text: &str,
) -> Result<(), Fail> {
    let (end, cells, lines) = counted_in(rt.alloc(), buffer)?;
    same(rt, (end, cells), (wanted_end, wanted_cells));
    are_lines(rt, &lines, &[text]);
    Ok(())
}

#[test]
fn count_ends_where_its_buffer_is_full(rt: HostRuntime) -> Result<(), Fail> {
    ends_so(&rt, 0, ListEnd::NoMemory, 0, "total 0")?;
    ends_so(&rt, 2, ListEnd::NoMemory, 2, "total 2")?;
    ends_so(&rt, 3, ListEnd::Through, 3, "total 3")
}

/// A new `continuity` that fixes all PIDs.
fn fixing(alloc: Global) -> Result<Continuity, AllocError>
    ensures { IfOk result (λ plugin. ⟦<Continuity as Plugin>⟧.stands_for plugin [] 0) }
{
    let conf = ContinuityConf {
        pid: NumberSet::of(Vec::new(alloc)),
        fix: true,
    };
    Continuity::new(alloc, &conf, 1)
}

/// The report on four packets of which the third jumps and the last stays, and the packets after the plugin.
fn fixed(alloc: Global) -> Result<(Vec<Cell>, Vec<Line>), AllocError> {
    let mut cells = vec![in alloc;
        packet(256, 5),
        packet(256, 6),
        packet(256, 8),
        packet(256, 8),
    ]?;
    let (_, lines) = run(alloc, fixing(alloc), &mut cells, 4)?;
    Ok((cells, lines))
}

/// Checks the counters of cells.
fn have_counters(rt: &impl Abort, cells: &[Cell], counters: &[u8]) {
    for (cell, counter) in cells.iter().zip(counters) {
        same(rt, counter_of(cell), Some(*counter));
    }
}

#[test]
fn continuity_reports_and_fixes(rt: HostRuntime) -> Result<(), Fail> {
    let (cells, lines) = fixed(rt.alloc())?;
    let wanted = ["packet 2 pid 256 counter 8 wanted 7", "faults 1"];
    are_lines(&rt, &lines, &wanted);
    have_counters(&rt, &cells, &[5, 6, 7, 7]);
    Ok(())
}
