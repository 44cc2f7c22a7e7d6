//! Tests of `until`: how it ends a list, and whether it agrees to joint termination.
ghost use Rattle.std.specs.Prelude.{[], ◌≤◌, ◌^◌, vec_len};
ghost use Rattle.plug_end.specs.UntilSettings.{IsValidUntil};

use crate::applied::apply;
use crate::compared::same;
use plug_end::{Until, UntilConf};
use plugin_trait::{ListEnd, Plugin};
use std::alloc::Global;
use std::process::Abort;
use std::test::Fail;
use ts_packet::{Cell, Labels, Packet};

const NONE: Option<u64> = None;

/// A null packet with or without payload_unit_start_indicator.
fn packet(unit_start: bool) -> Cell {
    let mut packet = Packet::null();
    packet.set_unit_start(unit_start);
    Cell::of(packet, Labels::none())
}

/// A dropped cell, and then nine packets of which every third has payload_unit_start_indicator.
fn ten_cells(alloc: Global) -> Result<Vec<Cell>, Fail> {
    let cells = vec![in alloc;
        Cell::dropped(),
        packet(false),
        packet(false),
        packet(true),
        packet(false),
        packet(false),
        packet(true),
        packet(false),
        packet(false),
        packet(true),
    ]?;
    Ok(cells)
}

/// How a new plugin ends a list, and whether it agrees to end after it.
fn end_and_agreement(until: &mut Until, cells: &mut Vec<Cell>) -> (ListEnd, bool)
    requires fresh { ⟦<Until as Plugin>⟧.stands_for until.old [] 0 }
    requires in_range { vec_len cells.old ≤ 2 ^ 60 }
{
    let end = apply(until, cells);
    (end, until.agreed())
}

/// How a new plugin with these settings ends the first `met` of ten cells, whether it agrees after them, and the
/// remaining cells.
fn left_by(alloc: Global, conf: &UntilConf, met: usize) -> Result<(ListEnd, bool, Vec<Cell>), Fail>
    requires { IsValidUntil conf.now }
{
    let mut cells = ten_cells(alloc)?;
    cells.truncate(met);
    let mut until = Until::new(alloc, conf, 1)?;
    let (end, agreed) = end_and_agreement(&mut until, &mut cells);
    Ok((end, agreed, cells))
}

/// Checks how a new plugin with these settings ends the first `met` of ten cells, and how many remain.
fn leaves(
    rt: &(impl Abort + AllocGlobal),
    conf: &UntilConf,
    met: usize,
    wanted: (ListEnd, bool, usize),
) -> Result<(), Fail>
    requires { IsValidUntil conf.now }
{
    let (end, agreed, cells) = left_by(rt.alloc(), conf, met)?;
    same(rt, (end, agreed, cells.len()), wanted);
    same(rt, cells.last().is_some_and(Cell::is_live), true);
    Ok(())
}

#[test]
fn until_ends_the_list(rt: HostRuntime) -> Result<(), Fail> {
    let rows = [
        (Some(3), NONE, NONE, false, 4, ListEnd::Last),
        (Some(3), NONE, NONE, true, 3, ListEnd::Stop),
        (NONE, Some(3 * 188), NONE, false, 4, ListEnd::Last),
        (NONE, Some(3 * 188 + 1), NONE, false, 5, ListEnd::Last),
        (NONE, NONE, Some(2), false, 7, ListEnd::Last),
        (Some(10), NONE, NONE, false, 10, ListEnd::Through),
    ];
    for (packets, bytes, unit_start_count, exclude_last, left, wanted) in rows {
        let conf = UntilConf {
            packets,
            bytes,
            unit_start_count,
            seconds: None,
            pcr_pid: None,
            exclude_last,
            joint_termination: false,
        };
        leaves(&rt, &conf, 10, (wanted, false, left))?;
    }
    Ok(())
}

/// Each row has the number of cells of the list, and whether the plugin agrees after them.
#[test]
fn joint_until_agrees_and_passes_all(rt: HostRuntime) -> Result<(), Fail> {
    let rows = [
        (Some(3), NONE, NONE, 3, false),
        (Some(3), NONE, NONE, 4, true),
        (Some(3), NONE, NONE, 10, true),
        (NONE, Some(3 * 188 + 1), NONE, 4, false),
        (NONE, Some(3 * 188 + 1), NONE, 5, true),
        (NONE, NONE, Some(2), 6, false),
        (NONE, NONE, Some(2), 7, true),
    ];
    for (packets, bytes, unit_start_count, met, wanted) in rows {
        let conf = UntilConf {
            packets,
            bytes,
            unit_start_count,
            seconds: None,
            pcr_pid: None,
            exclude_last: false,
            joint_termination: true,
        };
        leaves(&rt, &conf, met, (ListEnd::Through, wanted, met))?;
    }
    Ok(())
}
