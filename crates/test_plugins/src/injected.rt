//! Tests of `inject`: the packets of one PAT instead of null packets and of packets on a PID.

ghost use Rattle.plug_inject.specs.InjectSettings.{IsValidMode};

use crate::cells::{given, one_service};
use crate::compared::same;
use plug_inject::{InjectConf, InjectMode, new_inject};
use plugin_options::PairList;
use plugin_trait::ListEnd;
use std::alloc::Global;
use std::process::Abort;
use std::test::Fail;
use ts_outside::NameText;
use ts_packet::{Cell, Labels, Packet};
use ts_section::Section;

/// The PAT of service 1.
fn pat_sections(alloc: Global) -> Result<Vec<Section>, Fail> {
    Ok(one_service(alloc, None)?.sections(alloc)?)
}

/// A null packet.
fn null() -> Cell {
    Cell::of(Packet::null(), Labels::none())
}

/// Seven null packets, after the plugin.
fn injected(alloc: Global, mode: InjectMode, sections: Vec<Section>) -> Result<Vec<Cell>, Fail>
    requires { IsValidMode mode }
{
    let cells = vec![in alloc; null(), null(), null(), null(), null(), null(), null()]?;
    let conf = InjectConf {
        file: NameText::of(String::new(alloc)),
        pid: 0,
        mode,
        fix_counters: false,
        every: PairList::of(Vec::new(alloc)),
    };
    let (end, cells) = given(new_inject(alloc, &conf, sections), cells)?;
    match end {
        ListEnd::Through => Ok(cells),
        _ => Err("the plugin ended its list".into()),
    }
}

/// The continuity counter of a packet on PID 0, which is the PAT's; `None` for another cell.
fn counter_of_pat(cell: &Cell) -> Option<u8> {
    match cell.live() {
        Some(live) if live.packet.pid() == 0 => Some(live.packet.counter()),
        _ => None,
    }
}

/// Checks which of seven cells have the PAT, with which counters.
fn have(rt: &impl Abort, cells: &[Cell], counters: &[Option<u8>]) {
    same(rt, cells.len(), counters.len());
    for (cell, counter) in cells.iter().zip(counters) {
        same(rt, counter_of_pat(cell), *counter);
    }
}

/// Each third null packet becomes the PAT.
fn each_third(alloc: Global) -> Result<Vec<Cell>, Fail> {
    injected(alloc, InjectMode::InterPacket(3), pat_sections(alloc)?)
}

/// No section replaces each null packet.
fn without_sections(alloc: Global) -> Result<Vec<Cell>, Fail> {
    injected(alloc, InjectMode::InterPacket(1), Vec::new(alloc))
}

#[test]
fn each_third_null_packet_is_replaced(rt: HostRuntime) -> Result<(), Fail> {
    let cells = each_third(rt.alloc())?;
    let counters = [Some(0), None, None, Some(1), None, None, Some(2)];
    have(&rt, &cells, &counters);
    Ok(())
}

#[test]
fn no_sections_replace_nothing(rt: HostRuntime) -> Result<(), Fail> {
    let cells = without_sections(rt.alloc())?;
    have(&rt, &cells, &[None; 7]);
    Ok(())
}
