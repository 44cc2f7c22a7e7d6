//! Tests of `zap` and `svremove`: what is left of the generated stream, which has service 1 with PIDs 256 and 257 and
//! service 2 with PIDs 256, 258 and 259.

ghost use Rattle.std.specs.Prelude.{◌≡◌, ◌∷◌, [], IfOk};
ghost use Rattle.named_services.specs.declared.service_word.ServiceWord.TheVariants.{Number};

use crate::cells::{bytes_from, given, live};
use crate::compared::{holds, same};
use named_services::{ServiceWord, ServiceWords};
use plug_service::{Kept, ServiceConf, SvremoveConf, ZapConf, new_svremove, new_zap};
use plugin_trait::Plugin;
use std::alloc::{AllocError, Global};
use std::process::Abort;
use std::test::Fail;
use ts_packet::Cell;
use ts_testgen::TestGen;

/// Its first hundred packets.
fn stream(alloc: Global) -> Result<Vec<Cell>, Fail> {
    let mut cells = Vec::new(alloc);
    let mut generator = TestGen::new(alloc, 7)?;
    for _ in 0..100_usize {
        cells.push(live(generator.next_packet()))?;
    }
    Ok(cells)
}

/// What a plugin outputs for them.
fn made_of_stream<P: Plugin + Drop>(
    alloc: Global,
    plugin: Result<P, AllocError>,
) -> Result<Vec<Cell>, Fail>
    requires { IfOk plugin (λ p. P.stands_for p [] 0) }
{
    Ok(given(plugin, stream(alloc)?)?.1)
}

/// How many packets have this PID.
fn count_of(cells: &[Cell], pid: u16) -> usize {
    let mut count = 0usize;
    for cell in cells {
        if let Some(live) = cell.live() {
            if live.packet.pid() == pid {
                count = count.saturating_add(1);
            }
        }
    }
    count
}

/// Checks that each of these PIDs has `count` packets.
fn has_each(rt: &impl Abort, cells: &[Cell], pids: &[u16], count: usize) {
    for pid in pids {
        same(rt, (*pid, count_of(cells, *pid)), (*pid, count));
    }
}

/// The bytes of the first packet after its header and its pointer_field.
fn first_bytes(cells: &[Cell]) -> &[u8] {
    match cells.first() {
        Some(cell) => bytes_from(cell, 5),
        None => &[],
    }
}

/// Checks the bytes of the first packet after its header and its pointer_field.
fn begins(rt: &impl Abort, cells: &[Cell], wanted: &[u8]) {
    holds(rt, first_bytes(cells).starts_with(wanted));
}

/// The word that is the number 1.
fn service_1(alloc: Global) -> Result<ServiceWords, AllocError>
    ensures { IfOk result (λ words. words ≡ Number 1 ∷ []) }
{
    let mut words = ServiceWords::none(alloc);
    words.add(ServiceWord::Number(1))?;
    Ok(words)
}

/// What is left where service 1 is kept.
fn kept(alloc: Global) -> Result<Vec<Cell>, Fail> {
    let conf = ZapConf {
        service: ServiceConf {
            services: service_1(alloc)?,
            stuffing: false,
        },
        kept: Kept {
            nit: false,
            bat: false,
            eit: false,
            time: false,
        },
    };
    made_of_stream(alloc, new_zap(alloc, &conf, 1))
}

static KEPT_PAT: [u8; 12] = [
    0x00, 0xB0, 0x0D, 0x00, 0x01, 0xC1, 0x00, 0x00, 0x00, 0x01, 0xF0, 0x00,
];

/// Checks what is left then.
fn is_kept(rt: &impl Abort, cells: &[Cell]) {
    same(rt, cells.len(), 100);
    has_each(rt, cells, &[258, 259, 4097, 8191], 0);
    has_each(rt, cells, &[0, 17, 4096], 2);
    holds(rt, count_of(cells, 256) > 2);
    holds(rt, count_of(cells, 257) > 2);
    begins(rt, cells, &KEPT_PAT);
}

/// What is left where service 1 is taken out.
fn without_it(alloc: Global) -> Result<Vec<Cell>, Fail> {
    let service = ServiceConf {
        services: service_1(alloc)?,
        stuffing: true,
    };
    let conf = SvremoveConf {
        service,
        everywhere: false,
    };
    made_of_stream(alloc, new_svremove(alloc, &conf, 1))
}

static REMOVED_PAT: [u8; 12] = [
    0x00, 0xB0, 0x0D, 0x00, 0x01, 0xC1, 0x00, 0x00, 0x00, 0x02, 0xF0, 0x01,
];

/// Checks what is left then.
fn is_removed(rt: &impl Abort, cells: &[Cell]) {
    same(rt, cells.len(), 100);
    has_each(rt, cells, &[257, 4096], 0);
    has_each(rt, cells, &[0, 17, 4097], 2);
    holds(rt, count_of(cells, 256) > 2);
    holds(rt, count_of(cells, 8191) > 12);
    begins(rt, cells, &REMOVED_PAT);
}

#[test]
fn a_service_is_kept(rt: HostRuntime) -> Result<(), Fail> {
    let cells = kept(rt.alloc())?;
    is_kept(&rt, &cells);
    Ok(())
}

#[test]
fn a_service_is_removed(rt: HostRuntime) -> Result<(), Fail> {
    let cells = without_it(rt.alloc())?;
    is_removed(&rt, &cells);
    Ok(())
}
