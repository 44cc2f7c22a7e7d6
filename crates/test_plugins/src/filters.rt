//! Tests of `filter`, `slice` and `pattern`.
ghost use Rattle.std.specs.Prelude.{◌<◌, ℕ, [], IfOk, length, slice_index};

use crate::cells::{each_shows, given, live, packet};
use crate::compared::{same, same_bytes};
use plug_pass::{
    Filter, FilterConf, Pattern, PatternConf, Skip, SkipConf, Slice, SliceConf, new_filter,
    new_pattern, new_skip, new_slice,
};
use plugin_options::NumberSet;
use plugin_trait::{ListEnd, Plugin};
use std::alloc::{AllocError, Global};
use std::process::Abort;
use std::test::Fail;
use ts_outside::FileBytes;
use ts_packet::Cell;

/// Cells with packets on these PIDs.
fn cells_on(alloc: Global, pids: &[u16]) -> Result<Vec<Cell>, AllocError>
    requires pids { (k : ℕ) → slice_index pids.now k < 8192 }
    requires short { length pids.now < 1000 }
{
    let mut cells = Vec::new(alloc);
    for pid in pids {
        cells.push(live(packet(*pid)))?;
    }
    Ok(cells)
}

/// A letter for each cell: `p` for a packet that passed, `n` for a null packet, and `.` for a dropped cell.
fn letters(alloc: Global, cells: &[Cell]) -> Result<String, AllocError> {
    let mut letters = String::new(alloc);
    for cell in cells {
        letters.push(match cell.live() {
            Some(live) if live.packet.pid() == 8191 => 'n',
            Some(_) => 'p',
            None => '.',
        })?;
    }
    Ok(letters)
}

/// What a plugin outputs for packets on these PIDs, as letters.
fn shape<P: Plugin + Drop>(
    alloc: Global,
    plugin: Result<P, AllocError>,
    pids: &[u16],
) -> Result<(String, ListEnd), AllocError>
    requires fresh { IfOk plugin (λ p. P.stands_for p [] 0) }
    requires pids { (k : ℕ) → slice_index pids.now k < 8192 }
    requires short { length pids.now < 1000 }
{
    let (end, cells) = given(plugin, cells_on(alloc, pids)?)?;
    Ok((letters(alloc, &cells)?, end))
}

const THREE: [u16; 3] = [256, 257, 256];

/// What the filter of PID 256 outputs for three packets.
fn filtered(alloc: Global, negate: bool, stuffing: bool) -> Result<(String, ListEnd), AllocError> {
    let pids = vec![in alloc; (256, 256)]?;
    let conf = FilterConf {
        pid: NumberSet::of(pids),
        pcr: false,
        unit_start: false,
        scrambled: false,
        label: NumberSet::of(Vec::new(alloc)),
        negate,
        stuffing,
        set_label: NumberSet::of(Vec::new(alloc)),
    };
    shape(alloc, new_filter(alloc, &conf, 1), &THREE)
}

/// Checks what a plugin output, and how it ended.
fn is_shape(rt: &impl Abort, found: &(String, ListEnd), letters: &str, end: ListEnd) {
    same_bytes(rt, found.0.as_bytes(), letters.as_bytes());
    same(rt, found.1, end);
}

/// What `skip` outputs for three packets where it skips one.
fn skipped(alloc: Global) -> Result<(String, ListEnd), AllocError> {
    shape(alloc, new_skip(alloc, &SkipConf { operand: 1 }, 1), &THREE)
}

/// A slice that drops from the second packet on, passes from the fourth, makes null packets from the fifth, and stops
/// at the seventh.
fn slice(alloc: Global) -> Result<Slice, AllocError>
    ensures { IfOk result (λ plugin. ⟦<Slice as Plugin>⟧.stands_for plugin [] 0) }
{
    let conf = SliceConf {
        drop: Some(1),
        null: Some(4),
        pass: Some(3),
        stop: Some(6),
        milliseconds: false,
        pcr_pid: None,
    };
    new_slice(alloc, &conf, 1)
}

/// What it outputs for ten packets.
fn sliced(alloc: Global) -> Result<(String, ListEnd), AllocError> {
    shape(alloc, slice(alloc), &[256; 10])
}

/// Which plugin passes packets on.
#[derive(Clone, Copy)]
enum Passing {
    Filter { negate: bool, stuffing: bool },
    Skip,
    Slice,
}

/// What that plugin outputs.
fn shape_of(alloc: Global, passing: Passing) -> Result<(String, ListEnd), AllocError> {
    match passing {
        Passing::Filter { negate, stuffing } => filtered(alloc, negate, stuffing),
        Passing::Skip => skipped(alloc),
        Passing::Slice => sliced(alloc),
    }
}

/// Plugins, what they output, and how they end their lists.
static SHAPES: [(Passing, &str, ListEnd); 5] = [
    (
        Passing::Filter {
            negate: false,
            stuffing: false,
        },
        "p.p",
        ListEnd::Through,
    ),
    (
        Passing::Filter {
            negate: true,
            stuffing: false,
        },
        ".p.",
        ListEnd::Through,
    ),
    (
        Passing::Filter {
            negate: false,
            stuffing: true,
        },
        "pnp",
        ListEnd::Through,
    ),
    (Passing::Skip, ".pp", ListEnd::Through),
    (Passing::Slice, "p..pnn", ListEnd::Stop),
];

fn shapes() -> &'static [(Passing, &'static str, ListEnd)] {
    &SHAPES
}

/// Checks what a plugin outputs.
fn passes(
    rt: &(impl Abort + AllocGlobal),
    passing: Passing,
    letters: &str,
    end: ListEnd,
) -> Result<(), Fail> {
    let found = shape_of(rt.alloc(), passing)?;
    is_shape(rt, &found, letters, end);
    Ok(())
}

/// A filter passes a PID, a skip drops the first packets, and a slice uses where its parts start.
#[test]
fn plugins_pass_and_drop(rt: HostRuntime) -> Result<(), Fail> {
    for (passing, letters, end) in shapes() {
        passes(&rt, *passing, letters, *end)?;
    }
    Ok(())
}

/// A pattern that is written from three bytes before the end of the packet on.
fn pattern(alloc: Global) -> Result<Pattern, AllocError>
    ensures { IfOk result (λ plugin. ⟦<Pattern as Plugin>⟧.stands_for plugin [] 0) }
{
    let bytes = vec![in alloc; 0xAB, 0xCD]?;
    let conf = PatternConf {
        operand: FileBytes::of(bytes),
        pid: NumberSet::of(Vec::new(alloc)),
        negate: true,
        offset_pusi: None,
        offset_non_pusi: Some(181),
    };
    new_pattern(alloc, &conf, 1)
}

/// A packet on PID 256 after a pattern was written up to its end.
fn patterned(alloc: Global) -> Result<(ListEnd, Vec<Cell>), AllocError> {
    let cells = vec![in alloc; live(packet(256))]?;
    given(pattern(alloc), cells)
}

#[test]
fn pattern_is_written_to_the_end(rt: HostRuntime) -> Result<(), Fail> {
    let (end, cells) = patterned(rt.alloc())?;
    same(&rt, (end, cells.len()), (ListEnd::Through, 1));
    each_shows(&rt, &cells, 184, &[0xFF, 0xAB, 0xCD, 0xAB]);
    Ok(())
}
