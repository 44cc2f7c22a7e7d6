//! A list of cells that a plugin goes over, one after another.
ghost use Rattle.std.specs.Prelude.{◌≡◌, ◌+◌, ◌<◌, ◌≤◌, [], List, length, vec_len};
ghost use Rattle.ts_packet.specs.declared.cell.Cell.{Cell};
ghost use Rattle.chain_model.specs.declared.positions.TheConstants.{POSITION_LIMIT};

use cell_rows::Mark;
use plugin_trait::{Applied, ListEnd, Plugin};
use ts_packet::{Cell, Packet};

/// Takes the cell at a position through a plugin.
fn apply_one<P: Plugin>(plugin: &mut P, at: u64, cell: &mut Cell) -> Applied
    requires met { (history : List Cell) × P.stands_for plugin.old history 0 × (length history ≡ at) }
    requires in_range { at < POSITION_LIMIT }
    ensures within { result.count ≤ 1 }
    ensures met { (history : List Cell) × P.stands_for plugin.new history 0 × (length history ≡ at + result.count) }
{
    let mut packets = [Packet::null()];
    let mut marks = [Mark::dropped()];
    if let Some(live) = cell.live() {
        packets[0] = live.packet;
        marks[0] = Mark {
            labels: live.labels,
            is_live: true,
        };
    }
    let mut noted = true;
    let applied = plugin.steps(at, &mut packets, &mut marks, &mut noted);
    *cell = if marks[0].is_live {
        Cell::of(packets[0], marks[0].labels)
    } else {
        Cell::dropped()
    };
    applied
}

/// Takes a list of cells through a plugin that met none yet. The list becomes the plugin's own.
pub(crate) fn apply<P: Plugin>(plugin: &mut P, cells: &mut Vec<Cell>) -> ListEnd
    requires fresh { P.stands_for plugin.old [] 0 }
    requires short { vec_len cells.old ≤ POSITION_LIMIT }
    ensures met { (history : List Cell) × P.stands_for plugin.new history 0 × (length history ≡ vec_len cells.new) }
{
    for i in 0..cells.len() {
        let applied = apply_one(plugin, i as u64, &mut cells[i]);
        if applied.count == 0 || applied.end != ListEnd::Through {
            cells.truncate(i + applied.count);
            return applied.end;
        }
    }
    ListEnd::Through
}
