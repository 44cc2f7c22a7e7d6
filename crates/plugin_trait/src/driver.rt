//! The driver of a plugin, which takes a list of cells through it.
ghost use Rattle.std.specs.Prelude.{◌≡◌, ◌≢◌, ◌≤◌, ℕ, List, [], length, take, true};
ghost use Rattle.cell_rows.specs.Cells.{cell_of, cells_of};
ghost use Rattle.chain_model.specs.declared.positions.TheConstants.{POSITION_LIMIT};
ghost use Rattle.chain_model.specs.Apply.{apply};
ghost use Rattle.plugin_trait.specs.Steps.{IsPreallocatedFor, MeetsCells, left_of};
ghost use Rattle.plugin_trait.specs.Driving.{Makes, AgreesNow};

use crate::{Applied, ListEnd, Outcome, Plugin};
use cell_rows::Mark;
use ts_packet::Packet;

/// Notes that a plugin agrees, where it does so for the first time; then it returns the number of cells.
#[inline]
pub(crate) fn note_agreement(agrees: bool, noted: &mut bool, now: u64) -> Option<u64>
    ensures { AgreesNow noted.old agrees now result noted.new }
{
    if agrees && !*noted {
        *noted = true;
        return Some(now);
    }
    None
}

/// The mark of a live packet after an outcome.
#[inline]
pub(crate) fn after(mark: Mark, outcome: Outcome) -> Mark
    requires { mark.is_live ≡ true }
    ensures { (packet : List ℕ) → cell_of packet result ≡ left_of outcome packet mark.labels }
{
    match outcome {
        Outcome::Drop => Mark {
            labels: mark.labels,
            is_live: false,
        },
        _ => mark,
    }
}

/// Takes a whole list of cells through a plugin that met none yet. The first ones become the plugin's own list. It runs
/// out of memory only where the plugin made no room for the notes on so many cells.
pub fn apply_plugin<P: Plugin>(
    plugin: &mut P,
    packets: &mut [Packet],
    marks: &mut [Mark],
) -> Applied
    requires met { MeetsCells (P.stands_for plugin.old) 0 }
    requires in_range { length packets.old ≤ POSITION_LIMIT }
    requires long { length marks.old ≡ length packets.old }
    ensures makes { Makes (apply (P.rule plugin.old) (cells_of packets.old marks.old))
        (take result.count (cells_of packets.new marks.new)) result.end }
    ensures met { (mark : ℕ) → P.stands_for plugin.old [] mark
        → P.stands_for plugin.new (take result.count (cells_of packets.old marks.old)) mark }
    ensures fewer { result.count ≤ length packets.old }
    ensures same_rule { P.rule plugin.new ≡ P.rule plugin.old }
    ensures same_preallocated { P.preallocated plugin.new ≡ P.preallocated plugin.old }
    ensures same_silent { P.silent plugin.new ≡ P.silent plugin.old }
    ensures room { IsPreallocatedFor (P.preallocated plugin.old) (length packets.old) → result.end ≢ ListEnd.NoMemory }
{
    let mut noted = true;
    plugin.steps(0, packets, marks, &mut noted)
}
