//! A law of what is kept of packets. It runs nothing.
ghost use Rattle.std.specs.Prelude.{◌++◌, ◌∷◌, [], List};
ghost use Rattle.ts_packet.specs.declared.cell.Cell.{Cell};
ghost use Rattle.ts_packet.specs.Cells.{Dropped};
ghost use Rattle.plug_monitor.specs.declared.monitor_conf.MonitorConf.{MonitorConf as GivenConf};
ghost use Rattle.plug_monitor.specs.declared.watch.Watch.{Watch as Kept};
ghost use Rattle.plug_monitor.specs.WatchStands.{IsWatching};

use monitor_priorities::a_dropped_cell_leaves_the_priorities;

/// A law; it runs nothing. A cell whose packet was dropped leaves what is kept as it is.
pub(crate) fn a_dropped_cell_leaves_the_watch()
    ensures { (conf : GivenConf) (watch : Kept) (history : List Cell) → IsWatching conf watch history
        → IsWatching conf watch (history ++ Dropped ∷ []) }
{
    a_dropped_cell_leaves_the_priorities();
}
