//! All that is kept of the packets that were met.
ghost use Rattle.std.specs.Prelude.{◌≡◌, ◌++◌, ◌∷◌, [], ℕ, List, IfOk, OnOk};
ghost use Rattle.ts_packet.specs.declared.cell.Cell.{Cell};
ghost use Rattle.ts_packet.specs.Cells.{Live, live_packets};
ghost use Rattle.plug_psi.specs.ForceStands.{StandsFor as Forced};
ghost use Rattle.plug_psi.specs.ReferredStands.{StandsFor as AreReferred};
ghost use Rattle.monitor_keys.specs.Keys.{span_on};
ghost use Rattle.plug_monitor.specs.declared.monitor_conf.MonitorConf.{MonitorConf as GivenConf};
ghost use Rattle.plug_monitor.specs.MonitorErrors.{second_asked, third_asked};
ghost use Rattle.plug_monitor.specs.MonitorSettings.{IsValidMonitor};
ghost use Rattle.plug_monitor.specs.WatchStands.{HasSecondIf, HasThirdIf, MeetsSecondIf};

use crate::limits::MILLISECOND;
use crate::monitor_conf::MonitorConf;
use monitor_keys::Span;
use monitor_lines::MonitorError;
use monitor_priorities::{FirstRows, SecondRows, ThirdRows};
use plug_clock::StreamClock;
use plug_psi::{InForce, Referred};
use std::alloc::{AllocError, Global};
use ts_packet::Packet;

/// The stream's clock, the tables in force, and the rows of the priorities that are asked for; others are not kept.
#[derive(Drop)]
pub(crate) struct Watch {
    clock: StreamClock,
    referred: Referred,
    first: FirstRows,
    second: Option<SecondRows>,
    third: Option<ThirdRows>,
    alloc: Global,
}

impl Watch {
    ghost use Rattle.std.specs.Prelude.{◌≡◌, ◌∷◌, ◌++◌, [], ℕ, List, IfOk, OnOk, length};
    ghost use Rattle.ts_packet.specs.declared.cell.Cell.{Cell};
    ghost use Rattle.ts_packet.specs.Cells.{Live};
    ghost use Rattle.plug_monitor.specs.declared.monitor_conf.MonitorConf.{MonitorConf as GivenConf};
    ghost use Rattle.plug_monitor.specs.MonitorErrors.{errors_on};
    ghost use Rattle.plug_monitor.specs.MonitorSettings.{IsValidMonitor};
    ghost use Rattle.plug_monitor.specs.WatchStands.{IsWatching, MeetsSome};

    /// No cell was met.
    pub(crate) fn new(alloc: Global, conf: &MonitorConf) -> Result<Watch, AllocError>
        requires { IsValidMonitor conf.now }
        ensures { IfOk result (λ watch. IsWatching conf.now watch []) }
    {
        let first = FirstRows::new(alloc, conf.pid_gap * MILLISECOND)?;
        let second = second_of(alloc, conf)?;
        let third = third_of(alloc, conf)?;
        let referred = Referred::new(alloc)?;
        let clock = StreamClock::new(conf.pcr_pid);
        Ok(Watch {
            clock,
            referred,
            first,
            second,
            third,
            alloc,
        })
    }

    /// The packet at a position. Gives its errors. After `AllocError` it is not to be used any more.
    pub(crate) fn meet(&mut self, at: u64, packet: &Packet) -> Result<Vec<MonitorError>, AllocError>
        requires { MeetsSome self.old }
        ensures stands { OnOk result ((conf : GivenConf) (history : List Cell) (labels : ℕ) → IsWatching conf self.old history
            → length history ≡ at → IsWatching conf self.new (history ++ Live packet.now labels ∷ [])) }
        ensures gives { IfOk result (λ errors. (conf : GivenConf) (history : List Cell) → IsWatching conf self.old history
            → length history ≡ at → errors.items ≡ errors_on conf history packet.now) }
    {
        self.referred.feed(at, packet)?;
        let span = Span::to(self.clock, at, packet);
        let mut errors = Vec::new(self.alloc);
        let force = self.referred.in_force();
        self.first.meet(&span, packet, force, &mut errors)?;
        meet_second(&mut self.second, &span, packet, force, &mut errors)?;
        meet_third(&mut self.third, &span, packet, &self.referred, &mut errors)?;
        self.clock = span.after;
        Ok(errors)
    }
}

// The rows of priority 2, where they are asked for.
fn second_of(alloc: Global, conf: &MonitorConf) -> Result<Option<SecondRows>, AllocError>
    requires { IsValidMonitor conf.now }
    ensures { IfOk result (λ rows. HasSecondIf conf.now rows []) }
{
    if conf.priority < 2 {
        return Ok(None);
    }
    let rows = SecondRows::new(alloc, conf.bitrate)?;
    Ok(Some(rows))
}

// Those of priority 3.
fn third_of(alloc: Global, conf: &MonitorConf) -> Result<Option<ThirdRows>, AllocError>
    ensures { IfOk result (λ rows. HasThirdIf conf.now rows []) }
{
    if conf.priority < 3 {
        return Ok(None);
    }
    let rows = ThirdRows::new(alloc)?;
    Ok(Some(rows))
}

// A packet with the rows of priority 2, where they are kept.
fn meet_second(
    rows: &mut Option<SecondRows>,
    span: &Span,
    packet: &Packet,
    force: &InForce,
    errors: &mut Vec<MonitorError>,
) -> Result<(), AllocError>
    requires { MeetsSecondIf rows.old }
    ensures stands { OnOk result ((conf : GivenConf) (history : List Cell) (labels : ℕ) → HasSecondIf conf rows.old history
        → span.now ≡ span_on conf.pcr_pid history packet.now → Forced force.now (live_packets history ++ packet.now ∷ [])
        → HasSecondIf conf rows.new (history ++ Live packet.now labels ∷ [])) }
    ensures tells { OnOk result ((conf : GivenConf) (history : List Cell) → HasSecondIf conf rows.old history
        → span.now ≡ span_on conf.pcr_pid history packet.now → Forced force.now (live_packets history ++ packet.now ∷ [])
        → errors.new.items ≡ errors.old.items ++ second_asked conf history packet.now) }
{
    match rows {
        Some(rows) => {
            rows.meet(span, packet, force, errors)?;
            Ok(())
        }
        None => Ok(()),
    }
}

// The same with those of priority 3.
fn meet_third(
    rows: &mut Option<ThirdRows>,
    span: &Span,
    packet: &Packet,
    referred: &Referred,
    errors: &mut Vec<MonitorError>,
) -> Result<(), AllocError>
    ensures stands { OnOk result ((conf : GivenConf) (history : List Cell) (labels : ℕ) → HasThirdIf conf rows.old history
        → span.now ≡ span_on conf.pcr_pid history packet.now → AreReferred referred.now (live_packets history ++ packet.now ∷ [])
        → HasThirdIf conf rows.new (history ++ Live packet.now labels ∷ [])) }
    ensures tells { OnOk result ((conf : GivenConf) (history : List Cell) → HasThirdIf conf rows.old history
        → span.now ≡ span_on conf.pcr_pid history packet.now → AreReferred referred.now (live_packets history ++ packet.now ∷ [])
        → errors.new.items ≡ errors.old.items ++ third_asked conf history packet.now) }
{
    match rows {
        Some(rows) => {
            rows.meet(span, packet, referred, errors)?;
            Ok(())
        }
        None => Ok(()),
    }
}
