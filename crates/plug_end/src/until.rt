//! The plugin `until`.

ghost use Rattle.std.specs.Prelude.{◌≡◌};
ghost use Rattle.plug_end.specs.UntilRule.{reaches};

use crate::until_conf::UntilConf;
use plug_clock::StreamClock;
use plugin_trait::{Line, Outcome, Plugin};
use std::alloc::{AllocError, Global};
use ts_packet::{Labels, PACKET_SIZE, Packet};

/// Passes packets until a number of packets, of their bytes, of payload unit starts or of seconds is reached. The packet
/// with which it is reached is the last one, or is left out. With joint termination every packet
/// passes, and the plugin agrees to end from that packet on.
#[derive(Drop)]
pub struct Until {
    packets: Option<u64>,
    bytes: Option<u64>,
    unit_start_count: Option<u64>,
    seconds: Option<u64>,
    pcr_pid: Option<u64>,
    exclude_last: bool,
    joint_termination: bool,
    /// How many packets were met.
    met: u64,
    /// How many unit starts were met.
    starts: u64,
    /// The clock of the stream, which goes only where seconds are given.
    clock: StreamClock,
    buffer: usize,
}

impl Until {
    ghost use Rattle.std.specs.Prelude.{◌≡◌, ◌+◌, ℕ, List, ◌++◌, ◌∷◌, [], Some, IfOk, length};
    ghost use Rattle.plug_end.specs.UntilSettings.{IsValidUntil};
    ghost use Rattle.plug_end.specs.UntilRule.{is_counted, is_time, is_time_of, unit_starts, until_rule};
    ghost use Rattle.plugin_trait.specs.LiveCount.{live_count};
    ghost use Rattle.plug_end.specs.UntilState.{conf_of, ends_at, IsClock};
    ghost use Rattle.ts_packet.specs.declared.cell.Cell.{Cell as GivenCell};
    ghost use Rattle.ts_packet.specs.Cells.{Live};

    /// A plugin that met no cell yet. It allocates nothing, here and in its steps.
    pub fn new(_alloc: Global, conf: &UntilConf, buffer: usize) -> Result<Until, AllocError>
        requires { IsValidUntil conf.now }
        ensures rule { IfOk result (λ plugin. ⟦<Until as Plugin>⟧.rule plugin ≡ until_rule conf.now) }
        ensures fresh { IfOk result (λ plugin. ⟦<Until as Plugin>⟧.stands_for plugin [] 0) }
        ensures preallocated { IfOk result (λ plugin. ⟦<Until as Plugin>⟧.preallocated plugin ≡ Some buffer) }
    {
        Ok(Until {
            packets: conf.packets,
            bytes: conf.bytes,
            unit_start_count: conf.unit_start_count,
            seconds: conf.seconds,
            pcr_pid: conf.pcr_pid,
            exclude_last: conf.exclude_last,
            joint_termination: conf.joint_termination,
            met: 0,
            starts: 0,
            clock: StreamClock::new(conf.pcr_pid),
            buffer,
        })
    }

    // Whether a count is reached by so many packets with so many unit starts.
    fn is_counted(&self, met: u64, starts: u64) -> bool
        ensures { result ≡ is_counted (conf_of self.now) met starts }
    {
        reaches(u128::from(met), self.packets)
            || reaches(PACKET_SIZE as u128 * u128::from(met), self.bytes)
            || reaches(u128::from(starts), self.unit_start_count)
    }

    // Whether seconds are given, and have passed by the clock with the packets met.
    fn is_time(&self) -> bool
        ensures { result ≡ is_time self.now.seconds self.now.met self.now.clock.time }
    {
        match self.seconds {
            Some(seconds) => self.met > 0 && self.clock.has_seconds(seconds),
            None => false,
        }
    }

    // Whether seconds are given, and have passed by the clock with the packet at a position, too.
    fn is_time_with(&self, at: u64, packet: &Packet) -> bool
        ensures { (history : List GivenCell) (labels : ℕ) → IsClock (conf_of self.now) self.now.clock history
            → length history ≡ at → result ≡ is_time_of (conf_of self.now) (history ++ Live packet.now labels ∷ []) }
    {
        match self.seconds {
            Some(seconds) => self.clock.after(at, packet).has_seconds(seconds),
            None => false,
        }
    }

    // Whether the list ends with the packet at a position, with which there are so many packets and unit starts.
    fn ends_with(&self, at: u64, packet: &Packet, met: u64, starts: u64) -> bool
        ensures { (history : List GivenCell) (labels : ℕ) → IsClock (conf_of self.now) self.now.clock history
            → length history ≡ at → met ≡ live_count (history ++ Live packet.now labels ∷ [])
            → starts ≡ unit_starts (history ++ Live packet.now labels ∷ [])
            → result ≡ ends_at (conf_of self.now) (history ++ Live packet.now labels ∷ []) }
    {
        !self.joint_termination && (self.is_counted(met, starts) || self.is_time_with(at, packet))
    }

    // Where seconds are given, the clock goes on with a packet at a position.
    fn tick(&mut self, at: u64, packet: &Packet)
        ensures follows { (history : List GivenCell) (labels : ℕ) → IsClock (conf_of self.old) self.old.clock history
            → length history ≡ at → IsClock (conf_of self.old) self.new.clock (history ++ Live packet.now labels ∷ []) }
        ensures rest { self.new ≡ record self.old { clock = self.new.clock } }
    {
        if self.seconds.is_some() {
            self.clock = self.clock.after(at, packet);
        }
    }
}

// Whether a number that is given is reached.
fn reaches(count: u128, least: Option<u64>) -> bool
    ensures { result ≡ reaches count least }
{
    match least {
        Some(least) => u128::from(least) <= count,
        None => false,
    }
}

impl Plugin for Until {
    ghost use Rattle.std.specs.Prelude.{Some, true};
    ghost use Rattle.plug_end.specs.UntilRule.{until_rule};
    ghost use Rattle.plug_end.specs.UntilState.{conf_of, Counts};

    ghost rule = { λ s. until_rule (conf_of s) };

    ghost stands_for = { λ s history mark. Counts (conf_of s) s.met s.starts s.clock history mark };

    ghost preallocated = { λ s. Some s.buffer };

    ghost silent = { λ _. true };

    // Inlined: otherwise the loop of `steps` has a call for each cell.
    #[inline(always)]
    fn step(&mut self, at: u64, packet: &mut Packet, _labels: &mut Labels) -> Outcome {
        let met = self.met + 1;
        let starts = self.starts + u64::from(packet.unit_start());
        let ends = self.ends_with(at, packet, met, starts);
        if ends && self.exclude_last {
            return Outcome::Stop;
        }
        self.met = met;
        self.starts = starts;
        self.tick(at, packet);
        if ends {
            return Outcome::Last;
        }
        Outcome::Pass
    }

    fn pass_over(&mut self, _at: u64) {}

    fn note(&mut self, _written: u64, _lines: &mut Vec<Line>) -> Result<(), AllocError> {
        Ok(())
    }

    fn agreed(&self) -> bool {
        self.joint_termination && (self.is_counted(self.met, self.starts) || self.is_time())
    }

    fn summary(&self, _at: u64, _lines: &mut Vec<Line>) -> Result<(), AllocError> {
        Ok(())
    }

    fn has_fault(&self, _cut: u64) -> bool {
        false
    }

    ghost starts_open = { λ plugin history mark stands. stands.open_at_first };
}
