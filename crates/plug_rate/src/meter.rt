//! The measurement in hand.
ghost use Rattle.std.specs.Prelude.{◌≡◌};
ghost use Rattle.plug_rate.specs.Measures.{begins_with};

use crate::measure::Measure;
use crate::point::Point;
use crate::rates::{has_passed, rate_of};
use plug_clock::StreamClock;

/// The clock of the stream, and what was counted since the last point.
#[derive(Clone, Copy)]
pub struct Meter {
    /// The clock with the last packet.
    pub clock: StreamClock,
    /// From where on is measured; `None` before the first PCR.
    pub start: Option<Point>,
    /// How many packets were counted since then.
    pub count: u64,
    /// The last measurement was outside of the bounds.
    pub is_outside: bool,
}

impl Meter {
    ghost use Rattle.std.specs.Prelude.{◌≡◌, ◌≤◌, ◌<◌, [], IfSome, None, false};
    ghost use Rattle.ts_packet.specs.declared.numbers.TheConstants.{PID_COUNT};
    ghost use Rattle.plug_clock.specs.StreamClock.{clock_after};
    ghost use Rattle.plug_rate.specs.MeterSteps.{HasMeterRoom, count_with, is_point, measure_from, measure_with, meter_with};
    ghost use Rattle.plug_rate.specs.declared.limits.TheConstants.{MOST_INTERVAL};

    /// Before any packet, with a clock that reads the PCRs of this PID alone where one is given.
    pub fn new(pcr_pid: Option<u64>) -> Meter
        requires { IfSome pcr_pid (λ p. p < PID_COUNT) }
        ensures { result ≡ record { clock = clock_after pcr_pid []; start = None; count = 0; is_outside = false } }
    {
        Meter {
            clock: StreamClock::new(pcr_pid),
            start: None,
            count: 0,
            is_outside: false,
        }
    }

    /// Counts one more packet, or not, with which the clock stays.
    #[inline]
    pub fn add(&mut self, counts: bool)
        requires { HasMeterRoom self.old }
        ensures { self.new ≡ record self.old { count = count_with self.old.start self.old.count counts } }
    {
        self.count = self.count_with(counts);
    }

    // How many packets are counted with one more.
    #[inline]
    fn count_with(&self, counts: bool) -> u64
        requires { HasMeterRoom self.now }
        ensures { result ≡ count_with self.now.start self.now.count counts }
    {
        if self.start.is_some() && counts {
            self.count + 1
        } else {
            self.count
        }
    }

    /// What is measured up to the packet at a position, with which the clock is this one; `None` where no interval has
    /// passed with it.
    pub fn measure(&self, interval: u64, at: u64, clock: &StreamClock) -> Option<Measure>
        requires some { 1 ≤ interval }
        requires most { interval ≤ MOST_INTERVAL }
        requires room { HasMeterRoom self.now }
        ensures { result ≡ measure_with self.now interval at clock.now }
    {
        if !has_passed(interval, self.clock.time(), clock.time()) {
            return None;
        }
        match self.start {
            Some(start) => Some(self.measure_from(start, at, clock)),
            None => None,
        }
    }

    // What is measured from a point up to the packet at a position, with which the clock is this one.
    fn measure_from(&self, start: Point, at: u64, clock: &StreamClock) -> Measure
        requires { start.time < clock.now.time }
        ensures { result ≡ measure_from start self.now.count at clock.now.time }
    {
        Measure {
            at,
            time: clock.milliseconds(),
            bitrate: rate_of(self.count, clock.time() - start.time),
        }
    }

    // Whether a measurement begins with the packet with which the clock is this one.
    fn is_point(&self, interval: u64, clock: &StreamClock) -> bool
        requires some { 1 ≤ interval }
        requires most { interval ≤ MOST_INTERVAL }
        ensures { result ≡ is_point self.now interval clock.now }
    {
        begins_with(&self.clock, clock) || has_passed(interval, self.clock.time(), clock.time())
    }

    /// What is kept after the packet at a position, which counts or not and with which the clock is this one.
    pub fn with(
        &self,
        interval: u64,
        at: u64,
        clock: StreamClock,
        counts: bool,
        is_outside: bool,
    ) -> Meter
        requires some { 1 ≤ interval }
        requires most { interval ≤ MOST_INTERVAL }
        requires room { HasMeterRoom self.now }
        ensures { result ≡ meter_with self.now interval at clock counts is_outside }
    {
        if self.is_point(interval, &clock) {
            return Meter {
                clock,
                start: Some(Point {
                    at,
                    time: clock.time(),
                }),
                count: u64::from(counts),
                is_outside,
            };
        }
        Meter {
            clock,
            start: self.start,
            count: self.count_with(counts),
            is_outside,
        }
    }
}

// Whether the clock read its first PCR between these two.
fn begins_with(before: &StreamClock, after: &StreamClock) -> bool
    ensures { result ≡ begins_with before.now after.now }
{
    before.last().is_none() && after.last().is_some()
}
