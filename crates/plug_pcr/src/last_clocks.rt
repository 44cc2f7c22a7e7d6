//! The last PCR on each PID.

use plug_clock::LastClock;
use std::alloc::{AllocError, Global};
use ts_packet::{PID_COUNT, PidRow};

/// The last PCR on each PID, if there was one.
#[derive(Drop)]
pub struct LastClocks {
    clocks: PidRow<Option<LastClock>>,
}

impl LastClocks {
    ghost use Rattle.std.specs.Prelude.{◌≡◌, ◌<◌, [], IfOk, None, Some, length};
    ghost use Rattle.std.specs.List.{slice_index_or, slice_set};
    ghost use Rattle.plug_pcr.specs.LastClocks.{Remembers};
    ghost use Rattle.plug_pcr.specs.declared.pcrverify_conf.PcrverifyConf.{PcrverifyConf as GivenConf};

    /// No PCR yet on any PID. Allocates 192 KiB.
    pub fn new(alloc: Global) -> Result<LastClocks, AllocError>
        ensures { IfOk result (λ last. (conf : GivenConf) → Remembers conf last []) }
    {
        Ok(LastClocks {
            clocks: PidRow::filled(alloc, None)?,
        })
    }

    /// The last PCR on a PID, if there was one.
    #[inline]
    pub fn on(&self, pid: u16) -> Option<LastClock>
        requires on_pid { pid < PID_COUNT }
        ensures { result ≡ slice_index_or self.now.clocks pid None }
    {
        self.clocks.get(pid)
    }

    /// Keeps a PCR as the last one on a PID.
    #[inline]
    pub fn keep(&mut self, pid: u16, last: LastClock)
        requires on_pid { pid < PID_COUNT }
        ensures kept { self.new.clocks ≡ slice_set self.old.clocks pid (Some last) }
        ensures whole { length self.old.clocks ≡ PID_COUNT }
    {
        self.clocks.set(pid, Some(last));
    }
}
