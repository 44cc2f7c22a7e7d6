//! The delay line of `rmorphan`: each packet is output a window later, if its PID is referred to by then.
//!
//! One ring of the window's size, which gives up the packet that is due as it takes the next.
ghost use Rattle.std.specs.Prelude.{◌≡◌, IfOk, []};
ghost use Rattle.plug_window.specs.LateState.{StandsFor};

use circular_buffer::HeapCircularBuffer;
use plug_psi::Referred;
use std::alloc::{AllocError, Global};
use ts_packet::Labelled;

/// The last packets, as many as the window has, and the PIDs that all packets so far refer to.
#[derive(Drop)]
pub struct LateLine {
    /// The last packets. The buffer is as large as the window, so that a full one gives up the packet that is due.
    late: HeapCircularBuffer<Labelled>,
    /// The PIDs that tables refer to.
    referred: Referred,
}

impl LateLine {
    ghost use Rattle.std.specs.Prelude.{◌≡◌, ◌≤◌, ℕ, List, [], ◌∷◌, ◌++◌, IfOk, OnOk, OnErr, IsErr, IsOk, true, false};
    ghost use Rattle.circular_buffer.specs.Buffer.{keep_last};
    ghost use Rattle.plug_psi.specs.ReferredStands.{StandsFor as Refers, has_failed};
    ghost use Rattle.ts_packet.specs.declared.labelled.Labelled.{Labelled as Row};
    ghost use Rattle.ts_packet.specs.Header.{pid_of};
    ghost use Rattle.ts_packet.specs.LiveRows.{packets_in};
    ghost use Rattle.plug_psi.specs.Referred.{may_name_pids};
    ghost use Rattle.plug_window.specs.RmorphanRule.{is_referred, delayed, picked, refers_to};
    ghost use Rattle.plug_window.specs.LateState.{StandsFor, leaves};

    /// A line without packets. The room of the window is allocated here; that for tables grows later.
    pub fn new(alloc: Global, window: usize) -> Result<LateLine, AllocError>
        requires { 1 ≤ window }
        ensures fresh { IfOk result (λ line. StandsFor line []) }
        ensures window { IfOk result (λ line. line.late.capacity ≡ window) }
    {
        let late = HeapCircularBuffer::with_capacity(alloc, window)?;
        let referred = Referred::new(alloc)?;
        Ok(LateLine { late, referred })
    }

    /// Takes the packet at a position in, and returns the one that came in a window before it, if the packets up to the current one
    /// refer to its PID. A packet on a PID without a table that names PIDs needs no memory. After `AllocError` every later call
    /// returns `AllocError`.
    #[inline]
    pub fn turn(&mut self, at: u64, came: Labelled) -> Result<Option<Labelled>, AllocError>
        ensures given { IfOk result (λ given. (rows : List Row) → StandsFor self.old rows
            → given ≡ delayed is_referred self.old.late.capacity rows came) }
        ensures stands { OnOk result ((rows : List Row) → StandsFor self.old rows → StandsFor self.new (rows ++ came ∷ [])) }
        ensures window { self.new.late.capacity ≡ self.old.late.capacity }
        ensures quiet { (rows : List Row) → StandsFor self.old rows → may_name_pids (pid_of came.packet) (packets_in rows) ≡ false → IsOk result }
        ensures spent { OnErr result (has_failed self.new.referred ≡ true) }
        ensures stays_spent { has_failed self.old.referred ≡ true → IsErr result }
    {
        self.referred.feed(at, &came.packet)?;
        let given = self.shift(came);
        Ok(given)
    }

    // Appends a packet, and returns the one that leaves the line for it, if its PID is referred to.
    #[inline]
    fn shift(&mut self, came: Labelled) -> Option<Labelled>
        ensures given { (packets : List (List ℕ)) → Refers self.old.referred packets
            → result ≡ picked (refers_to packets) (leaves self.old.late.capacity self.old.late.items came) }
        ensures late { self.new.late.items ≡ keep_last self.old.late.capacity (self.old.late.items ++ came ∷ []) }
        ensures same { self.new.referred ≡ self.old.referred }
        ensures window { self.new.late.capacity ≡ self.old.late.capacity }
    {
        let late = self.late.push_back(came);
        self.kept(late)
    }

    // The packet, if there is one and its PID is referred to.
    #[inline]
    fn kept(&self, late: Option<Labelled>) -> Option<Labelled>
        ensures { (packets : List (List ℕ)) → Refers self.now.referred packets → result ≡ picked (refers_to packets) late }
    {
        let row = late?;
        if !self.referred.has(row.packet.pid()) {
            return None;
        }
        Some(row)
    }
}
