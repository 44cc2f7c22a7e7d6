//! A flag for each PID.

ghost use Rattle.std.specs.Prelude.{◌≡◌, ℕ, ◌==◌, ◌&&◌, ◌<◌, false, not, slice_index_or, if◌then◌else◌};
ghost use Rattle.plug_psi.specs.PidFlags.{AreFlags};
ghost use Rattle.plug_psi.specs.ServicePids.{has_pid};

use ts_packet::{PID_COUNT, PidRow};

/// Sets the flags of those PIDs that are not among the others, and clears the flags of all other PIDs.
pub fn tell(flags: &mut PidRow<bool>, pids: &[u16], others: &[u16])
    ensures { AreFlags flags.new (λ pid. has_pid pids.now pid && not (has_pid others.now pid)) }
{
    flags.fill(false);
    set_all(flags, pids, true);
    set_all(flags, others, false);
}

/// Sets the flags of some PIDs to a value.
fn set_all(flags: &mut PidRow<bool>, pids: &[u16], value: bool)
    ensures { (pid : ℕ) → pid < PID_COUNT
        → slice_index_or flags.new pid false ≡ (if has_pid pids.now pid then value else slice_index_or flags.old pid false) }
{
    for pid in pids {
        set_flag(flags, *pid, value);
    }
}

/// Sets the flag of a PID to a value, if the number is a PID.
fn set_flag(flags: &mut PidRow<bool>, at: u16, value: bool)
    ensures { (pid : ℕ) → pid < PID_COUNT
        → slice_index_or flags.new pid false ≡ (if at == pid then value else slice_index_or flags.old pid false) }
{
    if at < PID_COUNT {
        flags.set(at, value);
    }
}
