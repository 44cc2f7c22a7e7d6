//! The refusals of plugins.

/// Why a plugin refuses a packet.
#[derive(Debug, Clone, Copy, PartialEq, Eq)]
pub enum Reason {
    /// The packet is on this PID, which the plugin was to fill from another one.
    Pid(u16),
}

impl Reason {
    ghost use Rattle.std.specs.Prelude.{◌≡◌};
    ghost use Rattle.chain_model.specs.Reasons.{refused_pid};

    /// The PID of the packet that is refused.
    pub fn pid(self) -> u16
        ensures { result ≡ refused_pid self }
    {
        match self {
            Reason::Pid(pid) => pid,
        }
    }
}
