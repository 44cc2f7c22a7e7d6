//! Where `pmt` finds the PMTs that it edits.

ghost use Rattle.std.specs.Prelude.{◌≡◌};
ghost use Rattle.plug_edit.specs.PmtEdit.{is_edited_at};

/// Where the PMTs are that `pmt` edits.
#[derive(Clone, Copy)]
pub enum PmtPlace {
    /// On this PID, 0 to 8191, whatever the PAT says of it. On 8191, the PID of null packets, nothing is edited.
    OnPid(u64),
    /// On the PID that the first entry of this service, 1 to 65,535, in the PAT in force has. PMTs of other services
    /// there stay as they are.
    OfService(u64),
}

impl PmtPlace {
    /// Whether the PMT of a service is one that is edited, where it is on the PID.
    pub(crate) fn edits(&self, service: u16) -> bool
        ensures { result ≡ is_edited_at self.now service }
    {
        match *self {
            PmtPlace::OnPid(_) => true,
            PmtPlace::OfService(edited) => u64::from(service) == edited,
        }
    }
}
