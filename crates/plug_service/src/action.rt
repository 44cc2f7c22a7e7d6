//! What becomes of the packets on a PID.

/// What becomes of the packets on a PID.
#[derive(Clone, Copy, PartialEq, Eq)]
pub(crate) enum Action {
    /// They carry the edited PATs.
    EditPat,
    /// They carry the edited SDTs and BATs.
    EditSdt,
    /// They carry the edited NITs.
    EditNit,
    /// They carry the EIT sections of the services alone, or those of all others.
    EditEit,
    /// They carry the PMTs of the services alone.
    EditPmt,
    /// They pass.
    Pass,
    /// They do not pass.
    Drop,
}
