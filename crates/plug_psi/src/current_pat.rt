//! The PAT in force.

ghost use Rattle.std.specs.Prelude.{◌≡◌, ℕ, ◌==◌, [], List, None, Some, false, map, slice_index_or, IfOk, option_map};
ghost use Rattle.std.specs.List.{filter_map, list_any};
ghost use Rattle.std.specs.Option.{option_copied};
ghost use Rattle.ts_psi.specs.PatTables.{pat_held, service_item};
ghost use Rattle.plug_psi.specs.InForce.{names, pid_for, service_in};

use crate::pat_services::{number_and_pid, pid_among};
use std::alloc::{AllocError, Global};
use std::marker::Model;
use ts_packet::PidRow;
use ts_psi::{Pat, PatService};

/// The PAT in force, if there is one. One look-up says of a PID whether one of its services has it.
#[derive(Drop)]
pub(crate) struct CurrentPat {
    pat: Option<Pat>,
    marks: PidRow<bool>,
}

// Clauses see the PAT.
impl Model for CurrentPat {
    ghost use Rattle.std.specs.Prelude.{Option, option_map};
    ghost use Rattle.ts_psi.specs.PatTables.{pat_held};
    ghost use Rattle.ts_psi.specs.declared.pat.Pat.{Pat};
    ghost use Rattle.plug_psi.specs.PidMarks.{IsMarked};

    ghost Value = { Option Pat };

    ghost view = { λ c. c.pat };

    ghost invariant = { λ c. IsMarked c.marks (option_map pat_held c.pat) };
}

impl CurrentPat {
    /// No PAT is in force. Allocates 8 KiB.
    pub(crate) fn none(alloc: Global) -> Result<CurrentPat, AllocError>
        ensures { IfOk result (λ current. current ≡ None) }
    {
        Ok(CurrentPat {
            pat: None,
            marks: PidRow::filled(alloc, false)?,
        })
    }

    /// The PAT.
    pub(crate) fn as_ref(&self) -> Option<&Pat>
        ensures { option_copied result ≡ self.now }
    {
        self.pat.as_ref()
    }

    /// Whether a service has this PID.
    #[inline]
    pub(crate) fn names(&self, pid: u16) -> bool
        ensures { result ≡ names (option_map pat_held self.now) pid }
    {
        self.marks.get_or(pid, false)
    }

    /// The PID of the first entry of a service.
    pub(crate) fn pid_for(&self, service: u16) -> Option<u16>
        ensures { result ≡ pid_for (option_map pat_held self.now) service }
    {
        match &self.pat {
            Some(pat) => pid_among(pat.services.as_slice(), service),
            None => None,
        }
    }

    /// Another PAT is in force. Allocates nothing.
    pub(crate) fn set(&mut self, pat: Pat)
        ensures { self.new ≡ Some pat }
    {
        mark(&mut self.marks, pat.services.as_slice());
        self.pat = Some(pat);
    }
}

/// Sets the flags of the PIDs of services, and no others.
fn mark(marks: &mut PidRow<bool>, services: &[PatService])
    ensures { (pid : ℕ) → slice_index_or marks.new pid false
        ≡ list_any (λ entry. entry.1 == pid) (filter_map service_in (map service_item services.now)) }
{
    marks.fill(false);
    mark_services(marks, services);
}

/// Sets the flags of the PIDs of services, where no flag is set yet.
fn mark_services(marks: &mut PidRow<bool>, services: &[PatService])
    requires { (pid : ℕ) → slice_index_or marks.old pid false ≡ false }
    ensures { (pid : ℕ) → slice_index_or marks.new pid false
        ≡ list_any (λ entry. entry.1 == pid) (filter_map service_in (map service_item services.now)) }
{
    for service in services {
        let (_, pid) = number_and_pid(service);
        marks.set(pid, true);
    }
}
