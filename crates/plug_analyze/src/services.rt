//! The services in force.
ghost use Rattle.std.specs.Prelude.{◌≡◌, ℕ, List, IfOk, Some, option_map};
ghost use Rattle.plug_psi.specs.ForceStands.{StandsFor as IsFed};
ghost use Rattle.plug_psi.specs.InForce.{pmt_of, service_in};
ghost use Rattle.ts_psi.specs.PatTables.{service_item};
ghost use Rattle.plug_analyze.specs.AnalyzeRule.{components_in, service_with, services_in_force};

use crate::change::Change;
use crate::service_count::ServiceCount;
use circular_buffer::HeapCircularBuffer;
use plug_psi::{InForce, both};
use plugin_notes::{pop_below, push_note};
use std::alloc::{AllocError, Global};
use ts_packet::Packet;
use ts_psi::PatService;

/// The tables in force, and the services at each position that may be the cut.
#[derive(Drop)]
pub struct Services {
    force: InForce,
    /// The services in force at the greatest mark.
    services: Vec<ServiceCount>,
    /// Those that came into force from it on.
    changes: HeapCircularBuffer<Change>,
    alloc: Global,
}

impl Services {
    ghost use Rattle.std.specs.Prelude.{◌≡◌, ◌∷◌, ◌++◌, [], ℕ, List, IfOk, IsOk, OnOk, length, false};
    ghost use Rattle.ts_packet.specs.declared.cell.Cell.{Cell as GivenCell};
    ghost use Rattle.ts_packet.specs.Cells.{Live, live_packets};
    ghost use Rattle.ts_packet.specs.Header.{pid_of};
    ghost use Rattle.plug_psi.specs.InForce.{may_have_tables};
    ghost use Rattle.plug_analyze.specs.AnalyzeState.{Serves};
    ghost use Rattle.plug_analyze.specs.ServicesKept.{DropsChanges};

    /// Nothing is in force before the first packet. Allocates room for changes at as many packets as the buffer holds.
    pub fn new(alloc: Global, buffer: usize) -> Result<Services, AllocError>
        ensures serves { IfOk result (λ services. Serves services [] 0) }
        ensures reserved { IfOk result (λ services. services.changes.capacity ≡ buffer) }
    {
        let changes = HeapCircularBuffer::with_capacity(alloc, buffer)?;
        let force = InForce::new(alloc)?;
        let services = services_of(alloc, &force);
        let (force, services) = both(force, services)?;
        Ok(Services {
            force,
            services,
            changes,
            alloc,
        })
    }

    /// Processes the packet at a position, and notes the services in force with it, if they may have changed. After
    /// `AllocError` it is not to be used any more.
    #[inline]
    pub fn meet(&mut self, at: u64, packet: &Packet) -> Result<(), AllocError>
        ensures serves { OnOk result ((history : List GivenCell) (mark : ℕ) → Serves self.old history mark → length history ≡ at → (labels : ℕ)
            → Serves self.new (history ++ Live packet.now labels ∷ []) mark) }
        ensures quiet { (history : List GivenCell) (mark : ℕ) → Serves self.old history mark
            → may_have_tables (pid_of packet.now) (live_packets history) ≡ false → IsOk result }
        ensures reserved { self.new.changes.capacity ≡ self.old.changes.capacity }
    {
        if !self.force.update(at, packet)? {
            return Ok(());
        }
        let services = services_of(self.alloc, &self.force)?;
        push_note(&mut self.changes, Change { at, services })?;
        Ok(())
    }

    /// Removes the changes below a position.
    pub fn fold_below(&mut self, mark: u64)
        ensures folds { DropsChanges mark self.old.services.items self.new.services.items self.old.changes.items self.new.changes.items }
        ensures force { self.new.force ≡ self.old.force }
        ensures reserved { self.new.changes.capacity ≡ self.old.changes.capacity }
    {
        while let Some(change) = pop_below(&mut self.changes, mark) {
            self.services = change.services;
        }
    }

    /// The services in force at the greatest mark.
    pub fn as_slice(&self) -> &[ServiceCount]
        ensures { result.now ≡ self.now.services.items }
    {
        self.services.as_slice()
    }
}

// The services of the PAT in force, in its order.
#[inline(never)]
fn services_of(alloc: Global, force: &InForce) -> Result<Vec<ServiceCount>, AllocError>
    ensures { IfOk result (λ services. (fed : List (List ℕ)) → IsFed force.now fed → services.items ≡ services_in_force fed) }
{
    let mut services = Vec::new(alloc);
    let Some(pat) = force.pat() else {
        return Ok(services);
    };
    let entries = pat.services.as_slice();
    for service in entries {
        services.push(service_count(force, service))?;
    }
    Ok(services)
}

// A service of the PAT in force.
fn service_count(force: &InForce, service: &PatService) -> ServiceCount
    ensures { (fed : List (List ℕ)) → IsFed force.now fed
        → Some result ≡ option_map (service_with (λ id. pmt_of id fed)) (service_in (service_item service.now)) }
{
    ServiceCount {
        id: service.service_id,
        pid: service.pid,
        components: components_of(force, service.service_id),
    }
}

// How many components the PMT in force of a service has.
fn components_of(force: &InForce, service: u16) -> u64
    ensures { (fed : List (List ℕ)) → IsFed force.now fed → result ≡ components_in (pmt_of service fed) }
{
    match force.pmt(service) {
        Some(pmt) => pmt.components.as_slice().len() as u64,
        None => 0,
    }
}
