//! The services of a command line.

ghost use Rattle.std.specs.Prelude.{◌≡◌, [], IfOk, OnOk, length};
ghost use Rattle.named_services.specs.ServiceLists.{is_one, with_service};

use std::alloc::{AllocError, Global};
use std::marker::Model;

/// The numbers of services, each once. Contracts see the list of them.
#[derive(Drop)]
pub struct ServiceList {
    numbers: Vec<u16>,
}

impl Model for ServiceList {
    ghost use Rattle.std.specs.Prelude.{List, ℕ};

    ghost Value = { List ℕ };

    ghost view = { λ s. s.numbers.items };
}

impl ServiceList {
    /// No service.
    pub fn none(alloc: Global) -> ServiceList
        ensures { result ≡ [] }
    {
        ServiceList {
            numbers: Vec::new(alloc),
        }
    }

    /// Adds a service, unless it is there.
    pub fn add(&mut self, id: u16) -> Result<(), AllocError>
        ensures { OnOk result (self.new ≡ with_service self.old id) }
    {
        if self.has(id) {
            return Ok(());
        }
        self.numbers.push(id)?;
        Ok(())
    }

    /// Whether a number is that of one of the services.
    pub fn has(&self, id: u16) -> bool
        ensures { result ≡ is_one self.now id }
    {
        self.numbers.iter().any(|service| id == *service)
    }

    /// How many services there are.
    pub fn len(&self) -> usize
        ensures { result ≡ length self.now }
    {
        self.numbers.len()
    }

    /// The numbers as a slice.
    pub fn as_slice(&self) -> &[u16]
        ensures { result.now ≡ self.now }
    {
        self.numbers.as_slice()
    }

    /// The same services in memory of their own.
    pub fn copy(&self, alloc: Global) -> Result<ServiceList, AllocError>
        ensures { IfOk result (λ services. services ≡ self.now) }
    {
        let numbers = Vec::from_slice(alloc, self.numbers.as_slice())?;
        Ok(ServiceList { numbers })
    }
}
