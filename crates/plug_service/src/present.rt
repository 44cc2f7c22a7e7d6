//! What is in force at a packet, as far as edits of tables go by it.

ghost use Rattle.std.specs.Prelude.{◌≡◌, IfOk, true};
ghost use Rattle.plug_service.specs.Present.{hides};

use crate::way::Way;
use named_services::ServiceList;
use std::alloc::{AllocError, Global};

/// What is in force at a packet, as far as edits of tables go by it.
#[derive(Drop)]
pub(crate) struct Present {
    pub(crate) way: Way,
    /// The services that are kept or removed.
    pub(crate) services: ServiceList,
    /// Whether a service is named, and no SDT is in force.
    pub(crate) unknown: bool,
    /// The transport_stream_id of the PAT in force, if there is one.
    pub(crate) stream: Option<u16>,
}

impl Present {
    /// Whether both are the same.
    pub(crate) fn is_same(&self, other: &Present) -> bool
        ensures { result ≡ true → self.now ≡ other.now }
    {
        if !same_way(self.way, other.way) {
            return false;
        }
        if !same_flag(self.unknown, other.unknown) {
            return false;
        }
        if !same_stream(self.stream, other.stream) {
            return false;
        }
        same_services(&self.services, &other.services)
    }

    /// The same in memory of its own.
    pub(crate) fn copy(&self, alloc: Global) -> Result<Present, AllocError>
        ensures { IfOk result (λ present. present ≡ self.now) }
    {
        Ok(Present {
            way: self.way,
            services: self.services.copy(alloc)?,
            unknown: self.unknown,
            stream: self.stream,
        })
    }

    /// Whether no PAT, and no table on PID 17, is carried.
    pub(crate) fn hides(&self) -> bool
        ensures { result ≡ hides self.now.way self.now.unknown }
    {
        match self.way {
            Way::Keep(_) => self.unknown,
            Way::Remove { .. } => false,
        }
    }
}

// Whether both are the same way.
#[inline]
fn same_way(one: Way, other: Way) -> bool
    ensures { result ≡ true → one ≡ other }
{
    one == other
}

// Whether both are the same truth value.
#[inline]
fn same_flag(one: bool, other: bool) -> bool
    ensures { result ≡ true → one ≡ other }
{
    one == other
}

// Whether both are the same number, or none.
#[inline]
fn same_stream(one: Option<u16>, other: Option<u16>) -> bool
    ensures { result ≡ true → one ≡ other }
{
    one == other
}

// Whether both are the same services in the same order.
#[inline]
fn same_services(one: &ServiceList, other: &ServiceList) -> bool
    ensures { result ≡ true → one.now ≡ other.now }
{
    one.as_slice() == other.as_slice()
}
