//! The number of the one service that a word means.

ghost use Rattle.std.specs.Prelude.{◌≡◌, slice_get};

use named_services::ServiceList;

/// The first of the numbers of services; `None` where there is none.
pub fn first_number(services: &ServiceList) -> Option<u16>
    ensures { result ≡ slice_get services.now 0 }
{
    services.as_slice().first().copied()
}
