//! The description of a service in the SDT in force.
ghost use Rattle.std.specs.Prelude.{◌≡◌, map, option_map};
ghost use Rattle.std.specs.Option.{option_copied};
ghost use Rattle.ts_si.specs.SiTables.{sdt_held, service_item};
ghost use Rattle.named_services.specs.SdtInForce.{body_with, described_in, service_body};

use ts_bits::Descriptor;
use ts_si::{Sdt, SdtService};

/// The tag of a service_descriptor (ETSI EN 300 468, 6.2.33).
const SERVICE_TAG: u8 = 0x48;

/// The service_descriptor of a service in an SDT.
pub fn service_body(sdt: Option<&Sdt>, id: u16) -> Option<&[u8]>
    ensures { option_map (λ b. b.now) result ≡ service_body (option_map sdt_held (option_copied sdt.entry)) id }
{
    body_with(SERVICE_TAG, described_in(sdt?.services.as_slice(), id))
}

// The descriptors of the first service with a service_id.
fn described_in(services: &[SdtService], id: u16) -> &[Descriptor]
    ensures { result.now ≡ described_in id (map service_item services.now) }
{
    for service in services {
        if service.service_id == id {
            return service.descriptors.as_slice();
        }
    }
    &[]
}

/// The body of the first descriptor with a tag.
pub fn body_with(tag: u8, descriptors: &[Descriptor]) -> Option<&[u8]>
    ensures { option_map (λ b. b.now) result ≡ body_with tag descriptors.now }
{
    for descriptor in descriptors {
        if descriptor.tag() == tag {
            return Some(descriptor.body());
        }
    }
    None
}
