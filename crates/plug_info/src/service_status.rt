//! What the SDT says of the access to a service and of its state.
ghost use Rattle.std.specs.Prelude.{◌≡◌, map, option_map};
ghost use Rattle.std.specs.Option.{option_copied};
ghost use Rattle.ts_psi.specs.PsiTables.{pmt_held};
ghost use Rattle.ts_si.specs.SiTables.{sdt_held, service_item};
ghost use Rattle.plug_info.specs.CaSystems.{program_descriptors};
ghost use Rattle.plug_info.specs.SdtStatus.{service_status, status_in};

use ts_bits::Descriptor;
use ts_psi::Pmt;
use ts_si::{Sdt, SdtService};

/// free_CA_mode and running_status of a service in an SDT (ETSI EN 300 468, 5.2.3).
pub fn service_status(sdt: Option<&Sdt>, id: u16) -> Option<(u8, u8)>
    ensures { result ≡ service_status (option_map sdt_held (option_copied sdt.entry)) id }
{
    match sdt {
        Some(sdt) => status_in(sdt.services.as_slice(), id),
        None => None,
    }
}

// Those of the first service with a service_id.
fn status_in(services: &[SdtService], id: u16) -> Option<(u8, u8)>
    ensures { result ≡ status_in id (map service_item services.now) }
{
    for service in services {
        if service.service_id == id {
            return Some((u8::from(service.free_ca), service.running));
        }
    }
    None
}

/// The descriptors of the program in a PMT.
pub fn program_descriptors(pmt: Option<&Pmt>) -> &[Descriptor]
    ensures { result.now ≡ program_descriptors (option_map pmt_held (option_copied pmt.entry)) }
{
    match pmt {
        Some(pmt) => pmt.descriptors.as_slice(),
        None => &[],
    }
}
