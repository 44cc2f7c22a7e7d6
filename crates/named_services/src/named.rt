//! The services that words mean by an SDT (ETSI EN 300 468, 5.2.3).

ghost use Rattle.std.specs.Prelude.{◌≡◌, IfOk, Some, find, map, option_map};
ghost use Rattle.std.specs.Option.{option_copied};
ghost use Rattle.ts_si.specs.SiTables.{sdt_held, service_item};
ghost use Rattle.named_services.specs.NamedServices;
ghost use Rattle.named_services.specs.NamedServices.{is_named, number_of};

use crate::service_list::ServiceList;
use crate::service_names::name_in;
use crate::service_texts::service_body;
use crate::service_word::ServiceWord;
use crate::word_list::ServiceWords;
use std::alloc::{AllocError, Global};
use ts_charsets::shown_text;
use ts_si::{Sdt, SdtService};

/// The numbers that words mean where this SDT, if any, is in force, each once.
pub fn numbers_by(
    alloc: Global,
    words: &ServiceWords,
    sdt: Option<&Sdt>,
) -> Result<ServiceList, AllocError>
    ensures { IfOk result (λ services. services ≡ NamedServices.numbers_by words.now (option_map sdt_held (option_copied sdt.entry))) }
{
    let services = numbers_of(alloc, words.as_slice(), sdt)?;
    Ok(services)
}

// The numbers that words mean, each once.
fn numbers_of(
    alloc: Global,
    words: &[ServiceWord],
    sdt: Option<&Sdt>,
) -> Result<ServiceList, AllocError>
    ensures { IfOk result (λ services. services ≡ NamedServices.numbers_by words.now (option_map sdt_held (option_copied sdt.entry))) }
{
    let mut services = ServiceList::none(alloc);
    for word in words {
        if let Some(id) = number_by(alloc, word, sdt)? {
            services.add(id)?;
        }
    }
    Ok(services)
}

// The number that a word means.
pub(crate) fn number_by(
    alloc: Global,
    word: &ServiceWord,
    sdt: Option<&Sdt>,
) -> Result<Option<u16>, AllocError>
    ensures { IfOk result (λ id. id ≡ NamedServices.number_by (option_map sdt_held (option_copied sdt.entry)) word.now) }
{
    match word {
        ServiceWord::Number(id) => Ok(Some(*id)),
        ServiceWord::Name(name) => service_named(alloc, name.as_str().as_bytes(), sdt),
    }
}

/// The number of the first service of an SDT whose name is shown so, as UTF-8; `None` without an SDT, and if no service has the
/// name.
pub fn service_named(
    alloc: Global,
    name: &[u8],
    sdt: Option<&Sdt>,
) -> Result<Option<u16>, AllocError>
    ensures { IfOk result (λ id. id ≡ NamedServices.service_named name.now (option_map sdt_held (option_copied sdt.entry))) }
{
    match sdt {
        Some(sdt) => first_named(alloc, name, sdt, sdt.services.as_slice()),
        None => Ok(None),
    }
}

// The first of the numbers of some services of an SDT whose name is shown so.
fn first_named(
    alloc: Global,
    name: &[u8],
    sdt: &Sdt,
    services: &[SdtService],
) -> Result<Option<u16>, AllocError>
    ensures { IfOk result (λ id. id ≡ find (is_named name.now (Some (sdt_held sdt.now))) (map number_of (map service_item services.now))) }
{
    for service in services {
        if has_name(alloc, name, sdt, service.service_id)? {
            return Ok(Some(service.service_id));
        }
    }
    Ok(None)
}

// Whether a number is that of a service with this name: the first one with the number tells it.
fn has_name(alloc: Global, name: &[u8], sdt: &Sdt, id: u16) -> Result<bool, AllocError>
    ensures { IfOk result (λ has. has ≡ is_named name.now (Some (sdt_held sdt.now)) id) }
{
    let Some(bytes) = name_in(service_body(Some(sdt), id)) else {
        return Ok(false);
    };
    match shown_text(alloc, bytes)? {
        Some(shown) => Ok(shown.as_bytes() == name),
        None => Ok(false),
    }
}
