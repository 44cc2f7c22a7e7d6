//! Tests of PAT, CAT and PMT: worked rows, and each call that allocates, once with enough memory.

ghost use Rattle.std.specs.Prelude.{◌≡◌};
ghost use Rattle.ts_psi.specs.CatTables.{cat_held};
ghost use Rattle.ts_psi.specs.PatTables.{pat_held};
ghost use Rattle.ts_psi.specs.PsiTables.{pmt_held};

use crate::compared::{are_so_many, got, same, same_bytes};
use crate::tables_of_bytes::{is_one_section, is_one_section_of, long_descriptors, run_of};
use std::process::Abort;
use ts_bits::DescriptorList;
use ts_psi::{Cat, Component, ComponentList, Pat, PatService, PatServiceList, Pmt};
use ts_section::{Section, TableRun};
use ts_table_rows::TableRefusal;

/// A PAT of transport stream 1 with service 1 on PID 4096, as many multiplexers write it.
static PAT: [u8; 16] = [
    0x00, 0xB0, 0x0D, 0x00, 0x01, 0xC1, 0x00, 0x00, 0x00, 0x01, 0xF0, 0x00, 0x2A, 0xB1, 0x04, 0xB2,
];

/// A PAT after writing and reading its sections.
fn pat_again(rt: &(impl Abort + AllocGlobal), pat: &Pat) -> Pat
    ensures { pat_held result ≡ pat_held pat.now }
{
    let sections = got(rt, pat.sections(rt.alloc()));
    let run = got(rt, TableRun::of(sections));
    got(rt, Pat::read(rt.alloc(), &run))
}

/// A CAT after writing and reading its sections.
fn cat_again(rt: &(impl Abort + AllocGlobal), cat: &Cat) -> Cat
    ensures { cat_held result ≡ cat_held cat.now }
{
    let sections = got(rt, cat.sections(rt.alloc()));
    let run = got(rt, TableRun::of(sections));
    got(rt, Cat::read(rt.alloc(), &run))
}

/// A PMT after writing and reading its section.
fn pmt_again(rt: &(impl Abort + AllocGlobal), pmt: &Pmt) -> Pmt
    ensures { pmt_held result ≡ pmt_held pmt.now }
{
    let sections = got(rt, pmt.sections(rt.alloc()));
    let run = got(rt, TableRun::of(sections));
    got(rt, Pmt::read(rt.alloc(), &run))
}

/// A copy of the PAT of these bytes.
fn copied_pat(rt: &(impl Abort + AllocGlobal)) -> Pat {
    let run = run_of(rt, &PAT);
    let pat = got(rt, Pat::read(rt.alloc(), &run));
    got(rt, pat.copy())
}

/// Checks the fields of that PAT.
fn is_the_pat(rt: &impl Abort, pat: &Pat) {
    same(rt, (pat.version, pat.current, pat.stream_id), (0, true, 1));
    same(rt, pat.network_pid, None);
    let services = pat.services.as_slice();
    are_so_many(rt, services.len(), 1);
    same(rt, (services[0].service_id, services[0].pid), (1, 4096));
}

#[test]
fn a_pat(rt: HostRuntime) {
    let pat = copied_pat(&rt);
    is_the_pat(&rt, &pat);
    is_one_section(&rt, &got(&rt, pat.sections(rt.alloc())), &PAT);
}

/// A PAT with a network PID and a service.
fn with_a_network(rt: &(impl Abort + AllocGlobal)) -> Pat {
    let service = PatService {
        service_id: 7,
        pid: 256,
    };
    let services = got(rt, vec![in rt.alloc(); service]);
    Pat {
        version: 3,
        current: true,
        stream_id: 2,
        network_pid: Some(16),
        services: PatServiceList::of(services),
    }
}

/// Checks that there is one section, with this body.
fn is_one_body(rt: &impl Abort, sections: &[Section], body: &[u8]) {
    are_so_many(rt, sections.len(), 1);
    same_bytes(rt, sections[0].body(), body);
}

/// Checks a PAT after writing and reading its sections.
fn comes_again(rt: &(impl Abort + AllocGlobal), pat: &Pat) {
    let again = pat_again(rt, pat);
    same(rt, again.network_pid, Some(16));
    same(rt, again.services.as_slice().len(), 1);
}

#[test]
fn a_network_entry(rt: HostRuntime) {
    let pat = with_a_network(&rt);
    let sections = got(&rt, pat.sections(rt.alloc()));
    is_one_body(&rt, &sections, &[0, 0, 0xE0, 0x10, 0, 7, 0xE1, 0]);
    comes_again(&rt, &pat);
}

/// A CAT without descriptors.
fn empty_cat(rt: &(impl Abort + AllocGlobal)) -> Cat {
    Cat {
        version: 0,
        current: true,
        descriptors: DescriptorList::of(Vec::new(rt.alloc())),
    }
}

/// The sections of a copy of that CAT.
fn empty_sections(rt: &(impl Abort + AllocGlobal)) -> Vec<Section> {
    let cat = empty_cat(rt);
    got(rt, got(rt, cat.copy()).sections(rt.alloc()))
}

#[test]
fn an_empty_cat(rt: HostRuntime) {
    let bytes = [
        0x01, 0xB0, 0x09, 0xFF, 0xFF, 0xC1, 0x00, 0x00, 0xD6, 0x6D, 0xA2, 0x42,
    ];
    is_one_section(&rt, &empty_sections(&rt), &bytes);
    let again = cat_again(&rt, &empty_cat(&rt));
    same(&rt, again.descriptors.as_slice().len(), 0);
}

/// One component without descriptors.
fn one_component(rt: &(impl Abort + AllocGlobal)) -> ComponentList {
    let component = Component {
        stream_type: 2,
        pid: 256,
        descriptors: DescriptorList::of(Vec::new(rt.alloc())),
    };
    ComponentList::of(got(rt, vec![in rt.alloc(); component]))
}

/// A PMT with four descriptors, the last of `last` bytes.
fn pmt_with(rt: &(impl Abort + AllocGlobal), last: usize) -> Pmt {
    let descriptors = long_descriptors(rt, 3, last);
    let components = one_component(rt);
    Pmt {
        version: 0,
        current: true,
        service_id: 1,
        pcr_pid: 256,
        descriptors,
        components,
    }
}

/// Why a PMT that is one byte too long has no section.
fn past(rt: &(impl Abort + AllocGlobal)) -> Option<TableRefusal> {
    pmt_with(rt, 231).sections(rt.alloc()).err()
}

/// Checks the section of a copy of the longest PMT.
fn is_longest(rt: &(impl Abort + AllocGlobal), pmt: &Pmt) {
    let copied = got(rt, pmt.copy());
    is_one_section_of(rt, &got(rt, copied.sections(rt.alloc())), 1024);
}

#[test]
fn the_longest_pmt(rt: HostRuntime) {
    same(&rt, past(&rt), Some(TableRefusal::TooLarge { bytes: 1022 }));
    let pmt = pmt_with(&rt, 230);
    is_longest(&rt, &pmt);
    let again = pmt_again(&rt, &pmt);
    same(&rt, again.descriptors.as_slice().len(), 4);
    same(&rt, again.components.as_slice().len(), 1);
}
