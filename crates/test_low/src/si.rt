//! Tests of NIT, SDT and BAT: worked rows, and each call that allocates, once with enough memory.

use crate::compared::{are_so_many, got, same};
use crate::tables_of_bytes::{is_one_section, run_of};
use std::process::Abort;
use ts_bits::DescriptorList;
use ts_section::{Section, TableRun};
use ts_si::{Bat, Nit, NitStream, NitStreamList, Sdt, SdtService};

/// A NIT of network 0x3001, of another than the actual network, with a name and two transport streams, the second of
/// which has a service_list_descriptor.
static NIT: [u8; 38] = [
    0x41, 0xF0, 0x23, 0x30, 0x01, 0xCB, 0x00, 0x00, 0xF0, 0x05, 0x40, 0x03, 0x6E, 0x65, 0x74, 0xF0,
    0x11, 0x00, 0x01, 0x20, 0xFA, 0xF0, 0x00, 0x00, 0x02, 0x20, 0xFB, 0xF0, 0x05, 0x41, 0x03, 0x00,
    0x01, 0x01, 0x1B, 0xC1, 0xBB, 0x55,
];

/// An SDT as ffmpeg writes it: one running service with its name.
static SDT: [u8; 56] = [
    0x42, 0xF0, 0x35, 0x04, 0x51, 0xC1, 0x00, 0x00, 0x20, 0xFA, 0xFF, 0x03, 0x01, 0xFC, 0x80, 0x24,
    0x48, 0x22, 0x01, 0x0D, 0x15, 0x54, 0xC3, 0xA9, 0x6C, 0xC3, 0xA9, 0x20, 0x44, 0xC3, 0xA9, 0x6D,
    0x6F, 0x12, 0x15, 0x50, 0x72, 0x65, 0x6D, 0x69, 0xC3, 0xA8, 0x72, 0x65, 0x20, 0x43, 0x68, 0x61,
    0xC3, 0xAE, 0x6E, 0x65, 0xB2, 0xFC, 0xAC, 0x2B,
];

/// A BAT of bouquet 0x1234 with one transport stream.
static BAT: [u8; 22] = [
    0x4A, 0xF0, 0x13, 0x12, 0x34, 0xC1, 0x00, 0x00, 0xF0, 0x00, 0xF0, 0x06, 0x00, 0x01, 0x20, 0xFA,
    0xF0, 0x00, 0x12, 0x01, 0x74, 0x32,
];

/// A copy of the NIT of these bytes.
fn copied_nit(rt: &(impl Abort + AllocGlobal)) -> Nit {
    let run = run_of(rt, &NIT);
    let nit = got(rt, Nit::read(rt.alloc(), &run));
    got(rt, nit.copy())
}

/// Checks its streams.
fn are_its_streams(rt: &impl Abort, streams: &[NitStream]) {
    are_so_many(rt, streams.len(), 2);
    let second = &streams[1];
    same(rt, (second.stream_id, second.original_id), (2, 0x20FB));
    same(rt, second.descriptors.as_slice().len(), 1);
}

/// Checks the fields of that NIT.
fn is_the_nit(rt: &impl Abort, nit: &Nit) {
    same(rt, (nit.actual, nit.version, nit.current), (false, 5, true));
    same(rt, nit.network_id, 0x3001);
    same(rt, nit.descriptors.as_slice().len(), 1);
    are_its_streams(rt, nit.streams.as_slice());
}

#[test]
fn a_nit(rt: HostRuntime) {
    let nit = copied_nit(&rt);
    is_the_nit(&rt, &nit);
    is_one_section(&rt, &got(&rt, nit.sections(rt.alloc())), &NIT);
}

/// A copy of the SDT of these bytes.
fn copied_sdt(rt: &(impl Abort + AllocGlobal)) -> Sdt {
    let run = run_of(rt, &SDT);
    let sdt = got(rt, Sdt::read(rt.alloc(), &run));
    got(rt, sdt.copy())
}

/// Checks its only service.
fn is_its_service(rt: &impl Abort, services: &[SdtService]) {
    are_so_many(rt, services.len(), 1);
    let service = &services[0];
    same(rt, (service.service_id, service.running), (0x0301, 4));
    let flags = [service.schedule, service.present, service.free_ca];
    same(rt, flags, [false; 3]);
}

/// Checks the fields of that SDT.
fn is_the_sdt(rt: &impl Abort, sdt: &Sdt) {
    let ids = (sdt.actual, sdt.stream_id, sdt.original_id);
    same(rt, ids, (true, 0x0451, 0x20FA));
    is_its_service(rt, sdt.services.as_slice());
}

#[test]
fn an_sdt(rt: HostRuntime) {
    let sdt = copied_sdt(&rt);
    is_the_sdt(&rt, &sdt);
    is_one_section(&rt, &got(&rt, sdt.sections(rt.alloc())), &SDT);
}

/// One transport stream without descriptors.
fn one_stream(rt: &(impl Abort + AllocGlobal)) -> NitStreamList {
    let stream = NitStream {
        stream_id: 1,
        original_id: 0x20FA,
        descriptors: DescriptorList::of(Vec::new(rt.alloc())),
    };
    NitStreamList::of(got(rt, vec![in rt.alloc(); stream]))
}

/// A BAT of that transport stream.
fn bat(rt: &(impl Abort + AllocGlobal)) -> Bat {
    let streams = one_stream(rt);
    Bat {
        version: 0,
        current: true,
        bouquet_id: 0x1234,
        descriptors: DescriptorList::of(Vec::new(rt.alloc())),
        streams,
    }
}

/// The sections of a copy of it.
fn bat_sections(rt: &(impl Abort + AllocGlobal)) -> Vec<Section> {
    let copied = got(rt, bat(rt).copy());
    got(rt, copied.sections(rt.alloc()))
}

#[test]
fn a_bat(rt: HostRuntime) {
    let sections = bat_sections(&rt);
    is_one_section(&rt, &sections, &BAT);
    let run = got(&rt, TableRun::of(sections));
    let again = got(&rt, Bat::read(rt.alloc(), &run));
    same(&rt, again.streams.as_slice().len(), 1);
}
