//! NIT, BAT and SDT of DVB, field by field.

use crate::descriptors::write_descriptors;
use crate::page::PidPage;
use crate::written::write_written;
use ts_section::TableRun;
use ts_si::{Bat, Nit, NitStream, Sdt, SdtService};

/// Writes a NIT: its descriptors, its transport streams and their descriptors, and whether it is written back
/// unchanged.
pub fn write_nit(page: &mut PidPage, run: &TableRun) {
    match Nit::read(page.alloc(), run) {
        Ok(nit) => {
            write_network(page, &nit);
            write_streams(page, nit.streams.as_slice());
            write_written(page, run, nit.sections(page.alloc()));
        }
        Err(fault) => page.not_read("NIT", fault),
    }
}

/// Writes the fields of a NIT and the descriptors of its network.
fn write_network(page: &mut PidPage, nit: &Nit) {
    page.head("NIT", nit.version, nit.current);
    page.field("network_id", &nit.network_id);
    page.field("actual", &nit.actual);
    page.end();
    write_descriptors(page, &nit.descriptors);
}

/// Writes a BAT: its descriptors, its transport streams and their descriptors, and whether it is written back
/// unchanged.
pub fn write_bat(page: &mut PidPage, run: &TableRun) {
    match Bat::read(page.alloc(), run) {
        Ok(bat) => {
            write_bouquet(page, &bat);
            write_streams(page, bat.streams.as_slice());
            write_written(page, run, bat.sections(page.alloc()));
        }
        Err(fault) => page.not_read("BAT", fault),
    }
}

/// Writes the fields of a BAT and the descriptors of its bouquet.
fn write_bouquet(page: &mut PidPage, bat: &Bat) {
    page.head("BAT", bat.version, bat.current);
    page.field("bouquet_id", &bat.bouquet_id);
    page.end();
    write_descriptors(page, &bat.descriptors);
}

/// Writes an SDT: its services and their descriptors, and whether it is written back unchanged.
pub fn write_sdt(page: &mut PidPage, run: &TableRun) {
    match Sdt::read(page.alloc(), run) {
        Ok(sdt) => {
            write_sdt_head(page, &sdt);
            write_services(page, sdt.services.as_slice());
            write_written(page, run, sdt.sections(page.alloc()));
        }
        Err(fault) => page.not_read("SDT", fault),
    }
}

/// Writes the fields of an SDT before its services.
fn write_sdt_head(page: &mut PidPage, sdt: &Sdt) {
    page.head("SDT", sdt.version, sdt.current);
    page.field("stream_id", &sdt.stream_id);
    page.field("original_id", &sdt.original_id);
    page.field("actual", &sdt.actual);
    page.end();
}

/// Writes the services of an SDT, each with its descriptors.
fn write_services(page: &mut PidPage, services: &[SdtService]) {
    for service in services {
        write_service(page, service);
        write_descriptors(page, &service.descriptors);
    }
}

fn write_service(page: &mut PidPage, service: &SdtService) {
    page.begin("service");
    page.field("id", &service.service_id);
    page.field("schedule", &service.schedule);
    page.field("present", &service.present);
    page.field("running", &service.running);
    page.field("free_ca", &service.free_ca);
    page.end();
}

/// Writes the transport streams of a NIT or a BAT, each with its descriptors.
fn write_streams(page: &mut PidPage, streams: &[NitStream]) {
    for stream in streams {
        page.pair(
            "stream id",
            stream.stream_id,
            "original_id",
            stream.original_id,
        );
        write_descriptors(page, &stream.descriptors);
    }
}
