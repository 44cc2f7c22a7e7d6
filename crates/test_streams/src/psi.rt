//! The tables of ISO/IEC 13818-1 (PAT, CAT and PMT), field by field.

use crate::descriptors::write_descriptors;
use crate::page::PidPage;
use crate::written::write_written;
use ts_psi::{Cat, Component, Pat, PatService, Pmt};
use ts_section::TableRun;

/// Writes a PAT: its entries, the network entry as number 0, and whether it is written back unchanged.
pub fn write_pat(page: &mut PidPage, run: &TableRun) {
    match Pat::read(page.alloc(), run) {
        Ok(pat) => {
            write_stream(page, &pat);
            write_services(page, pat.services.as_slice());
            write_written(page, run, pat.sections(page.alloc()));
        }
        Err(fault) => page.not_read("PAT", fault),
    }
}

/// Writes the fields of a PAT and its network entry.
fn write_stream(page: &mut PidPage, pat: &Pat) {
    page.head("PAT", pat.version, pat.current);
    page.field("stream_id", &pat.stream_id);
    page.end();
    if let Some(network) = pat.network_pid {
        page.pair("entry", 0, "pid", network);
    }
}

fn write_services(page: &mut PidPage, services: &[PatService]) {
    for service in services {
        page.pair("entry", service.service_id, "pid", service.pid);
    }
}

/// Writes a CAT: its descriptors, and whether it is written back unchanged.
pub fn write_cat(page: &mut PidPage, run: &TableRun) {
    match Cat::read(page.alloc(), run) {
        Ok(cat) => {
            page.head("CAT", cat.version, cat.current);
            page.end();
            write_descriptors(page, &cat.descriptors);
            write_written(page, run, cat.sections(page.alloc()));
        }
        Err(fault) => page.not_read("CAT", fault),
    }
}

/// Writes a PMT: its descriptors, its components and their descriptors, and whether it is written back unchanged.
pub fn write_pmt(page: &mut PidPage, run: &TableRun) {
    match Pmt::read(page.alloc(), run) {
        Ok(pmt) => {
            write_service(page, &pmt);
            write_components(page, pmt.components.as_slice());
            write_written(page, run, pmt.sections(page.alloc()));
        }
        Err(fault) => page.not_read("PMT", fault),
    }
}

/// Writes the fields of a PMT and the descriptors of its service.
fn write_service(page: &mut PidPage, pmt: &Pmt) {
    page.head("PMT", pmt.version, pmt.current);
    page.field("service_id", &pmt.service_id);
    page.field("pcr", &pmt.pcr_pid);
    page.end();
    write_descriptors(page, &pmt.descriptors);
}

fn write_components(page: &mut PidPage, components: &[Component]) {
    for component in components {
        let stream_type = u16::from(component.stream_type);
        page.pair("component type", stream_type, "pid", component.pid);
        write_descriptors(page, &component.descriptors);
    }
}
