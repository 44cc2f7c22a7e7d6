//! Tests of the editors of tables: worked rows of packets before and after.

ghost use Rattle.std.specs.Prelude.{◌≡◌, [], IfOk};

use crate::cells::{are_counted, each_shows, given, live, one_component, packet, packet_of};
use plug_edit::{
    EditCatConf, EditNitConf, EditPatConf, EditPmtConf, EditSdtConf, PmtChanges, PmtPlace,
    new_edit_cat, new_edit_nit, new_edit_pat, new_edit_pmt, new_edit_sdt,
};
use plugin_options::{NumberSet, NumberedParts, PairList};
use plugin_trait::Plugin;
use std::alloc::{AllocError, Global};
use std::process::Abort;
use std::test::Fail;
use ts_bits::DescriptorList;
use ts_outside::{FileBytes, NameText};
use ts_packet::{Cell, Packet};
use ts_psi::{Cat, Component};
use ts_si::{Nit, NitStreamList, Sdt, SdtServiceList};

/// The cells after a plugin processed a packet twice, with counters 5 and 6.
fn edited<P: Plugin + Drop>(
    alloc: Global,
    plugin: Result<P, AllocError>,
    packet: Packet,
) -> Result<Vec<Cell>, Fail>
    requires { IfOk plugin (λ p. P.stands_for p [] 0) }
{
    let mut first = packet;
    first.set_counter(5);
    let mut second = packet;
    second.set_counter(6);
    let cells = vec![in alloc; live(first), live(second)]?;
    Ok(given(plugin, cells)?.1)
}

/// An empty set of numbers.
fn no_numbers(alloc: Global) -> NumberSet
    ensures { result ≡ [] }
{
    NumberSet::of(Vec::new(alloc))
}

/// A packet with a CAT of version 3 without descriptors.
fn cat_packet(alloc: Global) -> Result<Packet, Fail> {
    let cat = Cat {
        version: 3,
        current: true,
        descriptors: DescriptorList::of(Vec::new(alloc)),
    };
    packet_of(alloc, 1, cat.sections(alloc))
}

/// That packet after a CA system was added.
fn with_system(alloc: Global) -> Result<Vec<Cell>, Fail> {
    let packet = cat_packet(alloc)?;
    let added = vec![in alloc; (0x1800, 256)]?;
    let conf = EditCatConf {
        add_ca: PairList::of(added),
        remove_casid: no_numbers(alloc),
        remove_pid: no_numbers(alloc),
        new_version: None,
        increment_version: true,
    };
    edited(alloc, new_edit_cat(alloc, &conf, 1), packet)
}

/// A packet with a PMT of a component on PID 257.
fn pmt_packet(alloc: Global) -> Result<Packet, Fail> {
    let component = Component {
        stream_type: 3,
        pid: 257,
        descriptors: DescriptorList::of(Vec::new(alloc)),
    };
    let pmt = one_component(alloc, 0, component)?;
    packet_of(alloc, 4096, pmt.sections(alloc))
}

/// No changes of descriptors.
fn no_changes(alloc: Global) -> PmtChanges
    ensures languages { result.language ≡ [] }
    ensures systems { result.add_ca ≡ [] }
    ensures placed { result.add_pid_descriptor ≡ [] }
{
    PmtChanges {
        remove_descriptor: no_numbers(alloc),
        remove_pid_descriptor: PairList::of(Vec::new(alloc)),
        language: NumberedParts::of(Vec::new(alloc)),
        add_ca: PairList::of(Vec::new(alloc)),
        add_descriptor: FileBytes::of(Vec::new(alloc)),
        add_pid_descriptor: NumberedParts::of(Vec::new(alloc)),
    }
}

/// That packet after PID 257 was moved.
fn with_a_pid_moved(alloc: Global) -> Result<Vec<Cell>, Fail> {
    let packet = pmt_packet(alloc)?;
    let moved = vec![in alloc; (257, 300)]?;
    let conf = EditPmtConf {
        place: PmtPlace::OnPid(4096),
        add_pid: PairList::of(Vec::new(alloc)),
        remove_pid: no_numbers(alloc),
        move_pid: PairList::of(moved),
        pcr_pid: None,
        changes: no_changes(alloc),
        drop: false,
        stuffing: false,
        new_version: None,
        increment_version: false,
    };
    edited(alloc, new_edit_pmt(alloc, &conf, 1), packet)
}

/// Packets on the PID of a PAT that does not come, after the plugin.
fn without_a_pat(alloc: Global) -> Result<Vec<Cell>, Fail> {
    let conf = EditPatConf {
        add_service: PairList::of(Vec::new(alloc)),
        remove_service: no_numbers(alloc),
        ts_id: Some(5),
        nit: None,
        new_version: None,
        increment_version: false,
    };
    edited(alloc, new_edit_pat(alloc, &conf, 1), packet(0))
}

/// A packet with a NIT without descriptors and transport streams.
fn nit_packet(alloc: Global) -> Result<Packet, Fail> {
    let nit = Nit {
        actual: true,
        version: 0,
        current: true,
        network_id: 1,
        descriptors: DescriptorList::of(Vec::new(alloc)),
        streams: NitStreamList::of(Vec::new(alloc)),
    };
    packet_of(alloc, 16, nit.sections(alloc))
}

/// That packet after its network name was set.
fn with_a_network_name(alloc: Global) -> Result<Vec<Cell>, Fail> {
    let packet = nit_packet(alloc)?;
    let name = String::from_str(alloc, "net")?;
    let conf = EditNitConf {
        remove_ts: no_numbers(alloc),
        network_id: None,
        network_name: Some(NameText::of(name)),
        new_version: None,
        increment_version: false,
    };
    edited(alloc, new_edit_nit(alloc, &conf, 1), packet)
}

/// A packet with an SDT of version 31 without services.
fn sdt_packet(alloc: Global) -> Result<Packet, Fail> {
    let sdt = Sdt {
        actual: true,
        version: 31,
        current: true,
        stream_id: 1,
        original_id: 1,
        services: SdtServiceList::of(Vec::new(alloc)),
    };
    packet_of(alloc, 17, sdt.sections(alloc))
}

/// That packet after a service was set.
fn with_a_service(alloc: Global) -> Result<Vec<Cell>, Fail> {
    let packet = sdt_packet(alloc)?;
    let name = String::from_str(alloc, "one")?;
    let conf = EditSdtConf {
        remove_service: no_numbers(alloc),
        service: Some(1),
        name: Some(NameText::of(name)),
        provider: None,
        service_type: None,
        running_status: None,
        free_ca_mode: None,
        new_version: None,
        increment_version: true,
    };
    edited(alloc, new_edit_sdt(alloc, &conf, 1), packet)
}

/// Which editor: of a CAT, a PMT, a PAT that does not come, a NIT or an SDT.
#[derive(Clone, Copy)]
enum Edit {
    System,
    MovedPid,
    NoPat,
    Network,
    Service,
}

/// The cells of that editor.
fn cells_of(alloc: Global, edit: Edit) -> Result<Vec<Cell>, Fail> {
    match edit {
        Edit::System => with_system(alloc),
        Edit::MovedPid => with_a_pid_moved(alloc),
        Edit::NoPat => without_a_pat(alloc),
        Edit::Network => with_a_network_name(alloc),
        Edit::Service => with_a_service(alloc),
    }
}

static SYSTEM: [u8; 20] = [
    0x00, 0x01, 0xB0, 0x0F, 0xFF, 0xFF, 0xC9, 0x00, 0x00, 0x09, 0x04, 0x18, 0x00, 0xE1, 0x00, 0x72,
    0xA9, 0x5C, 0xD9, 0xFF,
];

static MOVED_PID: [u8; 9] = [0xE1, 0x2C, 0xF0, 0x00, 0x03, 0xE1, 0x2C, 0xF0, 0x00];

static NETWORK: [u8; 7] = [0xF0, 0x05, 0x40, 0x03, 0x6E, 0x65, 0x74];

static SERVICE: [u8; 19] = [
    0xC1, 0x00, 0x00, 0x00, 0x01, 0xFF, 0x00, 0x01, 0xFC, 0x80, 0x08, 0x48, 0x06, 0x01, 0x00, 0x03,
    0x6F, 0x6E, 0x65,
];

/// Checks the bytes of both cells of an editor from an offset on, and their counters.
fn shows(
    rt: &(impl Abort + AllocGlobal),
    edit: Edit,
    from: usize,
    wanted: &[u8],
) -> Result<(), Fail> {
    let cells = cells_of(rt.alloc(), edit)?;
    each_shows(rt, &cells, from, wanted);
    if !matches!(edit, Edit::NoPat) {
        are_counted(rt, &cells);
    }
    Ok(())
}

/// A system is added; a PID is moved without a PAT; no contents give null packets; a network is named; a service is put
/// in.
#[test]
fn editors_write_what_they_were_told(rt: HostRuntime) -> Result<(), Fail> {
    shows(&rt, Edit::System, 4, &SYSTEM)?;
    shows(&rt, Edit::MovedPid, 13, &MOVED_PID)?;
    shows(&rt, Edit::NoPat, 0, Packet::null().bytes())?;
    shows(&rt, Edit::Network, 13, &NETWORK)?;
    shows(&rt, Edit::Service, 10, &SERVICE)
}
