//! The edit of a PMT (ISO/IEC 13818-1, 2.4.4.8).

ghost use Rattle.std.specs.Prelude.{◌≡◌, ◌<◌, IfOk, IfSome, OnOk, length, map, option_map};
ghost use Rattle.std.specs.List.{All, position};
ghost use Rattle.ts_packet.specs.declared.numbers.TheConstants.{PID_COUNT};
ghost use Rattle.ts_psi.specs.PsiTables.{component_item, pmt_held};
ghost use Rattle.plug_edit.specs.PmtEdit;
ghost use Rattle.plug_edit.specs.PmtEdit.{edited_pmt, is_on, moved, moved_by, moved_component, with_component, with_components, without_components};
ghost use Rattle.plug_edit.specs.PmtSettings.{IsAddedComponent, IsValidPmt, IsMove};

use crate::change_components::change_components;
use crate::change_program::change_program;
use crate::numbers::pid_or;
use crate::pmt_conf::EditPmtConf;
use crate::versions::version_after;
use plugin_options::NumberSet;
use std::alloc::{AllocError, Global};
use ts_bits::DescriptorList;
use ts_psi::{Component, ComponentList, Pmt};

/// A PMT after the edit of `pmt`: components are removed, others are added, PIDs are moved, PCR_PID is set, descriptors are
/// taken out and put in, and the version is set. `None` if a CA descriptor would exceed 255 bytes. After `AllocError`
/// nothing of the PMT is left.
pub fn edit_pmt(alloc: Global, conf: &EditPmtConf, pmt: Pmt) -> Result<Option<Pmt>, AllocError>
    requires { IsValidPmt conf.now }
    ensures { IfOk result (λ edited. option_map pmt_held edited ≡ edited_pmt conf.now (pmt_held pmt)) }
{
    let Pmt {
        version,
        current,
        service_id,
        pcr_pid,
        descriptors,
        components,
    } = pmt;
    let Some(descriptors) = change_program(alloc, &conf.changes, descriptors)? else {
        return Ok(None);
    };
    let components = edited_pids(alloc, conf, components.into_vec())?;
    let components = change_components(alloc, &conf.changes, components)?;
    let pcr_pid = pid_or(conf.pcr_pid, moved_pid(pcr_pid, conf.move_pid.as_slice()));
    Ok(Some(Pmt {
        version: version_after(conf.new_version, conf.increment_version, version),
        current,
        service_id,
        pcr_pid,
        descriptors,
        components: ComponentList::of(components),
    }))
}

/// The components with some removed, others added, and PIDs moved.
fn edited_pids(
    alloc: Global,
    conf: &EditPmtConf,
    components: Vec<Component>,
) -> Result<Vec<Component>, AllocError>
    requires { IsValidPmt conf.now }
    ensures { IfOk result (λ v. map component_item v.items
        ≡ PmtEdit.edited_pids conf.now (map component_item components.items)) }
{
    let mut components = components;
    remove_components(&mut components, &conf.remove_pid);
    add_components(alloc, &mut components, conf.add_pid.as_slice())?;
    let components = moved_components(alloc, components, conf.move_pid.as_slice())?;
    Ok(components)
}

/// Removes the components whose PIDs are listed.
fn remove_components(components: &mut Vec<Component>, listed: &NumberSet)
    ensures { map component_item components.new.items
        ≡ without_components listed.now (map component_item components.old.items) }
{
    components.retain(|component| !listed.has(u64::from(component.pid)));
}

/// Adds components, one after another.
fn add_components(
    alloc: Global,
    components: &mut Vec<Component>,
    added: &[(u64, u64)],
) -> Result<(), AllocError>
    requires { All IsAddedComponent added.now }
    ensures { OnOk result (map component_item components.new.items
        ≡ with_components (map component_item components.old.items) added.now) }
{
    for pair in added {
        add_component(alloc, components, pair.0 as u16, pair.1 as u8)?;
    }
    Ok(())
}

/// Sets the type of the first component on a PID, or adds a new component last if none is on it.
fn add_component(
    alloc: Global,
    components: &mut Vec<Component>,
    pid: u16,
    stream_type: u8,
) -> Result<(), AllocError>
    requires { pid < PID_COUNT }
    ensures { OnOk result (map component_item components.new.items
        ≡ with_component (map component_item components.old.items) (pid, stream_type)) }
{
    match place_of(components, pid) {
        Some(place) => {
            components[place].stream_type = stream_type;
        }
        None => components.push(new_component(alloc, stream_type, pid))?,
    }
    Ok(())
}

/// A component without descriptors.
fn new_component(alloc: Global, stream_type: u8, pid: u16) -> Component
    requires { pid < PID_COUNT }
    ensures { component_item result ≡ PmtEdit.new_component stream_type pid }
{
    Component {
        stream_type,
        pid,
        descriptors: DescriptorList::of(Vec::new(alloc)),
    }
}

/// The index of the first component on a PID.
pub(crate) fn place_of(components: &[Component], pid: u16) -> Option<usize>
    ensures place { result ≡ position (is_on pid) components.now }
    ensures in_range { IfSome result (λ i. i < length components.now) }
{
    components.iter().position(|component| component.pid == pid)
}

/// The components with their PIDs moved.
fn moved_components(
    alloc: Global,
    components: Vec<Component>,
    pairs: &[(u64, u64)],
) -> Result<Vec<Component>, AllocError>
    requires { All IsMove pairs.now }
    ensures { IfOk result (λ v. map component_item v.items
        ≡ map (moved_component pairs.now) (map component_item components.items)) }
{
    let mut moved = Vec::new(alloc);
    for component in components {
        moved.push(moved_to(component, pairs))?;
    }
    Ok(moved)
}

/// A component with its PID moved.
fn moved_to(component: Component, pairs: &[(u64, u64)]) -> Component
    requires { All IsMove pairs.now }
    ensures { component_item result ≡ moved_component pairs.now (component_item component) }
{
    let Component {
        stream_type,
        pid,
        descriptors,
    } = component;
    Component {
        stream_type,
        pid: moved_pid(pid, pairs),
        descriptors,
    }
}

/// The PID that a PID becomes after all moves, one after another.
fn moved_pid(pid: u16, pairs: &[(u64, u64)]) -> u16
    requires moves { All IsMove pairs.now }
    requires in_range { pid < PID_COUNT }
    ensures pid { result ≡ moved_by pid pairs.now }
    ensures in_range { result < PID_COUNT }
{
    let mut becomes = pid;
    for pair in pairs {
        becomes = moved_once(becomes, pair);
    }
    becomes
}

/// The PID that a PID becomes after one move.
fn moved_once(pid: u16, pair: &(u64, u64)) -> u16
    requires moves { IsMove pair.now }
    requires in_range { pid < PID_COUNT }
    ensures pid { result ≡ moved pid pair.now }
    ensures in_range { result < PID_COUNT }
{
    if u64::from(pid) == pair.0 {
        pair.1 as u16
    } else {
        pid
    }
}
