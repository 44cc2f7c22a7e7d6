//! What `pmt` changes of the descriptors of components.

ghost use Rattle.std.specs.Prelude.{◌≡◌, ◌<◌, IfOk, OnOk, fold, length, map};
ghost use Rattle.std.specs.List.{All, list_any};
ghost use Rattle.ts_packet.specs.declared.numbers.TheConstants.{PID_COUNT};
ghost use Rattle.ts_psi.specs.PsiTables.{component_item};
ghost use Rattle.plug_edit.specs.PmtChanges.{changed_components, component_without, described_as, is_named, spoken, with_code, with_descriptors, with_more, without_named};
ghost use Rattle.plug_edit.specs.PmtSettings.{AreValidChanges, IsPlaced, IsSpoken};

use crate::change_program::add_descriptors;
use crate::language::with_language;
use crate::pmt_changes::PmtChanges;
use crate::pmt_edit::place_of;
use std::alloc::{AllocError, Global};
use ts_bits::{Descriptor, DescriptorList};
use ts_outside::FileBytes;
use ts_psi::Component;
use ts_table_rows::Item;

/// The components after the changes of their descriptors.
pub(crate) fn change_components(
    alloc: Global,
    changes: &PmtChanges,
    components: Vec<Component>,
) -> Result<Vec<Component>, AllocError>
    requires { AreValidChanges changes.now }
    ensures { IfOk result (λ v. map component_item v.items
        ≡ changed_components changes.now (map component_item components.items)) }
{
    let mut changed = all_without(alloc, components, changes.remove_pid_descriptor.as_slice())?;
    set_languages(alloc, &mut changed, changes.language.as_slice())?;
    place_descriptors(alloc, &mut changed, changes.add_pid_descriptor.as_slice())?;
    Ok(changed)
}

/// The components without the descriptors whose tags are paired with their PIDs.
fn all_without(
    alloc: Global,
    components: Vec<Component>,
    pairs: &[(u64, u64)],
) -> Result<Vec<Component>, AllocError>
    ensures { IfOk result (λ v. map component_item v.items
        ≡ map (component_without pairs.now) (map component_item components.items)) }
{
    let mut left = Vec::new(alloc);
    for component in components {
        left.push(without(component, pairs))?;
    }
    Ok(left)
}

/// A component without the descriptors whose tags are paired with its PID.
fn without(component: Component, pairs: &[(u64, u64)]) -> Component
    ensures { component_item result ≡ component_without pairs.now (component_item component) }
{
    let Component {
        stream_type,
        pid,
        descriptors,
    } = component;
    let mut left = descriptors.into_vec();
    remove_named(&mut left, pairs, u64::from(pid));
    Component {
        stream_type,
        pid,
        descriptors: DescriptorList::of(left),
    }
}

/// Removes the descriptors whose tags are paired with the PID.
fn remove_named(descriptors: &mut Vec<Descriptor>, pairs: &[(u64, u64)], pid: u64)
    ensures { descriptors.new.items ≡ without_named pairs.now pid descriptors.old.items }
{
    descriptors.retain(|descriptor| !is_paired(pairs, pid, u64::from(descriptor.tag())));
}

/// Whether the tag is paired with the PID.
fn is_paired(pairs: &[(u64, u64)], pid: u64, tag: u64) -> bool
    ensures { result ≡ list_any (is_named pid tag) pairs.now }
{
    pairs.iter().any(|pair| pair.0 == pid && pair.1 == tag)
}

/// Sets languages, one after another.
fn set_languages(
    alloc: Global,
    components: &mut Vec<Component>,
    languages: &[(u64, FileBytes)],
) -> Result<(), AllocError>
    requires { All IsSpoken languages.now }
    ensures { OnOk result (map component_item components.new.items
        ≡ fold with_code (map component_item components.old.items) languages.now) }
{
    for language in languages {
        set_language(alloc, components, language.0 as u16, language.1.as_slice())?;
    }
    Ok(())
}

/// Sets the language of the first component on a PID.
fn set_language(
    alloc: Global,
    components: &mut Vec<Component>,
    pid: u16,
    code: &[u8],
) -> Result<(), AllocError>
    requires { length code.now ≡ 3 }
    ensures { OnOk result (map component_item components.new.items
        ≡ with_code (map component_item components.old.items) (pid, code.now)) }
{
    let Some(place) = place_of(components, pid) else {
        return Ok(());
    };
    let component = components[place].copy()?;
    components[place] = spoken_component(alloc, component, code)?;
    Ok(())
}

/// A component with its language set.
fn spoken_component(
    alloc: Global,
    component: Component,
    code: &[u8],
) -> Result<Component, AllocError>
    requires { length code.now ≡ 3 }
    ensures { IfOk result (λ c. component_item c ≡ described_as (spoken code.now) (component_item component)) }
{
    let Component {
        stream_type,
        pid,
        descriptors,
    } = component;
    let descriptors = with_language(alloc, descriptors.into_vec(), code)?;
    Ok(Component {
        stream_type,
        pid,
        descriptors: DescriptorList::of(descriptors),
    })
}

/// Puts descriptors behind those of components, one after another.
fn place_descriptors(
    alloc: Global,
    components: &mut Vec<Component>,
    placed: &[(u64, FileBytes)],
) -> Result<(), AllocError>
    requires { All IsPlaced placed.now }
    ensures { OnOk result (map component_item components.new.items
        ≡ fold with_descriptors (map component_item components.old.items) placed.now) }
{
    for given in placed {
        place_behind(alloc, components, given.0 as u16, given.1.as_slice())?;
    }
    Ok(())
}

/// Puts descriptors behind those of the first component on a PID.
fn place_behind(
    alloc: Global,
    components: &mut Vec<Component>,
    pid: u16,
    bytes: &[u8],
) -> Result<(), AllocError>
    ensures { OnOk result (map component_item components.new.items
        ≡ with_descriptors (map component_item components.old.items) (pid, bytes.now)) }
{
    let Some(place) = place_of(components, pid) else {
        return Ok(());
    };
    let component = components[place].copy()?;
    components[place] = described_component(alloc, component, bytes)?;
    Ok(())
}

/// A component with descriptors behind its own.
fn described_component(
    alloc: Global,
    component: Component,
    bytes: &[u8],
) -> Result<Component, AllocError>
    ensures { IfOk result (λ c. component_item c ≡ described_as (with_more bytes.now) (component_item component)) }
{
    let Component {
        stream_type,
        pid,
        descriptors,
    } = component;
    let mut all = descriptors.into_vec();
    add_descriptors(alloc, &mut all, bytes)?;
    Ok(Component {
        stream_type,
        pid,
        descriptors: DescriptorList::of(all),
    })
}
