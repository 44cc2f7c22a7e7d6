//! Groups of sections, each packed by itself.
ghost use Rattle.std.specs.Prelude.{◌≡◌, ◌<◌, ◌++◌, ◌∷◌, [], IfOk, OnOk, filter, if◌then◌else◌};
ghost use Rattle.ts_packet.specs.declared.numbers.TheConstants.{NULL_PID};
ghost use Rattle.ts_packetize.specs.Packets.{packets_of};
ghost use Rattle.plug_inject.specs.Contents.{grouped, groups_for, is_named, packed_each};
ghost use Rattle.plug_inject.specs.GroupsMade.{named_or_not};

use std::alloc::{AllocError, Global};
use std::marker::Model;
use std::slice;
use ts_packet::NULL_PID;
use ts_packetize::{PacketList, packets};
use ts_section::Section;

/// Sections that are given one after another, over and over; there is at least one.
#[derive(Drop)]
pub struct Group {
    /// How far the packets with which two of them begin are apart at least, where other sections can be given in
    /// between.
    pub(crate) distance: u64,
    /// The packets of each of them.
    pub(crate) sections: Vec<PacketList>,
}

impl Model for Group {
    ghost use Rattle.std.specs.Prelude.{◌<◌, length};
    ghost use Rattle.plug_inject.specs.Contents;

    ghost Value = { Contents.Group };

    ghost view = { λ g. record { distance = g.distance; sections = g.sections.items } };

    ghost invariant = { λ g. 0 < length g.sections.items };
}

/// Whether one of the pairs names the table of a section.
fn is_named(pairs: &[(u64, u64)], section: &Section) -> bool
    ensures { result ≡ is_named pairs.now section.now }
{
    let table_id = u64::from(section.table_id());
    pairs.iter().any(|pair| table_id == pair.0)
}

/// Whether one of the pairs names the table of a section, or none does.
fn is_wanted(pairs: &[(u64, u64)], named: bool, section: &Section) -> bool
    ensures { result ≡ named_or_not pairs.now named section.now }
{
    if named {
        is_named(pairs, section)
    } else {
        !is_named(pairs, section)
    }
}

/// Appends the packets of a section, where it is wanted.
fn add_packed(
    alloc: Global,
    pid: u16,
    section: &Section,
    wanted: bool,
    list: &mut Vec<PacketList>,
) -> Result<(), AllocError>
    requires { pid < NULL_PID }
    ensures { OnOk result (list.new.items
        ≡ list.old.items ++ (if wanted then packets_of pid (section.now ∷ []) ∷ [] else [])) }
{
    if wanted {
        list.push(packets(alloc, pid, slice::from_ref(section))?)?;
    }
    Ok(())
}

/// The packets of each section of the tables that one of the pairs names, or that none of them does.
fn packed(
    alloc: Global,
    pid: u16,
    sections: &[Section],
    pairs: &[(u64, u64)],
    named: bool,
) -> Result<Vec<PacketList>, AllocError>
    requires { pid < NULL_PID }
    ensures { IfOk result (λ list. list.items ≡ packed_each pid (filter (named_or_not pairs.now named) sections.now)) }
{
    let mut list = Vec::new(alloc);
    for section in sections {
        let wanted = is_wanted(pairs, named, section);
        add_packed(alloc, pid, section, wanted, &mut list)?;
    }
    Ok(list)
}

/// Appends a group of these sections, where there are any.
fn add_group(
    groups: &mut Vec<Group>,
    distance: u64,
    sections: Vec<PacketList>,
) -> Result<(), AllocError>
    ensures { OnOk result (groups.new.items ≡ groups.old.items ++ grouped distance sections.items) }
{
    if !sections.as_slice().is_empty() {
        groups.push(Group { distance, sections })?;
    }
    Ok(())
}

/// The groups of the pairs, and that of the tables that none of them names.
pub(crate) fn groups(
    alloc: Global,
    pid: u16,
    pairs: &[(u64, u64)],
    sections: &[Section],
) -> Result<Vec<Group>, AllocError>
    requires { pid < NULL_PID }
    ensures { IfOk result (λ list. list.items ≡ groups_for pid pairs.now sections.now) }
{
    let mut list = Vec::new(alloc);
    for pair in pairs {
        let own = packed(alloc, pid, sections, slice::from_ref(pair), true)?;
        add_group(&mut list, pair.1, own)?;
    }
    let others = packed(alloc, pid, sections, pairs, false)?;
    add_group(&mut list, 1, others)?;
    Ok(list)
}
