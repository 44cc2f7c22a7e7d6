//! The flow of a PID.

ghost use Rattle.std.specs.Prelude.{◌≡◌, ℕ, ◌<◌, ◌++◌, ◌∷◌, ◌||◌, [], List, true, IfOk, OnOk, OnErr, IsErr};
ghost use Rattle.std.specs.List.{filter_map, list_any};
ghost use Rattle.std.specs.Option.{option_to_list};
ghost use Rattle.ts_demux.specs.DemuxState as demuxing;
ghost use Rattle.ts_demux.specs.SectionsOfPid.{sections_of_pid};
ghost use Rattle.section_flow.specs.Flow.{Edit, alters, completed_by, is_altered, replaced};
ghost use Rattle.section_flow.specs.FlowState.{Joins};
ghost use Rattle.section_flow.specs.FlowStands.{outcome};

use crate::edit::{SectionChange, SectionEdit};
use crate::packing::Packing;
use std::alloc::{AllocError, Global};
use ts_demux::{Demux, FailureLatch};
use ts_packet::{NULL_PID, Packet};
use ts_section::Section;

/// Edits the sections of one PID as they pass (ISO/IEC 13818-1, 2.4.4). Each packet of the PID gives way to the next one
/// of the packing of the edited sections, each of which is given once, from the packet with which it is complete on;
/// where none waits, to a null packet. A scrambled packet passes. The counters of all packets with a payload that leave
/// on the PID go on from 0.
///
/// It keeps at most one unfinished section and the sections that wait.
#[derive(Drop)]
pub struct Flow {
    demux: Demux,
    packing: Packing,
    /// Whether the edit altered a section that the last packet completed.
    altered: bool,
    failed: FailureLatch,
    alloc: Global,
}

impl Flow {
    ghost use Rattle.section_flow.specs.FlowStands.{StandsFor, SameEdit, has_altered, has_failed};

    /// A flow of a PID below 8191, which has met no packet.
    pub fn new(alloc: Global, pid: u16) -> Result<Flow, AllocError>
        requires { pid < NULL_PID }
        ensures { IfOk result (λ flow. (edit : Edit) → StandsFor flow pid edit []) }
    {
        let packing = Packing::new(alloc, pid);
        let demux = Demux::new(alloc, pid)?;
        Ok(Flow {
            demux,
            packing,
            altered: false,
            failed: FailureLatch::unset(),
            alloc,
        })
    }

    /// Meets the next packet, of any PID, and puts in its place what leaves there. The edit is the one that applies with
    /// this packet. After `AllocError` the packet is as it was, and every later call returns `AllocError`.
    pub fn step<E: SectionEdit>(&mut self, edit: &E, packet: &mut Packet) -> Result<(), AllocError>
        ensures replaced { OnOk result ((pid : ℕ) (wanted : Edit) (met : List (List ℕ)) → StandsFor self.old pid wanted met
            → SameEdit (E.edited edit.now) (wanted (met ++ packet.old ∷ []))
            → packet.new ≡ replaced pid wanted met packet.old) }
        ensures stands { OnOk result ((pid : ℕ) (wanted : Edit) (met : List (List ℕ)) → StandsFor self.old pid wanted met
            → SameEdit (E.edited edit.now) (wanted (met ++ packet.old ∷ []))
            → StandsFor self.new pid wanted (met ++ packet.old ∷ [])) }
        ensures altered { OnOk result ((pid : ℕ) (wanted : Edit) (met : List (List ℕ)) → StandsFor self.old pid wanted met
            → SameEdit (E.edited edit.now) (wanted (met ++ packet.old ∷ []))
            → has_altered self.new ≡ list_any (alters (wanted (met ++ packet.old ∷ []))) (completed_by pid met packet.old)) }
        ensures spent { OnErr result (has_failed self.new ≡ true) }
        ensures as_it_was { OnErr result (packet.new ≡ packet.old) }
        ensures stays_spent { has_failed self.old ≡ true → IsErr result }
    {
        self.failed.check()?;
        let answer = self.advance(edit, packet);
        let new = self.failed.note(answer)?;
        *packet = new;
        Ok(())
    }

    /// Whether the edit made another section, or none, of one that the last packet completed.
    pub fn has_altered(&self) -> bool
        ensures { result ≡ has_altered self.now }
    {
        self.altered
    }

    /// Meets the next packet, and returns what leaves in its place.
    fn advance<E: SectionEdit>(&mut self, edit: &E, packet: &Packet) -> Result<Packet, AllocError>
        ensures replaced { IfOk result (λ new. (pid : ℕ) (wanted : Edit) (met : List (List ℕ)) → StandsFor self.old pid wanted met
            → SameEdit (E.edited edit.now) (wanted (met ++ packet.now ∷ []))
            → new ≡ replaced pid wanted met packet.now) }
        ensures stands { OnOk result ((pid : ℕ) (wanted : Edit) (met : List (List ℕ)) → StandsFor self.old pid wanted met
            → SameEdit (E.edited edit.now) (wanted (met ++ packet.now ∷ []))
            → StandsFor self.new pid wanted (met ++ packet.now ∷ [])) }
        ensures altered { OnOk result ((pid : ℕ) (wanted : Edit) (met : List (List ℕ)) → StandsFor self.old pid wanted met
            → SameEdit (E.edited edit.now) (wanted (met ++ packet.now ∷ []))
            → has_altered self.new ≡ list_any (alters (wanted (met ++ packet.now ∷ []))) (completed_by pid met packet.now)) }
        ensures same_failed { has_failed self.new ≡ has_failed self.old }
    {
        self.demux.feed(packet)?;
        self.altered = take_ready(self.alloc, edit, &mut self.demux, &mut self.packing)?;
        let new = self.packing.put(packet)?;
        Ok(new)
    }
}

/// Edits the sections that are complete; what becomes of them waits then. Returns whether one was altered.
fn take_ready<E: SectionEdit>(
    alloc: Global,
    edit: &E,
    demux: &mut Demux,
    packing: &mut Packing,
) -> Result<bool, AllocError>
    ensures packing { OnOk result (Joins packing.old packing.new (filter_map (E.edited edit.now) demux.old.waiting)) }
    ensures demux { OnOk result ((pid : ℕ) (fed given : List (List ℕ)) → demuxing.StandsFor demux.old pid fed given
        → demuxing.StandsFor demux.new pid fed (sections_of_pid pid fed)) }
    ensures altered { IfOk result (λ altered. altered ≡ list_any (alters (E.edited edit.now)) demux.old.waiting) }
{
    let mut altered = false;
    while let Some(section) = demux.next_section() {
        let change = edit.edit(alloc, &section)?;
        altered = or(altered, alters(&section, &change));
        put(packing, section, change)?;
    }
    Ok(altered)
}

/// Whether one of two tests holds.
fn or(first: bool, second: bool) -> bool
    ensures { result ≡ (first || second) }
{
    first || second
}

/// Whether a section becomes another one, or none.
fn alters(section: &Section, change: &SectionChange) -> bool
    ensures { result ≡ is_altered section.now (outcome section.now change.now) }
{
    match change {
        SectionChange::Stays => false,
        SectionChange::Becomes(new) => new.bytes() != section.bytes(),
        SectionChange::Goes => true,
    }
}

/// What becomes of a section waits, if it is not gone.
fn put(packing: &mut Packing, section: Section, change: SectionChange) -> Result<(), AllocError>
    ensures { OnOk result (Joins packing.old packing.new (option_to_list (outcome section change))) }
{
    match change {
        SectionChange::Stays => packing.push(section)?,
        SectionChange::Becomes(new) => packing.push(new)?,
        SectionChange::Goes => {}
    }
    Ok(())
}
