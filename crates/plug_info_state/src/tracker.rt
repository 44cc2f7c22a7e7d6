//! What `info` keeps of the cells that count.
use crate::counters::meet_counter;
use crate::extent::Extent;
use crate::other_tables::OtherTables;
use crate::packet_counts::PacketCounts;
use crate::sdt_and_bats::SdtAndBats;
use crate::spans::Spans;
use plug_info_texts::EitNumbers;
use plug_psi::{Changes, InForce, both};
use plugin_notes::LastPackets;
use std::alloc::{AllocError, Global};
use ts_packet::{Cell, Packet};
use ts_si::{Bat, Nit, Sdt};

/// What is kept of all cells that were counted.
#[derive(Drop)]
pub struct Tracker {
    last: LastPackets,
    /// The counts by PID.
    pub counts: PacketCounts,
    /// What is kept of the PCRs.
    pub spans: Spans,
    /// How far the packets reach.
    pub extent: Extent,
    /// The SDTs of which one is in force, and the BATs.
    sdt: SdtAndBats,
    /// The other tables that are read.
    pub others: OtherTables,
    /// The PAT and the PMTs in force.
    pub force: InForce,
}

impl Tracker {
    ghost use Rattle.std.specs.Prelude.{◌≡◌, ◌<◌, ◌∷◌, ◌++◌, [], ℕ, List, IfOk, OnOk, length};
    ghost use Rattle.ts_packet.specs.declared.cell.Cell.{Cell as GivenCell};
    ghost use Rattle.ts_packet.specs.Cells.{Live};
    ghost use Rattle.std.specs.Prelude.{option_map};
    ghost use Rattle.std.specs.Option.{option_copied};
    ghost use Rattle.ts_packet.specs.Cells.{live_packets};
    ghost use Rattle.ts_si.specs.SiTables.{bat_held, nit_held, sdt_held};
    ghost use Rattle.plug_psi.specs.InForce.{pat_of};
    ghost use Rattle.plug_info_state.specs.BatsInForce.{bat_of};
    ghost use Rattle.plug_info_state.specs.EitSections.{eit_of};
    ghost use Rattle.plug_info_state.specs.NitInForce.{nit_of};
    ghost use Rattle.plug_info_state.specs.declared.kept_bats.TheConstants.{BOUQUET_COUNT};
    ghost use Rattle.named_services.specs.SdtInForce.{sdt_of};
    ghost use Rattle.service_items.specs.StreamTables.{stream_of};
    ghost use Rattle.plug_info_state.specs.Tracked.{Tracks, TracksSome};

    /// No cell yet. Allocates 680 KiB; the tables in force grow with the stream.
    pub fn new(alloc: Global) -> Result<Tracker, AllocError>
        ensures { IfOk result (λ tracker. Tracks tracker []) }
    {
        let last = LastPackets::new(alloc)?;
        let counts = PacketCounts::new(alloc)?;
        let spans = Spans::new(alloc)?;
        let others = OtherTables::new(alloc)?;
        let sdt = SdtAndBats::new(alloc)?;
        let force = InForce::new(alloc);
        let (sdt, force) = both(sdt, force)?;
        Ok(Tracker {
            last,
            counts,
            spans,
            extent: Extent {
                start: None,
                positions: 0,
            },
            sdt,
            others,
            force,
        })
    }

    /// Counts the cell at a position. After `AllocError` it is not to be used any more.
    pub fn take(&mut self, at: u64, cell: &Cell) -> Result<(), AllocError>
        requires { TracksSome self.old at }
        ensures { OnOk result ((cells : List GivenCell) → Tracks self.old cells → length cells ≡ at
            → Tracks self.new (cells ++ cell.now ∷ [])) }
    {
        match cell.live() {
            Some(live) => self.take_packet(at, &live.packet),
            None => Ok(()),
        }
    }

    /// Adds the PIDs on which tables changed without a new version.
    pub fn add_changes(&self, changes: &mut Changes) -> Result<(), AllocError> {
        self.force.add_changes(changes)?;
        self.sdt.add_changes(changes)?;
        self.others.add_changes(changes)
    }

    // Counts the packet at a position.
    #[inline]
    fn take_packet(&mut self, at: u64, packet: &Packet) -> Result<(), AllocError>
        requires { TracksSome self.old at }
        ensures { OnOk result ((cells : List GivenCell) → Tracks self.old cells → length cells ≡ at → (labels : ℕ)
            → Tracks self.new (cells ++ Live packet.now labels ∷ [])) }
    {
        let is_fault = meet_counter(&mut self.last, at, packet);
        let is_scrambled = packet.scrambling() != 0;
        self.counts.add(
            packet.pid(),
            is_scrambled,
            is_fault,
            packet.error_indicator(),
        );
        self.extent = self.extent.with(at);
        self.spans.meet(at, packet)?;
        self.force.feed(at, packet)?;
        self.sdt.feed(at, packet)?;
        self.others.feed(at, packet)?;
        Ok(())
    }

    /// The transport_stream_id of the PAT in force, if there is one.
    pub fn stream_id(&self) -> Option<u16>
        ensures { (cells : List GivenCell) → Tracks self.now cells → result ≡ stream_of (pat_of (live_packets cells)) }
    {
        match self.force.pat() {
            Some(pat) => Some(pat.stream_id),
            None => None,
        }
    }

    /// The SDT in force, if there is one.
    pub fn sdt_in_force(&self) -> Option<&Sdt>
        ensures { (cells : List GivenCell) → Tracks self.now cells
            → option_map sdt_held (option_copied result) ≡ sdt_of (live_packets cells) }
    {
        self.sdt.in_force(self.stream_id())
    }
    /// The NIT in force of the actual network, if there is one.
    pub fn network(&self) -> Option<&Nit>
        ensures { (cells : List GivenCell) → Tracks self.now cells
            → option_map nit_held (option_copied result) ≡ nit_of (live_packets cells) }
    {
        self.others.nit.in_force()
    }

    /// The BAT in force of a bouquet, if there is one.
    pub fn bouquet(&self, id: u32) -> Option<&Bat>
        requires { id < BOUQUET_COUNT }
        ensures { (cells : List GivenCell) → Tracks self.now cells
            → option_map bat_held (option_copied result) ≡ bat_of id (live_packets cells) }
    {
        self.sdt.bouquet(id)
    }

    /// How many EIT sections a service has.
    pub fn eit_of(&self, id: u16) -> EitNumbers
        ensures { (cells : List GivenCell) → Tracks self.now cells → result ≡ eit_of id (live_packets cells) }
    {
        self.others.eit.of(id)
    }
}
