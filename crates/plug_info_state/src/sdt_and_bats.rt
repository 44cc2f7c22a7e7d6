//! The SDT in force, and the BATs, which come on the same PID.
ghost use Rattle.std.specs.Prelude.{◌≡◌, ◌++◌, ◌∷◌, [], ℕ, List, IfOk, OnOk, option_map};

use crate::kept_bats::{KeptBats, keep_bats};
use named_services::SdtInForce;
use plug_psi::Changes;
use std::alloc::{AllocError, Global};
use ts_packet::Packet;
use ts_si::{Bat, Sdt};

/// The PID of SDTs and BATs (ETSI EN 300 468, 5.1.3).
const SDT_PID: u16 = 17;

/// The SDTs of which one is in force, and the BATs in force, after all packets that were fed. Their room grows by the
/// transport_stream_ids that come on PID 17 with table_id 0x42, and by the bouquet_ids that come there.
#[derive(Drop)]
pub struct SdtAndBats {
    bats: KeptBats,
    alloc: Global,
    sdt: SdtInForce,
}

impl SdtAndBats {
    ghost use Rattle.std.specs.Prelude.{◌<◌};
    ghost use Rattle.std.specs.Option.{option_copied};
    ghost use Rattle.ts_si.specs.SiTables.{bat_held, sdt_held};
    ghost use Rattle.plug_info_state.specs.BatsInForce.{bat_of};
    ghost use Rattle.plug_info_state.specs.declared.kept_bats.TheConstants.{BOUQUET_COUNT};
    ghost use Rattle.named_services.specs.SdtInForce.{sdt_for};
    ghost use Rattle.plug_info_state.specs.SdtStands.{HasFedTables};

    /// No packet was fed.
    pub fn new(alloc: Global) -> Result<SdtAndBats, AllocError>
        ensures { IfOk result (λ tables. HasFedTables tables []) }
    {
        // The largest value comes last: nothing can fail while it is held.
        let sdt = SdtInForce::new(alloc)?;
        Ok(SdtAndBats {
            bats: KeptBats::new(alloc),
            alloc,
            sdt,
        })
    }

    /// Takes the next packet, of any PID, which has a position. After `AllocError` it is not to be used any more.
    #[inline]
    pub fn feed(&mut self, at: u64, packet: &Packet) -> Result<(), AllocError>
        ensures { OnOk result ((fed : List (List ℕ)) → HasFedTables self.old fed → HasFedTables self.new (fed ++ packet.now ∷ [])) }
    {
        let tables = self.sdt.feed(at, packet)?;
        keep_bats(self.alloc, &mut self.bats, &tables)?;
        Ok(())
    }

    /// Adds the PID of SDTs and BATs, if a table changed there without a new version.
    pub fn add_changes(&self, changes: &mut Changes) -> Result<(), AllocError> {
        changes.add(SDT_PID, self.sdt.changed())
    }

    /// The SDT in force, given the transport_stream_id of the PAT in force: the last one with this number, and where
    /// there is none the last one.
    pub fn in_force(&self, stream_id: Option<u16>) -> Option<&Sdt>
        ensures { (fed : List (List ℕ)) → HasFedTables self.now fed → option_map sdt_held (option_copied result) ≡ sdt_for stream_id fed }
    {
        self.sdt.in_force(stream_id)
    }

    /// The BAT in force of a bouquet, if there is one.
    pub fn bouquet(&self, id: u32) -> Option<&Bat>
        requires { id < BOUQUET_COUNT }
        ensures { (fed : List (List ℕ)) → HasFedTables self.now fed → option_map bat_held (option_copied result) ≡ bat_of id fed }
    {
        self.bats.of(id)
    }
}
