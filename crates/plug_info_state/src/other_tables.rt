//! The tables that are read besides the PAT, the PMTs, the SDT and the BATs.
use crate::cat_in_force::CatInForce;
use crate::eit_counts::EitCounts;
use crate::nit_in_force::NitInForce;
use plug_psi::Changes;
use std::alloc::{AllocError, Global};
use ts_packet::Packet;

/// The tables that are read besides the PAT, the PMTs, the SDT and the BATs.
#[derive(Drop)]
pub struct OtherTables {
    /// The CAT in force.
    pub cat: CatInForce,
    /// The NIT in force of the actual network.
    pub(crate) nit: NitInForce,
    /// The EIT sections of each service.
    pub(crate) eit: EitCounts,
}

impl OtherTables {
    ghost use Rattle.std.specs.Prelude.{◌++◌, ◌∷◌, [], ℕ, List, IfOk, OnOk};
    ghost use Rattle.plug_info_state.specs.OtherStands.{HasFedOthers};

    /// No packet was fed.
    pub fn new(alloc: Global) -> Result<OtherTables, AllocError>
        ensures { IfOk result (λ others. HasFedOthers others []) }
    {
        Ok(OtherTables {
            cat: CatInForce::new(alloc)?,
            nit: NitInForce::new(alloc)?,
            eit: EitCounts::new(alloc)?,
        })
    }

    /// Takes the next packet, of any PID, which has a position. After `AllocError` it is not to be used any more.
    #[inline]
    pub fn feed(&mut self, at: u64, packet: &Packet) -> Result<(), AllocError>
        ensures { OnOk result ((fed : List (List ℕ)) → HasFedOthers self.old fed → HasFedOthers self.new (fed ++ packet.now ∷ [])) }
    {
        self.cat.feed(at, packet)?;
        self.nit.feed(at, packet)?;
        self.eit.feed(packet)?;
        Ok(())
    }

    /// Adds the PIDs on which tables changed without a new version.
    pub fn add_changes(&self, changes: &mut Changes) -> Result<(), AllocError> {
        self.cat.add_changes(changes)?;
        self.nit.add_changes(changes)
    }
}
