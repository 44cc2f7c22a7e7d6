//! The reader of the wrong CRCs of one PID.
ghost use Rattle.std.specs.Prelude.{◌≡◌, ◌++◌, ℕ, List, [], IfOk, OnOk};
ghost use Rattle.monitor_crcs.specs.ReaderState.{StandsFor};
ghost use Rattle.monitor_crcs.specs.WrongCrcs.{told_of_pid};

use monitor_crcs::WrongCrcs;
use plug_psi::Follows;
use std::alloc::{AllocError, Global};
use ts_packet::Packet;

/// Gives the table_ids of the sections with a wrong CRC of one PID, each with the packet that completes it.
#[derive(Drop)]
pub(crate) struct CrcReader {
    crcs: WrongCrcs,
}

impl Follows for CrcReader {
    ghost use Rattle.std.specs.Prelude.{◌≡◌};
    ghost use Rattle.monitor_priorities.specs.WrongTables.{HasTold, told_with};

    type Seed = ();

    type Input = ();

    type Told = Vec<u8>;

    ghost stands = { λ _ reader pid taken. HasTold reader pid taken };

    ghost given = { λ _ _ _ _. Unit {0} };

    ghost tells = { λ _ pid taken packet told. told.items ≡ told_with pid taken packet };

    fn fresh(alloc: Global, _seed: &(), pid: u16) -> Result<CrcReader, AllocError> {
        let crcs = WrongCrcs::new(alloc, pid)?;
        Ok(CrcReader { crcs })
    }

    fn take(
        &mut self,
        alloc: Global,
        _at: u64,
        _input: (),
        packet: &Packet,
    ) -> Result<Vec<u8>, AllocError> {
        self.crcs.feed(packet)?;
        let tables = take_waiting(alloc, &mut self.crcs)?;
        Ok(tables)
    }
}

// The table_ids that wait.
fn take_waiting(alloc: Global, crcs: &mut WrongCrcs) -> Result<Vec<u8>, AllocError>
    ensures stands { OnOk result ((pid : ℕ) (fed : List (List ℕ)) (given : List ℕ) → StandsFor crcs.old pid fed given
        → StandsFor crcs.new pid fed (told_of_pid pid fed)) }
    ensures tables { IfOk result (λ tables. (pid : ℕ) (fed : List (List ℕ)) (given : List ℕ) → StandsFor crcs.old pid fed given
        → told_of_pid pid fed ≡ given ++ tables.items) }
{
    let mut tables = Vec::new(alloc);
    while let Some(table) = crcs.next_table() {
        tables.push(table)?;
    }
    Ok(tables)
}
