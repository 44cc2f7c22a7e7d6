//! What follows a PID by its tables, with the reader of these.

ghost use Rattle.std.specs.Prelude.{◌≡◌, ℕ, List};

use crate::follows::Follows;
use crate::follows_tables::FollowsTables;
use std::alloc::{AllocError, Global};
use ts_demux::PidTables;
use ts_packet::Packet;

/// What follows a PID by the tables that its packets complete, and the reader of these tables.
#[derive(Drop)]
pub struct Reading<T: Drop> {
    pub(crate) tables: PidTables,
    pub(crate) follower: T,
}

impl<T: FollowsTables> Follows for Reading<T> {
    ghost use Rattle.plug_psi.specs.ReadingState.{Reads};

    type Seed = T::Seed;

    type Input = ();

    type Told = T::Told;

    ghost stands = { λ seed it pid taken. Reads (T.stands seed) it pid taken };

    ghost given = { λ pid taken packet input. Unit {0} };

    ghost tells = { λ seed pid taken packet told. T.tells seed pid taken packet told };

    fn fresh(alloc: Global, seed: &T::Seed, pid: u16) -> Result<Reading<T>, AllocError> {
        let follower = T::fresh(alloc, seed, pid)?;
        // The largest value comes last: nothing can fail while it is held.
        let tables = PidTables::new(alloc, pid)?;
        Ok(Reading { tables, follower })
    }

    fn take(
        &mut self,
        alloc: Global,
        at: u64,
        _input: (),
        packet: &Packet,
    ) -> Result<T::Told, AllocError> {
        let tables = self.tables.take(at, packet)?;
        let told = self.follower.take(alloc, tables, packet)?;
        Ok(told)
    }
}
