//! What follows a PID by tables that others read.

ghost use Rattle.std.specs.Prelude.{◌≡◌, ℕ, List};

use crate::follows::Follows;
use crate::follows_tables::FollowsTables;
use std::alloc::{AllocError, Global};
use ts_packet::Packet;
use ts_section::TableRun;

/// What follows a PID by the tables that its packets complete. These tables are passed to it with the packets.
#[derive(Drop)]
pub struct Given<T: Drop> {
    follower: T,
}

impl<T: FollowsTables> Follows for Given<T> {
    ghost use Rattle.ts_demux.specs.TablesOn.{Completes};
    ghost use Rattle.plug_psi.specs.ReadingState.{GivenStands};

    type Seed = T::Seed;

    type Input = Vec<TableRun>;

    type Told = T::Told;

    ghost stands = { λ seed it pid taken. GivenStands (T.stands seed) it pid taken };

    ghost given = { λ pid taken packet input. Completes pid taken packet input.items };

    ghost tells = { λ seed pid taken packet told. T.tells seed pid taken packet told };

    fn fresh(alloc: Global, seed: &T::Seed, pid: u16) -> Result<Given<T>, AllocError> {
        let follower = T::fresh(alloc, seed, pid)?;
        Ok(Given { follower })
    }

    fn take(
        &mut self,
        alloc: Global,
        _at: u64,
        input: Vec<TableRun>,
        packet: &Packet,
    ) -> Result<T::Told, AllocError> {
        let told = self.follower.take(alloc, input, packet)?;
        Ok(told)
    }
}
