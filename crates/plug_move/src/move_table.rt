//! What `remap` does with the packets on each PID.

ghost use Rattle.std.specs.Prelude.{◌≡◌, ◌<◌, ◌&&◌, not, IfOk, IfSome, List, ℕ};
ghost use Rattle.std.specs.List.{All};
ghost use Rattle.plug_move.specs.RemapSettings.{IsPidPair, is_target};
ghost use Rattle.plug_move.specs.MoveTables.{IsMoveTable, LeadsToPid, move_of};
ghost use Rattle.plug_move.specs.Targets;
ghost use Rattle.plug_move.specs.Targets.{target_of};

use plugin_options::PairList;
use std::alloc::{AllocError, Global};
use std::marker::Model;
use ts_packet::{PID_COUNT, PidRow};

/// What `remap` does with the packets on a PID.
#[derive(Clone, Copy, PartialEq, Eq)]
pub enum Move {
    /// They stay on it.
    Keep,
    /// They move to this PID.
    To(u16),
    /// They are refused.
    Refuse,
}

/// What `remap` does with the packets on each PID, looked up and not searched. It is seen as the pairs
/// of sources and targets, and whether targets are unchecked.
#[derive(Drop)]
pub struct MoveTable {
    pairs: PairList,
    unchecked: bool,
    moves: PidRow<Move>,
}

impl Model for MoveTable {
    ghost use Rattle.std.specs.Prelude.{List, ℕ, Bool};

    ghost Value = { List (ℕ × ℕ) × Bool };

    ghost use Rattle.plug_move.specs.MoveTables.{IsMoveTable};

    ghost view = { λ t. (t.pairs, t.unchecked) };

    ghost invariant = { λ t. IsMoveTable t.pairs t.unchecked t.moves };
}

impl MoveTable {
    /// The table of these pairs. It takes 32 KiB and a copy of the pairs, and asks them 8192 times.
    pub fn of(alloc: Global, pairs: &PairList, unchecked: bool) -> Result<MoveTable, AllocError>
        requires { All IsPidPair pairs.now }
        ensures { IfOk result (λ table. table ≡ (pairs.now, unchecked)) }
    {
        let moves = moves_of(alloc, pairs.as_slice(), unchecked)?;
        let pairs = PairList::of(Vec::from_slice(alloc, pairs.as_slice())?);
        Ok(MoveTable {
            pairs,
            unchecked,
            moves,
        })
    }

    /// What is done with the packets on a PID.
    #[inline]
    pub fn look_up(&self, pid: u16) -> Move
        requires { pid < PID_COUNT }
        ensures tells { result ≡ move_of self.now.0 self.now.1 pid }
        ensures leads { LeadsToPid result }
    {
        self.moves.get(pid)
    }

    /// What a PID becomes: its target, or itself where it is no source.
    pub fn mapped(&self, pid: u16) -> u16
        requires { pid < PID_COUNT }
        ensures mapped { result ≡ Targets.mapped self.now.0 pid }
        ensures in_range { result < PID_COUNT }
    {
        match self.look_up(pid) {
            Move::To(target) => target,
            Move::Keep | Move::Refuse => pid,
        }
    }
}

// Of each PID, what is done with its packets.
fn moves_of(
    alloc: Global,
    pairs: &[(u64, u64)],
    unchecked: bool,
) -> Result<PidRow<Move>, AllocError>
    requires { All IsPidPair pairs.now }
    ensures { IfOk result (λ moves. IsMoveTable pairs.now unchecked moves) }
{
    let moves = PidRow::of(alloc, |pid: u16| move_of(pairs, unchecked, pid))?;
    Ok(moves)
}

// What is done with the packets on a PID.
fn move_of(pairs: &[(u64, u64)], unchecked: bool, pid: u16) -> Move
    requires { All IsPidPair pairs.now }
    ensures { result ≡ move_of pairs.now unchecked pid }
{
    match target_of(pairs, u64::from(pid)) {
        Some(target) => Move::To(target),
        None if !unchecked && is_target(pairs, u64::from(pid)) => Move::Refuse,
        None => Move::Keep,
    }
}

// The target of a PID, where it is a source.
fn target_of(pairs: &[(u64, u64)], pid: u64) -> Option<u16>
    requires { All IsPidPair pairs.now }
    ensures { result ≡ target_of pairs.now pid }
{
    for pair in pairs {
        if pair.0 == pid {
            return Some(pair.1 as u16);
        }
    }
    None
}

// Whether the PID is a target.
fn is_target(pairs: &[(u64, u64)], pid: u64) -> bool
    ensures { result ≡ is_target pid pairs.now }
{
    pairs.iter().any(|pair| pair.1 == pid)
}
